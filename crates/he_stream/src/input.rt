//! Reads an input to its end.
ghost use Rattle.std.specs.Prelude.{◌≡◌, ◌+◌, ◌<◌, ◌≤◌, IfOk, OnOk, length, take, drop, vec_len};
ghost use Rattle.std.specs.Io.{StartsWith, appended_bytes};
ghost use Rattle.std.specs.Io.KnownBytes.{Consumes, IsAtEnd};
ghost use Rattle.he_stream.specs.Input.{Gives, ReadsTo};
ghost use Rattle.he_stream.specs.declared.limits.TheConstants.{READ_SIZE};
ghost use Rattle.he_stream.specs.Pieces.{TakesPiece};
ghost use Rattle.he_stream.specs.Steps.{Takes};

use crate::answer::Taken;
use crate::fault::ReadFault;
use crate::limits::{INPUT_ROOM, MOST_READS};
use crate::stream::InputStream;
use std::alloc::{AllocError, Allocator, Global};

/// Reads the input to its end and appends its bytes to `bytes`.
///
/// On a fault `bytes` has gained all bytes read before it: no byte taken from the input is lost, even on `Memory`.
///
/// # Errors
///
/// - `Failed` if a step failed.
/// - `Bound` if 4,294,967,296 steps did not reach the end. An interrupted step is tried again, and counts.
/// - `Memory` if an allocation failed.
pub fn read_input<S: InputStream, A: Allocator>(
    input: &mut S,
    bytes: &mut Vec<u8, A>,
) -> Result<(), ReadFault>
    // The old bytes are kept, and the new ones were taken from the input.
    ensures stays { StartsWith bytes.new.items bytes.old.items }
    ensures taken { Consumes (S.remaining input.old) (S.remaining input.new)
        (appended_bytes bytes.old.items bytes.new.items) }
    ensures whole { OnOk result (IsAtEnd (S.remaining input.new)) }

    // The steps taken, and the last one's result.
    ensures told { ReadsTo S.takes input.old input.new result }
{
    let (filled, result) = fill(input, bytes);
    bytes.truncate(filled);
    result
}

/// The bytes of an input.
#[derive(Drop)]
pub struct WholeInput<A: Allocator = Global> {
    /// All of its bytes.
    pub bytes: Vec<u8, A>,
    /// Whether the input broke off after them.
    pub is_broken: bool,
}

/// Reads the input to its end or to the point where it breaks off: a step failed, or 4,294,967,296 steps did not
/// reach the end.
///
/// # Errors
///
/// `AllocError` if an allocation failed.
pub fn take_input<S: InputStream, A: Allocator>(
    alloc: A,
    input: &mut S,
) -> Result<WholeInput<A>, AllocError>
    ensures { IfOk result (λ given. Gives S.remaining S.takes input.old input.new given.bytes.items given.is_broken) }
{
    let mut bytes = Vec::new(alloc);
    match read_input(input, &mut bytes) {
        Ok(()) => Ok(WholeInput {
            bytes,
            is_broken: false,
        }),
        Err(ReadFault::Failed | ReadFault::Bound) => Ok(WholeInput {
            bytes,
            is_broken: true,
        }),
        Err(ReadFault::Memory) => Err(AllocError),
    }
}

// Reads to the end in place, and returns the number of bytes of the vector that are filled. The bytes after them are
// room for the next step.
fn fill<S: InputStream, A: Allocator>(
    input: &mut S,
    bytes: &mut Vec<u8, A>,
) -> (usize, Result<(), ReadFault>)
    ensures within { result.0 ≤ vec_len bytes.new }
    ensures stays { StartsWith (take result.0 bytes.new.items) bytes.old.items }
    ensures taken { Consumes (S.remaining input.old) (S.remaining input.new)
        (appended_bytes bytes.old.items (take result.0 bytes.new.items)) }
    ensures whole { OnOk result.1 (IsAtEnd (S.remaining input.new)) }
    ensures told { ReadsTo S.takes input.old input.new result.1 }
{
    let mut filled = bytes.len();
    for _steps in 0..MOST_READS {
        let taken = match take_piece(input, bytes, filled, INPUT_ROOM) {
            Ok(taken) => taken,
            Err(_) => return (filled, Err(ReadFault::Memory)),
        };
        match taken {
            Taken::Bytes(count) => filled += count,
            Taken::Interrupted => {}
            Taken::End => return (filled, Ok(())),
            Taken::Failed => return (filled, Err(ReadFault::Failed)),
        }
    }
    (filled, Err(ReadFault::Bound))
}

/// Takes one step of the input, into the room after the first `filled` bytes of the vector, which are kept.
///
/// It makes `room` bytes of room before the step, 1 to [`READ_SIZE`](crate::limits::READ_SIZE), so that a failed
/// allocation loses no byte of the input. After `Bytes(count)` the next `count` bytes of the vector are those taken;
/// the bytes after them are room that the next step reuses.
///
/// # Errors
///
/// `AllocError` if an allocation failed. The input is then unchanged.
pub fn take_piece<S: InputStream, A: Allocator>(
    input: &mut S,
    bytes: &mut Vec<u8, A>,
    filled: usize,
    room: usize,
) -> Result<Taken, AllocError>
    requires filled { filled ≤ vec_len bytes.old }
    requires some { 0 < room }
    requires few { room ≤ READ_SIZE }
    ensures within { filled ≤ vec_len bytes.new }
    ensures room { OnOk result (filled + room ≤ vec_len bytes.new) }
    ensures front { take filled bytes.new.items ≡ take filled bytes.old.items }
    ensures step { TakesPiece S.remaining S.takes input.old input.new (take room
        (drop filled bytes.new.items)) result }
{
    make_room(bytes, filled, room)?;
    Ok(take_at(input, bytes.as_mut_slice(), filled, room))
}

// Takes one step into `room` bytes of the slice, from `at` on.
fn take_at<S: InputStream>(input: &mut S, bytes: &mut [u8], at: usize, room: usize) -> Taken
    requires { at + room ≤ length bytes.old }
    ensures same { length bytes.new ≡ length bytes.old }
    ensures front { take at bytes.new ≡ take at bytes.old }
    ensures step { Takes (S.remaining input.old) (S.remaining input.new) result (take room (drop at bytes.new)) }
    ensures told { S.takes input.old result input.new }
{
    input.take(&mut bytes[at..at + room])
}

// Extends the vector with zeros to `room` bytes past `filled`. Room that an earlier step left is kept.
fn make_room<A: Allocator>(
    bytes: &mut Vec<u8, A>,
    filled: usize,
    room: usize,
) -> Result<(), AllocError>
    requires filled { filled ≤ vec_len bytes.old }
    requires few { room ≤ READ_SIZE }
    ensures within { filled ≤ vec_len bytes.new }
    ensures front { take filled bytes.new.items ≡ take filled bytes.old.items }
    ensures room { OnOk result (filled + room ≤ vec_len bytes.new) }
{
    if bytes.len() - filled < room {
        bytes.reserve(filled + room - bytes.len())?;
        bytes.resize(filled + room, 0)?;
    }
    Ok(())
}
