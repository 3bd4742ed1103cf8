//! Connects an input and an output to a connection.
ghost use Rattle.std.specs.Prelude.{◌≡◌, ◌<◌, length};
ghost use Rattle.he_stream.specs.Input.{Gives, GivesSoFar};
ghost use Rattle.he_stream.specs.Output.{PutsInRounds, PutsRoundsPart};
ghost use Rattle.he_relay.specs.Pumps.{Pumps};
ghost use Rattle.he_relay.specs.Relays.{RelaysBoth};

use crate::fault::PumpFault;
use crate::pumping::pump;
use crate::watch::Watch;
use he_stream::{InputStream, OutputStream};
use std::alloc::{AllocError, Global};
use std::thread::{Threads, join_mut};

// The maximum number of bytes taken at once, each way.
const ROOM: usize = 131_072;

/// A connection in its two halves, each with the watch of its way.
#[derive(Drop)]
pub struct Connection<S, V, F, W> {
    /// The half that is written.
    pub sending: S,
    /// The watch of the way to the connection.
    pub sends: V,
    /// The half that is read.
    pub receiving: F,
    /// The watch of the way from the connection.
    pub receives: W,
}

/// How both ways of a relay ended.
#[derive(Clone, Copy, Debug, PartialEq, Eq)]
pub struct Ends {
    /// The way from the input to the connection.
    pub sent: Result<(), PumpFault>,
    /// The way from the connection to the output.
    pub received: Result<(), PumpFault>,
}

/// Copies the input to the connection, and the connection to the output, both at once in two threads, until both ways
/// have ended. Each is a [`pump`] whose watch is called at its end.
///
/// # Errors
///
/// `AllocError` if an allocation failed, before anything was taken.
pub fn relay<R, I, O, S, V, F, W>(
    rt: &R,
    alloc: Global,
    input: &mut I,
    output: &mut O,
    connection: &mut Connection<S, V, F, W>,
) -> Result<Ends, AllocError>
where
    R: Threads,
    I: InputStream,
    O: OutputStream + Send,
    S: OutputStream,
    V: Watch,
    F: InputStream + Send,
    W: Watch + Send,
    ensures { RelaysBoth
        (Pumps (Gives I.remaining I.takes input.old input.new) (GivesSoFar I.remaining I.takes input.old input.new)
        (PutsInRounds S.contents S.puts S.flushes connection.old.sending connection.new.sending)
        (PutsRoundsPart S.contents S.puts S.flushes connection.old.sending connection.new.sending))
        (Pumps (Gives F.remaining F.takes connection.old.receiving connection.new.receiving)
        (GivesSoFar F.remaining F.takes connection.old.receiving connection.new.receiving)
        (PutsInRounds O.contents O.puts O.flushes output.old output.new)
        (PutsRoundsPart O.contents O.puts O.flushes output.old output.new))
        ((input.new ≡ input.old) × (output.new ≡ output.old) × (connection.new ≡ connection.old)) result }
{
    let mut there = vec![in alloc; 0u8; ROOM]?;
    let mut back = vec![in alloc; 0u8; ROOM]?;
    let there_room = there.as_mut_slice();
    let back_room = back.as_mut_slice();
    let Connection {
        sending,
        sends,
        receiving,
        receives,
    } = connection;
    let (received, sent) = join_mut(
        rt,
        &mut || -> Result<(), PumpFault>
            requires { 0 < length back_room.now }
            ensures { Pumps (Gives F.remaining F.takes receiving.entry.now receiving.exit.now)
                (GivesSoFar F.remaining F.takes receiving.entry.now receiving.exit.now)
                (PutsInRounds O.contents O.puts O.flushes output.entry.now output.exit.now)
                (PutsRoundsPart O.contents O.puts O.flushes output.entry.now output.exit.now) result }
        { run_way(receiving, output, receives, back_room) },
        &mut || -> Result<(), PumpFault>
            requires { 0 < length there_room.now }
            ensures { Pumps (Gives I.remaining I.takes input.entry.now input.exit.now)
                (GivesSoFar I.remaining I.takes input.entry.now input.exit.now)
                (PutsInRounds S.contents S.puts S.flushes sending.entry.now sending.exit.now)
                (PutsRoundsPart S.contents S.puts S.flushes sending.entry.now sending.exit.now) result }
        { run_way(input, sending, sends, there_room) },
    );
    Ok(Ends { sent, received })
}

// Pumps one way, and reports the end to its watch.
fn run_way<I: InputStream, O: OutputStream, W: Watch>(
    input: &mut I,
    output: &mut O,
    watch: &mut W,
    room: &mut [u8],
) -> Result<(), PumpFault>
    requires { 0 < length room.old }
    ensures { Pumps (Gives I.remaining I.takes input.old input.new)
        (GivesSoFar I.remaining I.takes input.old input.new)
        (PutsInRounds O.contents O.puts O.flushes output.old output.new)
        (PutsRoundsPart O.contents O.puts O.flushes output.old output.new) result }
{
    let end = pump(input, output, watch, room);
    watch.end(end);
    end
}
