//! Copies an input to an output.
ghost use Rattle.std.specs.Prelude.{◌<◌, length};
ghost use Rattle.he_stream.specs.Input.{Gives, GivesSoFar};
ghost use Rattle.he_stream.specs.Output.{PutsInRounds, PutsRoundsPart};
ghost use Rattle.he_relay.specs.Pumps.{Pumps};

use crate::fault::PumpFault;
use crate::watch::Watch;
use he_stream::limits::MOST_READS;
use he_stream::{InputStream, OutputStream, Taken, write_whole};

/// Takes bytes from the input, a piece of at most the room's length at a time, and puts each piece into the output,
/// flushed, before it takes the next one; until the input ends or the watch wants no more. It waits as long as the
/// input, the output and the watch do.
///
/// # Errors
///
/// - `Input` if a step of the input failed, or 4,294,967,296 steps did not reach its end. The bytes taken before are
///   put.
/// - `Output` if a write or a flush failed, or a write took no byte. A beginning of the bytes taken is put.
/// - `Cut` if the watch wanted no further step of the input, which had not ended. The bytes taken before are put.
pub fn pump<I: InputStream, O: OutputStream, W: Watch>(
    input: &mut I,
    output: &mut O,
    watch: &mut W,
    room: &mut [u8],
) -> Result<(), PumpFault>
    requires { 0 < length room.old }
    ensures { Pumps (Gives I.remaining I.takes input.old input.new)
        (GivesSoFar I.remaining I.takes input.old input.new)
        (PutsInRounds O.contents O.puts O.flushes output.old output.new)
        (PutsRoundsPart O.contents O.puts O.flushes output.old output.new) result }
{
    for _steps in 0..MOST_READS {
        if !watch.wants_more() {
            return Err(PumpFault::Cut);
        }
        match input.take(room) {
            Taken::Bytes(count) => write_whole(output, &room[..count])?,
            Taken::Interrupted => {}
            Taken::End => return Ok(()),
            Taken::Failed => return Err(PumpFault::Input),
        }
    }
    Err(PumpFault::Input)
}
