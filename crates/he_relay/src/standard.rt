//! Connects standard input and an output to a socket.
ghost use Rattle.std.specs.Prelude.{◌≡◌};
ghost use Rattle.he_stream.specs.Input.{Gives, GivesSoFar};
ghost use Rattle.he_stream.specs.Output.{PutsInRounds, PutsRoundsPart};
ghost use Rattle.he_relay.specs.Relays.{IsBroken, IsEnd, IsNotSent, Relays, RelaysStandard};

use crate::fault::{Breakage, PumpFault, RelayFault};
use crate::halves::SocketConnection;
use crate::relaying::{Ends, relay};
use he_stream::{InputStream, OutputStream};
use std::alloc::Global;
use std::thread::Threads;

/// Copies the input to the connection, and the connection to the output ([`relay`]), until the remote has ended and
/// the input with it.
///
/// The input must be standard input: descriptor 0 is polled for data. When it ends, the connection is shut down only
/// for sending. If the output fails, the connection is shut down both ways.
///
/// # Errors
///
/// The first of these that happened:
///
/// - `Output` if a write or a flush of the output failed.
/// - `Broken` if the connection broke, with how it did and the number of bytes that passed over it; also if both ways
///   ended and the remote then reset it, so that it lacks some of the bytes that this machine's system accepted for
///   sending.
/// - `Unsent` if the remote had closed the connection before it accepted all bytes of the input.
/// - `Input` if a read of the input failed.
/// - `Unread` if the remote had ended its way, the input gave nothing for the time of the wait, and then had data
///   before the other way ended; never for a terminal.
/// - `Memory` before anything was taken.
#[tactic(auto, unfolding(crate::specs::Relays::RelaysStandard))]
pub fn relay_standard<R: Threads, I: InputStream, O: OutputStream + Send>(
    rt: &R,
    alloc: Global,
    input: &mut I,
    output: &mut O,
    connection: &mut SocketConnection<'_>,
) -> Result<(), RelayFault>
    ensures ways { RelaysStandard (Gives I.remaining I.takes input.old input.new)
        (GivesSoFar I.remaining I.takes input.old input.new)
        (PutsInRounds O.contents O.puts O.flushes output.old output.new)
        (PutsRoundsPart O.contents O.puts O.flushes output.old output.new)
        ((input.new ≡ input.old) × (output.new ≡ output.old)) connection.new.sends.has_more result }
    ensures output { Relays (PutsInRounds O.contents O.puts O.flushes output.old output.new)
        (PutsRoundsPart O.contents O.puts O.flushes output.old output.new) (output.new ≡ output.old) result }
{
    let ends = relay(rt, alloc, input, output, connection)?;
    let has_more = connection.has_more();
    end_of(connection, has_more, ends)
}

// The end of the relay; the output's way comes first.
fn end_of(connection: &SocketConnection<'_>, has_more: bool, ends: Ends) -> Result<(), RelayFault>
    ensures { IsEnd has_more ends.sent ends.received result }
{
    match (ends.received, ends.sent) {
        (Err(PumpFault::Output), _) => Err(RelayFault::Output),
        (Err(PumpFault::Input | PumpFault::Cut), _) => Err(broken(
            connection,
            connection.breakage(),
        )),
        (Ok(()), Err(PumpFault::Output)) => Err(not_sent(connection)),
        (Ok(()), Err(PumpFault::Input)) => Err(RelayFault::Input),
        (Ok(()), Err(PumpFault::Cut)) if has_more => Err(RelayFault::Unread),
        (Ok(()), _) if connection.was_reset() => Err(broken(connection, Breakage::Reset)),
        (Ok(()), Ok(()) | Err(PumpFault::Cut)) => Ok(()),
    }
}

fn broken(connection: &SocketConnection<'_>, how: Breakage) -> RelayFault
    ensures { IsBroken (Err result) }
{
    RelayFault::Broken(how, connection.traffic())
}

// A connection that the remote has closed takes no more bytes, nor does a broken one.
fn not_sent(connection: &SocketConnection<'_>) -> RelayFault
    ensures { IsNotSent (Err result) }
{
    match connection.breakage() {
        Breakage::Other => RelayFault::Unsent(connection.unsent()),
        how => broken(connection, how),
    }
}
