//! Writes an output.
ghost use Rattle.std.specs.Prelude.{OnErr, OnOk};
ghost use Rattle.std.specs.Io.KnownBytes.{Appends, Keeps};
ghost use Rattle.he_stream.specs.Output.{AppendsPart, PutsAll, FailsToPut, Flushes, PutsWhole, PutsPart};

use crate::answer::{Flushed, Put};
use crate::fault::WriteFault;
use crate::limits::MOST_WRITES;
use crate::stream::OutputStream;

/// Writes all of `text`, without a flush.
///
/// # Errors
///
/// `WriteFault` if a step failed or took no byte, or if 4,294,967,296 steps did not take all. An interrupted step is
/// tried again, and counts. A beginning of the text may then have been written.
pub fn write_output<S: OutputStream>(output: &mut S, text: &[u8]) -> Result<(), WriteFault>
    ensures ok { OnOk result (Appends (S.contents output.old) (S.contents output.new) text.now) }
    ensures err { OnErr result (AppendsPart (S.contents output.old) (S.contents output.new) text.now) }

    // The steps taken, and the last one's result.
    ensures done { OnOk result (PutsAll S.puts output.old output.new) }
    ensures fault { OnErr result (FailsToPut S.puts output.old output.new) }
{
    let mut rest = text;
    for _steps in 0..MOST_WRITES {
        if rest.is_empty() {
            return Ok(());
        }
        match output.put(rest) {
            Put::Bytes(count) => rest = &rest[count..],
            Put::Interrupted => {}
            Put::Full => return Err(WriteFault),
            Put::Failed => return Err(WriteFault),
        }
    }
    if rest.is_empty() {
        Ok(())
    } else {
        Err(WriteFault)
    }
}

/// Writes all of `text` and flushes the output.
///
/// # Errors
///
/// `WriteFault` as in `write_output` and `finish_output`.
pub fn write_whole<S: OutputStream>(output: &mut S, text: &[u8]) -> Result<(), WriteFault>
    ensures ok { OnOk result (PutsWhole S.contents S.puts S.flushes output.old output.new text.now) }
    ensures err { OnErr result (PutsPart S.contents S.puts S.flushes output.old output.new text.now) }
{
    write_output(output, text)?;
    finish_output(output)
}

/// Flushes the output.
///
/// # Errors
///
/// `WriteFault` if the flush failed. An interrupted flush is tried again, at most 4,294,967,296 times.
pub fn finish_output<S: OutputStream>(output: &mut S) -> Result<(), WriteFault>
    ensures bytes { Keeps (S.contents output.old) (S.contents output.new) }

    // The flushes tried, and the last one's result.
    ensures told { Flushes S.flushes output.old output.new result }
{
    for _steps in 0..MOST_WRITES {
        match output.flush() {
            Flushed::Done => return Ok(()),
            Flushed::Interrupted => {}
            Flushed::Failed => return Err(WriteFault),
        }
    }
    Err(WriteFault)
}
