//! The resources of a run of the program.
ghost use Rattle.std.specs.Prelude.{◌≡◌, IfErr, OnErr, OnOk};
ghost use Rattle.he_inputs.specs.declared.stream_fault.StreamFault.TheVariants as faults;
ghost use Rattle.he_tasks.specs.Streams.{PutsText, TookAll, TookPart};

use crate::name::Name;
use crate::reports::{DONE, FAULT, report_in, tell_reason};
use he_inputs::{RaceStream, StreamFault};
use he_stream::{OutputStream, write_whole};
use std::alloc::Global;
use std::io::{ErrorKind, Write};

/// The resources of a run of the program, beside its input.
#[derive(Drop)]
pub struct Session<'r, 'n, R, O, F> {
    /// The system: files, the network, threads, a clock.
    pub system: &'r R,
    pub alloc: Global,
    /// The results go here.
    pub output: O,
    /// The faults go here. A failed write to it leaves the exit status unchanged.
    pub faults: F,
    /// The file that the output is; None for standard output.
    pub file: Option<Name<'n>>,
    /// Reads the races of one input after the other, in one memory.
    pub stream: RaceStream<Global>,
    /// The place of the file that is read next, counted from 0.
    pub place: usize,
    /// The number of files that were not read to their end.
    pub unread: usize,
}

// Puts a text into an output, and flushes it.
pub(crate) fn put_text<O: OutputStream>(text: &[u8], output: &mut O) -> Result<(), StreamFault>
    ensures ok { OnOk result (TookAll O.OutputStream output.old output.new text.now) }
    ensures err { OnErr result (TookPart O.OutputStream output.old output.new text.now) }
    ensures fault { IfErr result (λ fault. fault ≡ faults.Write) }
{
    write_whole(output, text).map_err(|_| StreamFault::Write)
}

/// Puts a text into the output, and returns the exit status. Reports why that failed if `explains` is set.
pub fn put_all<R, O: OutputStream, F: Write>(
    session: &mut Session<'_, '_, R, O, F>,
    text: &[u8],
    explains: bool,
) -> u8
    ensures { PutsText O.OutputStream text.now session.old.output session.new.output result }
{
    match put_text(text, &mut session.output) {
        Ok(()) => DONE,
        Err(_) => report_unwritten(session, explains),
    }
}

/// Reports that the output can't be written, and why if `explains` is set or a file is named, and returns the exit
/// status. Reports nothing if the reader of a pipe has gone.
pub fn report_unwritten<R, O: OutputStream, F: Write>(
    session: &mut Session<'_, '_, R, O, F>,
    explains: bool,
) -> u8
    ensures status { result ≡ FAULT }
    ensures output { session.new.output ≡ session.old.output }
{
    let faults = &mut session.faults;
    match (session.output.failure(), session.file) {
        (Some(error), _) if error.kind() == ErrorKind::BrokenPipe => FAULT,
        (Some(error), Some(file)) => report_in(Some(file), error, faults),
        (failure, file) => {
            let status = report_in(file, StreamFault::Write, faults);
            if explains {
                tell_reason(failure, faults);
            }
            status
        }
    }
}
