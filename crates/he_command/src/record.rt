//! The file of a race's record.
ghost use Rattle.std.specs.Prelude.{IfOk, OnOk};
ghost use Rattle.he_command.specs.Files.{WasWritten};
ghost use Rattle.he_command.specs.Records.{IsPlaceOf, KeepsRecord};

use crate::system::System;
use he_files::{NewName, create_beside};
use he_options::STANDARD;
use he_stream::{OutputStream, ToWriter, write_whole};
use he_tasks::reports::report_path;
use he_tasks::session::put_all;
use he_tasks::{DONE, Session};
use std::alloc::Global;
use std::io;
use std::io::{ErrorKind, Write};
use std::mem::drop;
use std::rt::Files;

// The place of the record.
#[derive(Drop)]
pub(crate) enum RecordPlace<F> {
    Nowhere,
    Output,
    File(F, NewName),
}

// Opens the file of the record, if there is one.
pub(crate) fn open_record<R: System>(
    rt: &R,
    alloc: Global,
    path: Option<&str>,
) -> io::Result<RecordPlace<R::File>>
    ensures { IfOk result (IsPlaceOf path.entry) }
{
    match path {
        None => Ok(RecordPlace::Nowhere),
        Some(STANDARD) => Ok(RecordPlace::Output),
        Some(path) => {
            let (file, name) = create_beside(rt, alloc, path)?;
            Ok(RecordPlace::File(file, name))
        }
    }
}

// Discards a file that there is no record for.
pub(crate) fn discard_record<R: System>(rt: &R, place: RecordPlace<R::File>) {
    if let RecordPlace::File(file, name) = place {
        drop(file);
        name.discard(rt);
    }
}

// Writes the text of a record to its new file, and renames it. If the text is empty or that fails, the old file
// stays.
pub(crate) fn write_record<R: Files>(
    rt: &R,
    file: R::File,
    name: NewName,
    text: &[u8],
) -> io::Result<()>
    ensures { OnOk result (WasWritten ⟦<ToWriter<R::File> as OutputStream>⟧ text.now) }
{
    match fill_file(ToWriter::new(file), text) {
        Ok(()) if text.is_empty() => {
            name.discard(rt);
            Ok(())
        }
        Ok(()) => name.keep(rt),
        Err(error) => {
            name.discard(rt);
            Err(error)
        }
    }
}

fn fill_file<P: OutputStream + Drop>(mut file: P, text: &[u8]) -> io::Result<()>
    ensures { OnOk result (WasWritten P.OutputStream text.now) }
{
    match write_whole(&mut file, text) {
        Ok(()) => Ok(()),
        Err(_) => Err(file.failure().unwrap_or(ErrorKind::Other.into())),
    }
}

// Keeps the record of a race, and returns the exit status.
pub(crate) fn keep_record<R: System, O: OutputStream, F: Write>(
    session: &mut Session<'_, '_, R, O, F>,
    path: Option<&str>,
    place: RecordPlace<R::File>,
    text: &[u8],
) -> u8
    requires { IsPlaceOf path place }
    ensures { KeepsRecord (WasWritten ⟦<ToWriter<R::File> as OutputStream>⟧) O.OutputStream path.entry text.now
        session.old.output session.new.output result }
{
    match place {
        RecordPlace::Nowhere => DONE,
        RecordPlace::Output => put_all(session, text, true),
        RecordPlace::File(file, name) => match write_record(session.system, file, name, text) {
            Ok(()) => DONE,
            Err(error) => report_path(
                session.alloc,
                path.unwrap_or(STANDARD),
                error,
                &mut session.faults,
            ),
        },
    }
}
