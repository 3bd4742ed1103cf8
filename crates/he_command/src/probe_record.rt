//! The file of the records of probes.

use crate::system::System;
use he_files::{NewName, create_beside};
use he_stream::{OutputStream, ToWriter, write_whole};
use std::alloc::Global;
use std::io;
use std::io::ErrorKind;
use std::mem::drop;

// A file of records, which grows by each round. It takes its name after the first.
#[derive(Drop)]
pub(crate) struct RoundsFile<F> {
    file: ToWriter<F>,
    // None once the file has its name.
    name: Option<NewName>,
}

// Opens the file at the path, if there is one.
pub(crate) fn open_rounds<R: System>(
    rt: &R,
    alloc: Global,
    path: Option<&str>,
) -> io::Result<Option<RoundsFile<R::File>>> {
    let Some(path) = path else {
        return Ok(None);
    };
    let (file, name) = create_beside(rt, alloc, path)?;
    Ok(Some(RoundsFile {
        file: ToWriter::new(file),
        name: Some(name),
    }))
}

// Appends the record of a round, if there is a file.
pub(crate) fn add_round<R: System>(
    rt: &R,
    rounds: &mut Option<RoundsFile<R::File>>,
    text: &[u8],
) -> io::Result<()> {
    let Some(rounds) = rounds else {
        return Ok(());
    };
    if write_whole(&mut rounds.file, text).is_err() {
        return Err(rounds.file.failure().unwrap_or(ErrorKind::Other.into()));
    }
    match rounds.name.take() {
        Some(name) => name.keep(rt),
        None => Ok(()),
    }
}

// Closes the file. One without a record is removed.
pub(crate) fn close_rounds<R: System>(rt: &R, rounds: Option<RoundsFile<R::File>>) {
    if let Some(RoundsFile { file, name }) = rounds {
        drop(file);
        if let Some(name) = name {
            name.discard(rt);
        }
    }
}
