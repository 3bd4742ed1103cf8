//! A new file next to the one that it will replace.

use std::alloc::{AllocError, AllocGlobal, Global};
use std::fs::{File, canonicalize, metadata, remove_file, rename, symlink_metadata};
use std::io::{Error, ErrorKind};
use std::random::RandomSource;
use std::rt::Files;

// The maximum number of names tried for the new file: another file has one of them only by chance.
const MOST_NAMES: u32 = 16;

/// The name that a new file will have.
#[derive(Drop)]
pub struct NewName {
    // The file's present path; None if it is written in place.
    beside: Option<String>,
    path: String,
}

/// Opens a new file for writing, next to the one at this path, with the permissions of a new file (0666 less the
/// umask). Symbolic links are followed. An existing path that is not a regular file (a pipe, a terminal,
/// `/dev/null`), or a link to a missing file, is written in place.
///
/// # Errors
///
/// The system's error, if the file can't be made: for example, the folder is missing or not writable.
pub fn create_beside<R: Files + RandomSource + AllocGlobal>(
    rt: &R,
    alloc: Global,
    path: &str,
) -> Result<(R::File, NewName), Error> {
    let path = path_of(rt, alloc, path)?;
    if is_written_in_place(rt, path.as_str()) {
        let file = File::create(rt, path.as_str())?;
        return Ok((file, NewName { beside: None, path }));
    }
    create_new_beside(rt, alloc, path)
}

// Whether the path exists and is not a regular file, or is a symbolic link to nothing.
fn is_written_in_place<R: Files>(rt: &R, path: &str) -> bool {
    match metadata(rt, path) {
        Ok(there) => !there.is_file(),
        Err(_) => symlink_metadata(rt, path).is_ok(),
    }
}

// The path with its symbolic links followed; unchanged if it doesn't exist.
fn path_of<R: Files + AllocGlobal>(rt: &R, alloc: Global, path: &str) -> Result<String, Error> {
    match canonicalize(rt, path) {
        Ok(found) => Ok(String::from_str(alloc, found.as_str())?),
        Err(_) => Ok(String::from_str(alloc, path)?),
    }
}

// Makes a file with a name that no other has: `PATH.1b2c3d4e.new`.
fn create_new_beside<R: Files + RandomSource + AllocGlobal>(
    rt: &R,
    alloc: Global,
    path: String,
) -> Result<(R::File, NewName), Error> {
    for _tries in 0..MOST_NAMES {
        let beside = name_beside(rt, alloc, path.as_str())?;
        match File::create_new(rt, beside.as_str()) {
            Ok(file) => {
                let beside = Some(beside);
                return Ok((file, NewName { beside, path }));
            }
            Err(error) if error.kind() == ErrorKind::AlreadyExists => {}
            Err(error) => return Err(error),
        }
    }
    Err(ErrorKind::AlreadyExists.into())
}

fn name_beside<R: RandomSource>(rt: &R, alloc: Global, path: &str) -> Result<String, Error> {
    let mut drawn = [0u8; 4];
    rt.fill_bytes(&mut drawn)?;
    let number = u32::from_be_bytes(drawn);
    Ok(format!(in alloc; "{path}.{number:08x}.new")?)
}

impl NewName {
    /// Gives the file its name, now that it is whole; it replaces the old file.
    ///
    /// # Errors
    ///
    /// The system's error, if the rename fails. The new file is then removed, and the old one is kept.
    pub fn keep<R: Files>(self, rt: &R) -> Result<(), Error> {
        let NewName { beside, path } = self;
        let Some(beside) = beside else {
            return Ok(());
        };
        match rename(rt, beside.as_str(), path.as_str()) {
            Ok(()) => Ok(()),
            Err(error) => {
                let _ = remove_file(rt, beside.as_str());
                Err(error)
            }
        }
    }

    /// Removes the file, which is not whole. The old one is kept.
    pub fn discard<R: Files>(self, rt: &R) {
        let NewName { beside, path: _ } = self;
        if let Some(beside) = beside {
            let _ = remove_file(rt, beside.as_str());
        }
    }
}
