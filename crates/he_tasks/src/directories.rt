//! Directories that a line names in place of files.
ghost use Rattle.std.specs.Prelude.{◌≡◌, ◌≤◌, ◌++◌, ◌∷◌, [], IfOk, length, map, string_bytes};
ghost use Rattle.he_options.specs.declared.limits.TheConstants.{MOST_FILES};
ghost use Rattle.he_tasks.specs.Directories.{AreFilesOf, IsInPlaceOf};

use crate::system::TaskSystem;
use he_addr::Memory;
use he_options::STANDARD;
use he_options::limits::MOST_FILES;
use std::alloc::Global;
use std::fs::{metadata, read_dir, symlink_metadata};
use std::io;

// The names of timelines in a directory end so.
const ENDING: &str = ".timeline";

// In place of a name that is not UTF-8.
const NOT_UTF8: &str = "(a name that is not UTF-8)";

// Directories are read in directories down to this depth.
const MOST_DEPTH: usize = 8;

/// The files of these names, in order: a directory has the files in it and in its directories whose names end in
/// `.timeline`, sorted, or else `DIRECTORY/*.timeline`, which is no file. Any other name stays.
///
/// # Errors
///
/// `Memory` if an allocation fails.
pub(crate) fn files_of<R: TaskSystem>(
    rt: &R,
    alloc: Global,
    names: &[&str],
) -> Result<Vec<String>, Memory>
    ensures are { IfOk result (λ files. AreFilesOf (map (λ name. name.now) names.now)
        (map string_bytes files.items)) }
    ensures few { IfOk result (λ files. length files.items ≤ MOST_FILES) }
{
    let mut files = Vec::new(alloc);
    for name in names {
        let mut own = files_at(rt, alloc, name)?;
        files.append(&mut own)?;
    }
    if files.len() > MOST_FILES {
        return Err(Memory);
    }
    Ok(files)
}

// The files of the name.
fn files_at<R: TaskSystem>(rt: &R, alloc: Global, name: &str) -> Result<Vec<String>, Memory>
    ensures { IfOk result (λ files. IsInPlaceOf name.now (map string_bytes files.items)) }
{
    if name != STANDARD && metadata(rt, name).is_ok_and(|found| found.is_dir()) {
        let mut files = Vec::new(alloc);
        add_timelines(rt, alloc, name, MOST_DEPTH, &mut files)?;
        files.sort_unstable();
        if !files.is_empty() {
            return Ok(files);
        }
        return Ok(vec![in alloc; format!(in alloc; "{name}/*{ENDING}")?]?);
    }
    Ok(vec![in alloc; String::from_str(alloc, name)?]?)
}

// Adds the timelines in the directory and in its directories, but not those of links. A directory that can't be read,
// or is too deep, is added itself: its reader reports that it can't be read.
fn add_timelines<R: TaskSystem>(
    rt: &R,
    alloc: Global,
    path: &str,
    depth: usize,
    files: &mut Vec<String>,
) -> Result<(), Memory> {
    if depth == 0 {
        return add(alloc, path, files);
    }
    let Ok(entries) = entries_of(rt, alloc, path) else {
        return add(alloc, path, files);
    };
    for entry in entries.iter() {
        let entry = entry.as_str();
        if entry.ends_with(ENDING) {
            add(alloc, entry, files)?;
        } else if is_directory(rt, entry) {
            add_timelines(rt, alloc, entry, depth - 1, files)?;
        }
    }
    Ok(())
}

// Whether it is a directory, and no link to one.
fn is_directory<R: TaskSystem>(rt: &R, path: &str) -> bool {
    symlink_metadata(rt, path).is_ok_and(|found| found.is_dir())
}

fn add(alloc: Global, path: &str, files: &mut Vec<String>) -> Result<(), Memory> {
    files.push(String::from_str(alloc, path)?)?;
    Ok(())
}

// The paths of a directory's entries. One whose name is not UTF-8 can't be opened: its reader reports that.
fn entries_of<R: TaskSystem>(rt: &R, alloc: Global, path: &str) -> io::Result<Vec<String>> {
    let mut paths = Vec::new(alloc);
    for entry in read_dir(rt, path)? {
        paths.push(match entry {
            Ok(entry) => String::from_str(alloc, entry.path().as_str())?,
            Err(error) if error.kind() == io::ErrorKind::InvalidFilename => {
                format!(in alloc; "{path}/{NOT_UTF8}{ENDING}")?
            }
            Err(error) => return Err(error),
        })?;
    }
    Ok(paths)
}
