//! The files that a list names: the line's option --files0-from.
ghost use Rattle.std.specs.Prelude.{◌≡◌, ◌==◌, ◌++◌, [], ◌∷◌, false, map, IfOk, OnOk};
ghost use Rattle.std.specs.List.{slice_split};
ghost use Rattle.he_tasks.specs.Listed.{IsList, WasListed, WasOpened, WithoutEnd};
ghost use Rattle.he_tasks.specs.Streams.{Gave};

use crate::system::TaskSystem;
use he_addr::Memory;
use he_options::STANDARD;
use he_stream::{FromReader, InputStream, take_input};
use std::alloc::Global;
use std::io::ErrorKind;
use std::str::from_utf8;
use std::{fs, io};

// The byte that ends a name.
const NAME_END: u8 = 0;

// A list's fault.
#[derive(Clone, Copy)]
pub(crate) enum ListFault {
    Empty,
    NotText,
    Memory,
}

impl ListFault {
    pub(crate) fn words(self) -> &'static str {
        match self {
            ListFault::Empty => "no file name, or an empty one",
            ListFault::NotText => "a file name that is not UTF-8",
            ListFault::Memory => "out of memory",
        }
    }
}

impl From<Memory> for ListFault {
    fn from(_refused: Memory) -> ListFault {
        ListFault::Memory
    }
}

// The bytes of the list at this path, `-` for the input, to its end.
pub(crate) fn read_list<R: TaskSystem, I: InputStream>(
    rt: &R,
    alloc: Global,
    path: &str,
    input: &mut I,
) -> io::Result<Vec<u8>>
    ensures { IfOk result (λ bytes. WasListed I.InputStream ⟦<FromReader<R::File> as InputStream>⟧ path.now
        input.old input.new bytes.items) }
{
    if path == STANDARD {
        take_whole(alloc, input)
    } else {
        read_file(rt, alloc, path)
    }
}

fn read_file<R: TaskSystem>(rt: &R, alloc: Global, path: &str) -> io::Result<Vec<u8>>
    ensures { IfOk result (λ bytes. WasOpened ⟦<FromReader<R::File> as InputStream>⟧ bytes.items) }
{
    take_opened(alloc, FromReader::new(fs::open(rt, path)?))
}

// All bytes of a file that has been opened, which is then closed.
fn take_opened<S: InputStream + Drop>(alloc: Global, mut file: S) -> io::Result<Vec<u8>>
    ensures { IfOk result (λ bytes. WasOpened S.InputStream bytes.items) }
{
    take_whole(alloc, &mut file)
}

// All bytes of an input.
fn take_whole<S: InputStream>(alloc: Global, input: &mut S) -> io::Result<Vec<u8>>
    ensures { IfOk result (λ bytes. Gave S.InputStream input.old input.new bytes.items false) }
{
    let given = take_input(alloc, input)?;
    if given.is_broken {
        return Err(input.failure().unwrap_or(ErrorKind::Other.into()));
    }
    Ok(given.bytes)
}

// The names in a list.
pub(crate) fn names_in(alloc: Global, list: &[u8]) -> Result<Vec<&str>, ListFault>
    ensures { IfOk result (λ names. IsList list.now (map (λ name. name.now) names.items)) }
{
    let parts = parts_of(alloc, without_end(list))?;
    let mut names = Vec::new(alloc);
    for part in &parts {
        push(name_of(part)?, &mut names)?;
    }
    Ok(names)
}

fn push<'b>(name: &'b str, names: &mut Vec<&'b str>) -> Result<(), Memory>
    ensures { OnOk result (names.new.items ≡ names.old.items ++ name.entry ∷ []) }
{
    names.push(name)?;
    Ok(())
}

// A list without the end of its last name, if it has one.
fn without_end(list: &[u8]) -> &[u8]
    ensures { WithoutEnd list.now result.now }
{
    list.strip_suffix(&[NAME_END]).unwrap_or(list)
}

fn parts_of(alloc: Global, list: &[u8]) -> Result<Vec<&[u8]>, Memory>
    ensures { IfOk result (λ parts. map (λ part. part.now) parts.items ≡ slice_split (λ b. b == 0) list.now) }
{
    list.split(|byte| *byte == NAME_END).collect(alloc)
}

fn name_of(part: &[u8]) -> Result<&str, ListFault>
    ensures { IfOk result (λ name. name.now ≡ part.now) }
{
    if part.is_empty() {
        return Err(ListFault::Empty);
    }
    from_utf8(part).map_err(|_| ListFault::NotText)
}
