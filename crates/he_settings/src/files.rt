//! Reads the system files.

ghost use Rattle.std.specs.Prelude.{◌≡◌, IfErr, IfOk};
ghost use Rattle.he_settings.specs.Scopes.{FindsScope, MayBeScope};
ghost use Rattle.he_settings.specs.Faults.{IsOfFile};

use crate::fault::NamesFault;
use crate::file_fault::{FileError, FileFault, SystemFile};
use crate::limits::MOST_READS;
use he_addr::read_number;
use he_names::{HostFault, Target, read_host};
use std::alloc::{AllocGlobal, Global};
use std::rt::Files;
use std::str::from_utf8;
use std::{fs, io};

pub(crate) const HOSTS: &str = "/etc/hosts";

pub(crate) const SETTINGS: &str = "/etc/resolv.conf";

// The bytes of a file; empty if it doesn't exist.
pub(crate) fn read_file<R: Files + AllocGlobal>(
    rt: &R,
    alloc: Global,
    path: &str,
    file: SystemFile,
) -> Result<Vec<u8>, NamesFault>
    ensures { IfErr result (IsOfFile file) }
{
    for _ in 0..MOST_READS {
        match fs::read(rt, path) {
            Ok(text) => return Ok(text),
            Err(error) if error.kind() == io::ErrorKind::Interrupted => {}
            Err(error) => return unread(alloc, file, error),
        }
    }
    Err(fault_of(file, io::ErrorKind::Interrupted.into()))
}

// No bytes if the file doesn't exist; otherwise why it can't be read.
fn unread(alloc: Global, file: SystemFile, error: io::Error) -> Result<Vec<u8>, NamesFault>
    ensures { IfErr result (IsOfFile file) }
{
    match error.kind() {
        io::ErrorKind::NotFound | io::ErrorKind::NotADirectory => Ok(Vec::new(alloc)),
        _ => Err(fault_of(file, error)),
    }
}

fn fault_of(file: SystemFile, error: io::Error) -> NamesFault
    ensures { IsOfFile file result }
{
    match NamesFault::from(error) {
        NamesFault::Memory => NamesFault::Memory,
        NamesFault::Files => NamesFault::Files,
        _ => NamesFault::Unreadable(FileFault {
            file,
            error: FileError::new(&error),
        }),
    }
}

/// The index of the interface that a zone gives by number or name (RFC 4007 section 11), as for connect(2). None if
/// this machine has no interface of this name.
///
/// # Errors
///
/// `Unreadable`, `Files`, `Memory`.
pub fn read_scope<R: Files + AllocGlobal>(
    rt: &R,
    alloc: Global,
    zone: &[u8],
) -> Result<Option<u32>, NamesFault>
    ensures { IfOk result (MayBeScope zone.now) }
{
    if let Some(number) = read_number(zone) {
        return Ok(u32::try_from(number).ok());
    }
    let Ok(name) = from_utf8(zone) else {
        return Ok(None);
    };
    let path = format!(in alloc; "/sys/class/net/{name}/ifindex")?;
    let text = read_file(rt, alloc, path.as_str(), SystemFile::Interface)?;
    let digits = match text.as_slice() {
        [digits @ .., b'\n'] => digits,
        digits => digits,
    };
    match read_number(digits) {
        Some(number) => Ok(u32::try_from(number).ok()),
        None => Ok(None),
    }
}

/// The index of the interface in a host's link-local address, as for connect(2); 0 for any other host.
///
/// # Errors
///
/// `Host` if the text is not a host or this machine doesn't have its interface; `Unreadable`, `Files`, `Memory`.
pub fn find_scope<R: Files + AllocGlobal>(
    rt: &R,
    alloc: Global,
    host: &str,
) -> Result<u32, NamesFault>
    ensures { IfOk result (FindsScope host.now) }
{
    match read_host(alloc, host)? {
        Target::OnLink(_, interface) => match read_scope(rt, alloc, &interface)? {
            Some(scope) => Ok(scope),
            None => Err(NamesFault::Host(HostFault::Interface)),
        },
        _ => Ok(0),
    }
}
