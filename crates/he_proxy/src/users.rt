// The users of the proxy, from their file.
ghost use Rattle.std.specs.Prelude.{IfOk};
ghost use Rattle.he_proxy.specs.Users.{IsOfFile};

use crate::fault::ProxyFault;
use he_history::Cause;
use he_log::Log;
use he_users::{Users, UsersFault, read_users};
use std::alloc::{AllocGlobal, Global};
use std::fs;
use std::io::Write;
use std::os::unix::fs::PermissionsExt;
use std::rt::Files;

// The bits of a file's mode for its group and for others.
const OTHERS: u32 = 0o077;

// The users of the file; none without one.
pub(crate) fn read_users_of<R: Files + AllocGlobal>(
    rt: &R,
    alloc: Global,
    path: Option<&str>,
) -> Result<Users, ProxyFault>
    ensures { IfOk result (IsOfFile path.entry) }
{
    let Some(path) = path else {
        return Ok(Users::none(alloc));
    };
    let text = match fs::read(rt, path) {
        Ok(text) => text,
        Err(error) => return Err(ProxyFault::UsersFile(Cause::of(&error))),
    };
    match read_users(alloc, &text) {
        Ok(users) => Ok(users),
        Err(UsersFault::Memory) => Err(ProxyFault::Memory),
        Err(fault) => Err(ProxyFault::Users(fault)),
    }
}

// Reports that others than its owner can read the file.
pub(crate) fn tell_readable<R: Files, F: Write + Drop>(rt: &R, log: &Log<F>, path: Option<&str>) {
    let Some(path) = path else {
        return;
    };
    match fs::metadata(rt, path) {
        Ok(found) if found.is_file() && found.permissions().mode() & OTHERS != 0 => {
            log.tell_readable(path);
        }
        _ => {}
    }
}
