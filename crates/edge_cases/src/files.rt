// A file of a recording.

use std::{fs, io};

pub(crate) fn read(rt: &HostRuntime, name: &str, file: &str) -> io::Result<Vec<u8>> {
    let path = format!(in rt.alloc(); "{name}.{file}")?;
    fs::read(rt, path.as_str())
}
