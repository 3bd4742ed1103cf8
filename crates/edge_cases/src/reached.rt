// Which addresses the registries call globally reachable: `addresses.written` has one a line.

use crate::files::read;
use he_access::global::is_global;
use he_addr::read_ip;
use std::io;
use std::str::from_utf8;

pub(crate) fn show_addresses(rt: &HostRuntime) -> io::Result<()> {
    let addresses = read(rt, "addresses", "written")?;
    println!(rt; "addresses that are globally reachable")?;
    for line in addresses.split(|byte| *byte == b'\n') {
        if let Some(ip) = read_ip(line)
            && let Ok(text) = from_utf8(line)
        {
            let answer = if is_global(ip) { "yes" } else { "no" };
            println!(rt; "{text}: {answer}")?;
        }
    }
    Ok(())
}
