//! The port of a service.
ghost use Rattle.std.specs.Prelude.{◌≡◌, IfErr, IfOk};
ghost use Rattle.he_command.specs.Connection.{HasPort, LacksPort};
ghost use Rattle.he_command.specs.Files.{WasRead};

use crate::system::System;
use he_names::{PortFault, read_port};
use he_options::Port;
use he_stream::{FromReader, InputStream, take_input};
use he_tasks::reports::{report, report_of, report_path};
use he_tasks::{Session, USAGE};
use std::alloc::Global;
use std::io::{ErrorKind, Write};
use std::{fs, io};

// The services file (services(5)).
const SERVICES: &str = "/etc/services";

// The number of the line's port; or, after printing why there is none, the exit status.
pub(crate) fn number_of<R: System, O, F: Write>(
    session: &mut Session<'_, '_, R, O, F>,
    port: Port<'_>,
) -> Result<u16, u8>
    ensures number { IfOk result (HasPort (WasRead ⟦<FromReader<R::File> as InputStream>⟧) port.entry) }
    ensures status { IfErr result (LacksPort (WasRead ⟦<FromReader<R::File> as InputStream>⟧) port.entry) }
    ensures output { session.new.output ≡ session.old.output }
{
    let name = match port {
        Port::Number(number) => return Ok(number),
        Port::Service(name) => name,
    };
    let (rt, alloc) = (session.system, session.alloc);
    let faults = &mut session.faults;
    let services = match read_file(rt, alloc, SERVICES) {
        Ok(services) => services,
        Err(error) => return Err(report_path(alloc, SERVICES, error, faults)),
    };
    match read_port(alloc, &services, name.as_bytes()) {
        Ok(number) => Ok(number),
        Err(PortFault::Unknown) => {
            report_of(alloc, "no such service", name, faults);
            Err(USAGE)
        }
        Err(fault) => Err(report(fault, faults)),
    }
}

// The contents of the file at this path.
fn read_file<R: System>(rt: &R, alloc: Global, path: &str) -> io::Result<Vec<u8>>
    ensures { IfOk result (λ bytes. WasRead ⟦<FromReader<R::File> as InputStream>⟧ bytes.items) }
{
    read_whole(alloc, FromReader::new(fs::open(rt, path)?))
}

fn read_whole<F: InputStream + Drop>(alloc: Global, mut file: F) -> io::Result<Vec<u8>>
    ensures { IfOk result (λ bytes. WasRead F.InputStream bytes.items) }
{
    let given = take_input(alloc, &mut file)?;
    if given.is_broken {
        return Err(file.failure().unwrap_or(ErrorKind::Other.into()));
    }
    Ok(given.bytes)
}
