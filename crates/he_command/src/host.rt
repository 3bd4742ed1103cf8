//! `he host`.
ghost use Rattle.std.specs.Prelude.{IfOk};
ghost use Rattle.he_command.specs.Machines.{IsMachineFor, IsMachineText, RunsHost};

use crate::objects::show_text;
use crate::system::System;
use he_addr::Ip;
use he_host::machine::read_machine;
use he_inputs::StreamFault;
use he_json::write_machine_json;
use he_kernel::fault::MachineFault;
use he_kernel::taken::read_machine_to;
use he_kernel::writing::write_host;
use he_request::Host;
use he_select::Host as Machine;
use he_stream::OutputStream;
use he_tasks::Session;
use he_tasks::reports::report;
use std::alloc::Global;
use std::io::Write;

// Writes the addresses and routes of this machine, or those for the destinations, and the remarks on them.
pub(crate) fn run_host<R: System, O: OutputStream, F: Write>(
    session: &mut Session<'_, '_, R, O, F>,
    host: &Host,
) -> u8
    ensures { RunsHost O.OutputStream host.now session.old.output session.new.output result }
{
    let mut remarks = Vec::new(session.alloc);
    match read_for(session.system, &host.destinations, &mut remarks) {
        Ok(machine) => {
            let text = text_of(session.alloc, &machine, host.is_json);
            let status = show_text(session, text);
            let _ = session.faults.write_all(remarks.as_slice());
            status
        }
        Err(fault) => report(fault, &mut session.faults),
    }
}

// The machine: all of it, or for the destinations, with remarks.
fn read_for<R: System>(
    rt: &R,
    destinations: &[Ip],
    remarks: &mut Vec<u8>,
) -> Result<Machine<Global>, MachineFault>
    ensures { IfOk result (IsMachineFor destinations.now) }
{
    if destinations.is_empty() {
        read_machine(rt, remarks)
    } else {
        read_machine_to(rt, destinations, remarks)
    }
}

// The object of the machine, or its lines.
fn text_of(alloc: Global, machine: &Machine<Global>, is_json: bool) -> Result<Vec<u8>, StreamFault>
    ensures { IfOk result (λ text. IsMachineText is_json machine.now text.items) }
{
    let mut text = Vec::new(alloc);
    if is_json {
        write_machine_json(alloc, machine.sources(), machine.routes(), &mut text)?;
        return Ok(text);
    }
    write_host(machine, &mut text)?;
    Ok(text)
}
