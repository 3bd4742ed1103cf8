//! Ports, by number or by service name.

ghost use Rattle.std.specs.Prelude.{◌≡◌, ◌==◌, IfErr, IfOk, not, position};
ghost use Rattle.he_names.specs.Fields.{texts};
ghost use Rattle.he_names.specs.Ports.{IsNoPort, MeansPort, is_decimal, line_port, port_given, port_in, ports_of, tcp_port, unsigned, without_zeros};
ghost use Rattle.he_names.specs.declared.ports.PortFault.TheVariants as faults;

use crate::fields::{fields, has_text, is_text, lines};
use crate::hosts::without_comment;
use crate::limits::{LEAST_PORT, MOST_PORT};
use crate::literals::cut;
use crate::numeric::are_digits;
use he_addr::{Memory, read_number};
use std::alloc::{AllocFailed, Allocator};
use thiserror::Error;

const SLASH: u8 = b'/';

const PLUS: u8 = b'+';

/// Why a text names no port.
#[derive(Clone, Copy, Debug, PartialEq, Eq, Error)]
pub enum PortFault {
    /// A number that is not a port.
    #[error("a port is a number from 1 to 65535")]
    Range,
    /// The services file has no such service over TCP.
    #[error("no such service in /etc/services: write the port's number")]
    Unknown,
    /// An allocation failed.
    #[error("out of memory")]
    Memory,
}

impl From<Memory> for PortFault {
    ghost from_gives = { λ _ fault. fault ≡ faults.Memory };

    fn from(_refused: Memory) -> PortFault {
        PortFault::Memory
    }
}

/// Reads a port: a number from 1 to 65535, as strtoul(3) reads it, or a service over TCP of a services file
/// (services(5)), by its name or an alias. Of several lines the first one decides.
///
/// # Errors
///
/// `Range` if the text is a number but not a port; `Unknown` if no line has the service; `Memory` if an allocation
/// failed.
pub fn read_port<A: Allocator + Copy>(
    alloc: A,
    services: &[u8],
    text: &[u8],
) -> Result<u16, PortFault>
    ensures port { IfOk result (MeansPort services.now text.now) }
    ensures fault { IfErr result (IsNoPort services.now text.now) }
{
    if is_decimal(text) {
        return match port_in(unsigned(text)) {
            Some(port) => Ok(port),
            None => Err(PortFault::Range),
        };
    }
    let ports = ports_of(alloc, services, text)?;
    match ports.as_slice() {
        [port, ..] => Ok(*port),
        [] => Err(PortFault::Unknown),
    }
}

fn is_decimal(text: &[u8]) -> bool
    ensures { result ≡ is_decimal text.now }
{
    let digits = unsigned(text);
    !digits.is_empty() && are_digits(digits)
}

fn unsigned(text: &[u8]) -> &[u8]
    ensures { result.now ≡ unsigned text.now }
{
    match text {
        [PLUS, digits @ ..] => digits,
        _ => text,
    }
}

fn find_digit(digits: &[u8]) -> Option<usize>
    ensures { result ≡ position (λ byte. not (byte == 48)) digits.now }
{
    digits.iter().position(|byte| *byte != b'0')
}

fn without_zeros(digits: &[u8]) -> &[u8]
    ensures { result.now ≡ without_zeros digits.now }
{
    match find_digit(digits) {
        Some(at) => &digits[at..],
        None => &[],
    }
}

#[tactic(auto, unfolding(crate::specs::Ports::port_in))]
fn port_in(digits: &[u8]) -> Option<u16>
    ensures { result ≡ port_in digits.now }
{
    let number = read_number(without_zeros(digits))?;
    if (LEAST_PORT..=MOST_PORT).contains(&number) {
        Some(number as u16)
    } else {
        None
    }
}

#[tactic(auto, unfolding(crate::specs::Ports::tcp_port))]
fn tcp_port(field: &[u8]) -> Option<u16>
    ensures { result ≡ tcp_port field.now }
{
    let (port, protocol) = cut(field, SLASH)?;
    if is_text(protocol, b"tcp") {
        port_in(port)
    } else {
        None
    }
}

fn ports_of<A: Allocator + Copy>(
    alloc: A,
    services: &[u8],
    service: &[u8],
) -> Result<Vec<u16, A>, Memory>
    ensures { IfOk result (λ ports. ports.items ≡ ports_of service.now services.now) }
{
    let lines = lines(alloc, services)?;
    let mut ports = Vec::new(alloc);
    for line in &lines {
        if let Some(port) = line_port(alloc, line, service)? {
            ports.push(port)?;
        }
    }
    Ok(ports)
}

// The port that a line gives the service.
#[tactic(auto, unfolding(crate::specs::Ports::line_port))]
fn line_port<A: Allocator + Copy>(
    alloc: A,
    line: &[u8],
    service: &[u8],
) -> Result<Option<u16>, Memory>
    ensures { IfOk result (λ port. port ≡ line_port service.now line.now) }
{
    let fields = fields(alloc, without_comment(line))?;
    Ok(port_given(fields.as_slice(), service))
}

fn port_given(fields: &[&[u8]], service: &[u8]) -> Option<u16>
    ensures { result ≡ port_given service.now (texts fields.now) }
{
    match fields {
        [name, port, names @ ..] if is_text(service, name) || has_text(names, service) => {
            tcp_port(port)
        }
        _ => None,
    }
}
