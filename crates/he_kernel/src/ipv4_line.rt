// /proc/net/route: the IPv4 routes of the main table.

ghost use Rattle.std.specs.Prelude.{◌≡◌, ◌^◌, ◌<◌, IfSome};
ghost use Rattle.he_kernel.specs.Ipv4Line.{v4_line, v4_field};

use crate::hex::{has, read_hex_field};
use crate::parts::field;
use he_addr::read_number;

// The places of a line's fields, and the most digits of an address and of the flags.
const INTERFACE: usize = 0;

const DESTINATION: usize = 1;

const GATEWAY: usize = 2;

const FLAGS: usize = 3;

const METRIC: usize = 6;

const MASK: usize = 7;

const DIGITS: usize = 8;

const REJECT: u128 = 0x0200;

/// The numbers of a line.
#[derive(Clone, Copy, Debug, PartialEq, Eq)]
pub struct V4Line {
    pub destination: u32,
    pub gateway: u32,
    /// The route leads nowhere, by its reject flag or the interface `*`.
    pub nowhere: bool,
    pub metric: u64,
    pub mask: u32,
}

/// The address in the field at this place: up to eight hexadecimal digits of a little-endian number.
#[tactic(auto, unfolding(crate::specs::Ipv4Line::v4_field))]
fn read_v4_field(line: &[u8], place: usize) -> Option<u32>
    ensures { result ≡ v4_field place line.now }
{
    let number = read_hex_field(line, place, DIGITS)?;
    Some((number as u32).swap_bytes())
}

/// The numbers of a line; None if it can't be parsed.
#[tactic(auto, unfolding(crate::specs::Ipv4Line::v4_line))]
pub fn read_v4_line(line: &[u8]) -> Option<V4Line>
    ensures { result ≡ v4_line line.now }
{
    let name = field(line, INTERFACE)?;
    let destination = read_v4_field(line, DESTINATION)?;
    let gateway = read_v4_field(line, GATEWAY)?;
    let flags = read_hex_field(line, FLAGS, DIGITS)?;
    let metric = read_number(field(line, METRIC)?)?;
    let mask = read_v4_field(line, MASK)?;
    Some(V4Line {
        destination,
        gateway,
        nowhere: has(flags, REJECT) || name == b"*".as_slice(),
        metric,
        mask,
    })
}
