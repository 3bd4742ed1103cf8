// An interface's files in `/sys/class/net`.

ghost use Rattle.std.specs.Prelude.{◌≡◌};
ghost use Rattle.he_kernel.specs.Sysfs.{first_line, flags_of, decimal_of, index_of, is_tunnel, link_from};

use crate::hex::{has, read_hex};
use crate::link::Link;
use crate::parts::{Cut, Parts};
use he_addr::read_number;

const UP: u128 = 0x1;

const LOOPBACK: u128 = 0x8;

// Hardware types (ARPHRD) of tunnels: tun and WireGuard, ipip, ip6tnl, sit, gre, ip6gre.
const TUN: u64 = 65534;

const IPIP: u64 = 768;

const IP6_TUNNEL: u64 = 769;

const SIT: u64 = 776;

const GRE: u64 = 778;

const IP6_GRE: u64 = 823;

/// The bytes of an interface's files; empty for one that doesn't exist.
#[derive(Clone, Copy, Debug)]
pub struct Sysfs<'t> {
    pub ifindex: &'t [u8],
    pub flags: &'t [u8],
    pub carrier: &'t [u8],
    pub kind: &'t [u8],
}

// The first line of a text.
fn first_line<'t>(text: &'t [u8]) -> &'t [u8]
    ensures { result.now ≡ first_line text.now }
{
    match Parts::new(Cut::Lines, text).next() {
        Some(line) => line,
        None => text,
    }
}

// The number in a text like `0x1003`, after the first two bytes; 0 for any other text.
fn read_flags(text: &[u8]) -> u128
    ensures { result ≡ flags_of text.now }
{
    let line = first_line(text);
    let start = line.len().min(2);
    read_hex(&line[start..], 8).unwrap_or(0)
}

// The decimal number in a text; 0 for any other text.
fn read_decimal(text: &[u8]) -> u64
    ensures { result ≡ decimal_of text.now }
{
    read_number(first_line(text)).unwrap_or(0)
}

// The index of an interface; 0 if it is above 65,535, which a race doesn't support.
fn read_index(text: &[u8]) -> u16
    ensures { result ≡ index_of text.now }
{
    u16::try_from(read_decimal(text)).unwrap_or(0)
}

// Whether the hardware type (ARPHRD) is of a tunnel.
fn is_tunnel(kind: u64) -> bool
    ensures { result ≡ is_tunnel kind }
{
    kind == TUN
        || kind == IPIP
        || kind == IP6_TUNNEL
        || kind == SIT
        || kind == GRE
        || kind == IP6_GRE
}

/// The link by an interface's files.
pub fn make_link(files: Sysfs<'_>) -> Link
    ensures { result ≡ link_from files.entry.ifindex.now files.entry.flags.now files.entry.carrier.now
        files.entry.kind.now }
{
    let flags = read_flags(files.flags);
    Link {
        number: read_index(files.ifindex),
        up: has(flags, UP),
        carrier: read_decimal(files.carrier) == 1,
        loopback: has(flags, LOOPBACK),
        tunnel: is_tunnel(read_decimal(files.kind)),
    }
}
