// /proc/net/if_inet6: the IPv6 addresses.

ghost use Rattle.std.specs.Prelude.{◌≡◌};
ghost use Rattle.he_kernel.specs.IfInet6.{address_line, source_of};

use crate::hex::{has, read_hex_field};
use crate::link::Link;
use crate::why::Why;
use he_addr::Ip;
use he_addr::prefix::V6_BITS;
use he_select::Source;

// The places of a line's fields, and the most digits of each.
const ADDRESS: usize = 0;

const ADDRESS_DIGITS: usize = 32;

const LEN: usize = 2;

const LEN_DIGITS: usize = 2;

const FLAGS: usize = 4;

const FLAGS_DIGITS: usize = 8;

/// The place of the interface's name.
pub const NAME: usize = 5;

const TEMPORARY: u128 = 0x01;

const DAD_FAILED: u128 = 0x08;

const DEPRECATED: u128 = 0x20;

const TENTATIVE: u128 = 0x40;

/// The numbers of a line.
#[derive(Clone, Copy, Debug, PartialEq, Eq)]
pub struct AddressLine {
    pub number: u128,
    pub len: u8,
    pub flags: u128,
}

/// The numbers of a line; None if it can't be parsed.
#[tactic(auto, unfolding(crate::specs::IfInet6::address_line))]
pub fn read_address_line(line: &[u8]) -> Option<AddressLine>
    ensures { result ≡ address_line line.now }
{
    let number = read_hex_field(line, ADDRESS, ADDRESS_DIGITS)?;
    let len = read_hex_field(line, LEN, LEN_DIGITS)?;
    let flags = read_hex_field(line, FLAGS, FLAGS_DIGITS)?;
    Some(AddressLine {
        number,
        len: len as u8,
        flags,
    })
}

/// The source of a line, by the link of its interface, or why there is none.
///
/// # Errors
///
/// [`Why::Unclear`], [`Why::Unready`], [`Why::Unusable`], [`Why::Down`], in this order.
#[tactic(auto, unfolding(crate::specs::IfInet6::source_of))]
pub fn make_source(read: AddressLine, link: Option<Link>) -> Result<Source, Why>
    ensures { result ≡ source_of read link }
{
    if read.len > V6_BITS {
        return Err(Why::Unclear);
    }
    if has(read.flags, TENTATIVE) || has(read.flags, DAD_FAILED) {
        return Err(Why::Unready);
    }
    let ip = Ip::V6(read.number);
    if !ip.is_usable() {
        return Err(Why::Unusable);
    }
    let Some(link) = link else {
        return Err(Why::Down);
    };
    Ok(Source {
        ip,
        plen: read.len,
        interface: link.number,
        deprecated: has(read.flags, DEPRECATED),
        temporary: has(read.flags, TEMPORARY),
    })
}
