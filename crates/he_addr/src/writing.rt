// Writes addresses, sources and prefixes to texts.

ghost use Rattle.std.specs.Prelude.{◌≡◌, ◌++◌, OnOk, OnErr};
ghost use Rattle.he_addr.specs.Prefix.{width_of};
ghost use Rattle.he_addr.specs.Printed.{IsPrinted, IsPrintedSource, IsPrintedPrefix};
ghost use Rattle.he_addr.specs.Printing.{printed, source_text, prefix_text};

use crate::ip::Ip;
use crate::prefix::{MAPPED_LEN, Prefix};
use crate::printing::{ADDRESS_LEN, PREFIX_LEN, prepend_ip, prepend_source};
use std::alloc::{AllocError as Memory, Allocator};

/// Appends the text of the address (RFC 5952 section 4): IPv6 in lower case, without leading zeros in a group, with
/// `::` for the first of the longest runs of at least two zero groups, and without a dotted part. On [`Memory`] the
/// text is unchanged.
pub fn write_ip<A: Allocator + Copy>(ip: Ip, out: &mut Vec<u8, A>) -> Result<(), Memory>
    ensures ok { OnOk result (out.new.items ≡ out.old.items ++ printed ip) }
    ensures text { IsPrinted ip (printed ip) }
    ensures err { OnErr result (out.new.items ≡ out.old.items) }
{
    let mut buffer = [0; ADDRESS_LEN];
    let start = prepend_ip(ip, &mut buffer, ADDRESS_LEN);
    out.extend_from_slice(&buffer[start..])?;
    Ok(())
}

/// Appends the address, `/` and the length. On [`Memory`] the text is unchanged.
pub fn write_source<A: Allocator + Copy>(
    ip: Ip,
    len: u8,
    out: &mut Vec<u8, A>,
) -> Result<(), Memory>
    ensures ok { OnOk result (out.new.items ≡ out.old.items ++ source_text ip len) }
    ensures text { IsPrintedSource ip len (source_text ip len) }
    ensures err { OnErr result (out.new.items ≡ out.old.items) }
{
    let mut buffer = [0; PREFIX_LEN];
    let start = prepend_source(ip, len, &mut buffer, PREFIX_LEN);
    out.extend_from_slice(&buffer[start..])?;
    Ok(())
}

/// Appends the prefix: its bits as an address, `/` and its length. With `dotted`, a prefix of IPv4 addresses is in
/// IPv4 form; every other prefix is in IPv6 form. On [`Memory`] the text is unchanged.
pub fn write_prefix<A: Allocator + Copy>(
    prefix: Prefix,
    dotted: bool,
    out: &mut Vec<u8, A>,
) -> Result<(), Memory>
    ensures ok { OnOk result (out.new.items ≡ out.old.items ++ prefix_text dotted prefix) }
    ensures text { IsPrintedPrefix dotted prefix (prefix_text dotted prefix) }
    ensures err { OnErr result (out.new.items ≡ out.old.items) }
{
    if dotted && prefix.is_v4() {
        let number = (prefix.bits() & 0xffff_ffff) as u32;
        return write_source(Ip::V4(number), prefix.len() - MAPPED_LEN, out);
    }
    write_source(Ip::V6(prefix.bits()), prefix.len(), out)
}
