// Addresses as C has them: 4 or 16 bytes, the first byte first.

ghost use Rattle.std.specs.Prelude.{◌≡◌, IfOk, List, MatchOption, Some, length};
ghost use Rattle.std.specs.Int.{w32, w128, from_be_bytes};
ghost use Rattle.he_c.specs.Addresses.{AreAddresses, address_of, family_in, ip_in, size_of};

use he_addr::{Family, Ip, Memory};
use std::alloc::Global;

// The family of this number, 4 or 6.
pub(crate) fn family_in(number: u32) -> Option<Family>
    ensures { result ≡ family_in number }
{
    match number {
        4 => Some(Family::V4),
        6 => Some(Family::V6),
        _ => None,
    }
}

fn size_of(family: Family) -> usize
    ensures { result ≡ size_of family }
{
    match family {
        Family::V4 => 4,
        Family::V6 => 16,
    }
}

fn v4_in(bytes: &[u8]) -> u32
    requires { length bytes.now ≡ 4 }
    ensures { result ≡ from_be_bytes w32 bytes.now }
{
    u32::from_be_bytes([bytes[0], bytes[1], bytes[2], bytes[3]])
}

fn v6_in(bytes: &[u8]) -> u128
    requires { length bytes.now ≡ 16 }
    ensures { result ≡ from_be_bytes w128 bytes.now }
{
    match bytes.as_array() {
        Some(array) => u128::from_be_bytes(*array),
        None => unreachable!(),
    }
}

fn ip_in(family: Family, bytes: &[u8]) -> Ip
    requires { length bytes.now ≡ size_of family }
    ensures { result ≡ ip_in family bytes.now }
{
    match family {
        Family::V4 => Ip::V4(v4_in(bytes)),
        Family::V6 => Ip::V6(v6_in(bytes)),
    }
}

// The address of a member `address` of a struct: 4 bytes of it if the family's number is 4, else all 16.
pub(crate) fn address_of(number: u32, address: &[u8; 16]) -> Ip
    ensures { result ≡ address_of number address.now }
{
    if number == 4 {
        ip_in(Family::V4, &address[..4])
    } else {
        ip_in(Family::V6, address)
    }
}

// The addresses of a family, one after another. None if the last one is cut off.
pub(crate) fn addresses_in(
    alloc: Global,
    family: Family,
    bytes: &[u8],
) -> Result<Option<Vec<Ip>>, Memory>
    ensures { IfOk result (λ found. MatchOption found ((ips : List Ip) → AreAddresses family bytes.now ips → ⊥)
        (λ ips. AreAddresses family bytes.now ips.items)) }
{
    let size = size_of(family);
    let mut ips = Vec::new(alloc);
    let mut rest = bytes;
    while rest.len() >= size {
        let (own, more) = rest.split_at(size);
        ips.push(ip_in(family, own))?;
        rest = more;
    }
    Ok(if rest.is_empty() { Some(ips) } else { None })
}
