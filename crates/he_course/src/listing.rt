// The place of an attempt's address in the interlaced list from which it is taken (RFC 8305 section 4).

ghost use Rattle.std.specs.Prelude.{◌≡◌, ◌≤◌};
ghost use Rattle.std.specs.List.{count_by};
ghost use Rattle.he_addr.specs.Ip.{is_v6, same_ip};
ghost use Rattle.he_course.specs.Listing.{is_v6_at, listed_in, place_in, turn_at};

use he_addr::Ip;

/// Why a place of the interlaced list has an address of its family.
#[derive(Clone, Copy, Debug, PartialEq, Eq)]
pub enum Turn {
    /// The family of the first address leads, with First Address Family Count addresses.
    Leads,

    /// The families alternate; the address before is of the other family.
    InTurn,

    /// The other family has no more addresses.
    RunOut,
}

/// The place of an address in the interlaced list of all that is received, tried ones included.
#[derive(Clone, Copy, Debug, PartialEq, Eq)]
pub struct Listed {
    /// Counted from 0.
    pub place: usize,

    /// The number of addresses in the list.
    pub count: usize,

    pub turn: Turn,
}

// The place of an address in the list from which it is taken, which has it at most once. The search tries `first`,
// then the whole list.
pub(crate) fn listed_in(ips: &[Ip], first: usize, count: u64, ip: Ip) -> Listed
    requires { count_by (same_ip ip) ips.now ≤ 1 }
    ensures { result ≡ listed_in count ips.now ip }
{
    let place = place_of(ips, first, ip);
    Listed {
        place,
        count: ips.len(),
        turn: turn_at(ips, count, place),
    }
}

fn place_of(ips: &[Ip], first: usize, ip: Ip) -> usize
    requires { count_by (same_ip ip) ips.now ≤ 1 }
    ensures { result ≡ place_in ip ips.now }
{
    match ips.get(first) {
        Some(other) if *other == ip => first,
        _ => place_in(ips, ip),
    }
}

fn place_in(ips: &[Ip], ip: Ip) -> usize
    ensures { result ≡ place_in ip ips.now }
{
    for (place, other) in ips.iter().enumerate() {
        if *other == ip {
            return place;
        }
    }
    ips.len()
}

fn turn_at(ips: &[Ip], count: u64, place: usize) -> Turn
    ensures { result ≡ turn_at count ips.now place }
{
    let is_v6 = is_v6_at(ips, place);
    if (place as u64) < count && is_v6_at(ips, 0) == is_v6 {
        Turn::Leads
    } else if is_v6_at(ips, place.saturating_sub(1)) == is_v6 {
        Turn::RunOut
    } else {
        Turn::InTurn
    }
}

fn is_v6_at(ips: &[Ip], place: usize) -> bool
    ensures { result ≡ is_v6_at ips.now place }
{
    match ips.get(place) {
        Some(ip) => is_v6(*ip),
        None => false,
    }
}

fn is_v6(ip: Ip) -> bool
    ensures { result ≡ is_v6 ip }
{
    match ip {
        Ip::V4(_) => false,
        Ip::V6(_) => true,
    }
}
