// The list from which attempts take their addresses: all received addresses by preference, interlaced (RFC 8305
// section 4).

ghost use Rattle.std.specs.Prelude.{◌≡◌, false, filter, map, [], IfOk, OnOk};
ghost use Rattle.he_plan.specs.Attempts.{order_at};
ghost use Rattle.he_plan.specs.Planning.{interlaced_list, is_of_included, is_received};
ghost use Rattle.he_timeline.specs.Race.{reply_of};
ghost use Rattle.he_course.specs.Addresses.{all_attributes_of};

use he_addr::{Family, Ip, Memory};
use he_plan::interlace;
use he_select::DestinationAttributes;
use he_timeline::timeline::are_addresses_in_range;
use he_timeline::{Timeline, put};
use std::alloc::Allocator;

// The interlaced list of the received addresses, and which answers it includes.
#[derive(Drop)]
pub(crate) struct Interlaced<A: Allocator> {
    pub(crate) v6: bool,
    pub(crate) v4: bool,
    pub(crate) ips: Vec<Ip, A>,
}

impl<A: Allocator + Copy> Interlaced<A> {
    // The list of no answer.
    pub(crate) fn new(alloc: A) -> Interlaced<A>
        ensures no_v6 { result.v6 ≡ false }
        ensures no_v4 { result.v4 ≡ false }
        ensures ips { result.ips.items ≡ [] }
    {
        Interlaced {
            v6: false,
            v4: false,
            ips: Vec::new(alloc),
        }
    }
}

// Updates the list to the addresses received by the tick, in the order of all usable ones. It is made anew only if
// the answers seen by then are not those that it includes: at most twice in a race.
pub(crate) fn bring_to<A: Allocator + Copy, B: Allocator>(
    alloc: A,
    timeline: &Timeline<B>,
    sorted: &[DestinationAttributes],
    tick: u64,
    list: &mut Interlaced<A>,
) -> Result<(), Memory>
    requires sorted { sorted.now ≡ all_attributes_of timeline.now }
    requires list { list.old.ips.items ≡ interlaced_list timeline.now list.old.v6 list.old.v4 }
    ensures received { OnOk result (list.new.ips.items ≡ order_at timeline.now tick) }
    ensures list { OnOk result (list.new.ips.items ≡ interlaced_list timeline.now list.new.v6 list.new.v4) }
{
    let v6 = is_received(timeline, Family::V6, tick);
    let v4 = is_received(timeline, Family::V4, tick);
    if v6 == list.v6 && v4 == list.v4 {
        return Ok(());
    }
    let ips = interlaced_list(alloc, timeline, sorted, v6, v4)?;
    put(list, Interlaced { v6, v4, ips });
    Ok(())
}

fn is_received<A: Allocator>(timeline: &Timeline<A>, family: Family, tick: u64) -> bool
    ensures { result ≡ is_received timeline.now tick (reply_of timeline.now family) }
{
    match timeline.answer(family) {
        Some((answered, _)) => timeline.seen(answered) <= tick,
        None => false,
    }
}

// The interlaced list of the included answers. Leaving out an answer doesn't change the order of the other addresses.
fn interlaced_list<A: Allocator + Copy, B: Allocator>(
    alloc: A,
    timeline: &Timeline<B>,
    sorted: &[DestinationAttributes],
    v6: bool,
    v4: bool,
) -> Result<Vec<Ip, A>, Memory>
    requires { sorted.now ≡ all_attributes_of timeline.now }
    ensures { IfOk result (λ ips. ips.items ≡ interlaced_list timeline.now v6 v4) }
{
    are_addresses_in_range(timeline);
    let ips = included(alloc, sorted, v6, v4)?;
    interlace(alloc, &ips, timeline.settings().count())
}

// The sorted addresses of the included answers.
fn included<A: Allocator>(
    alloc: A,
    sorted: &[DestinationAttributes],
    v6: bool,
    v4: bool,
) -> Result<Vec<Ip, A>, Memory>
    ensures { IfOk result (λ ips. ips.items ≡ filter (is_of_included v6 v4) (map
        (λ attributes. attributes.ip) sorted.now)) }
{
    sorted
        .iter()
        .map(|attributes| attributes.ip)
        .filter(|ip| is_included(v6, v4, *ip))
        .collect(alloc)
}

fn is_included(v6: bool, v4: bool, ip: Ip) -> bool
    ensures { result ≡ is_of_included v6 v4 ip }
{
    match ip {
        Ip::V6(_) => v6,
        Ip::V4(_) => v4,
    }
}
