// Orders by round trip times and earlier uses (`known-times`), and the rules that decide them.

ghost use Rattle.std.specs.Prelude.{◌≡◌, IsTrue};
ghost use Rattle.std.specs.List.{list_all};
ghost use Rattle.he_addr.specs.Ip.{is_usable};

use crate::hosts::{route, source};
use he_addr::Ip;
use he_select::{
    DestinationRule, Host, Known, Policy, Source, order_known, order_known_with_attributes,
};
use refusing::Refusing;

const SIX_A: Ip = Ip::V6(0x2001_0db8_0001_0000_0000_0000_0000_0001);

const SIX_B: Ip = Ip::V6(0x2001_0db8_0001_0000_0000_0000_0000_0002);

const FOUR_A: Ip = Ip::V4(0xc633_6401);

// The addresses of `prefix-order`: the second one has more bits in common with their source.
const FAR: Ip = Ip::V6(0x2001_0db8_0000_0002_0000_0000_0000_0001);

const NEAR: Ip = Ip::V6(0x2001_0db8_0000_0001_0000_0000_0000_0009);

// The knowledge of three addresses, and the order in which they are tried.
type Case = ([(Ip, Option<u64>, bool); 3], [Ip; 3]);

// `known-times` a to d; the greatest round trip time still counts as known; and of a repeated address the first entry
// counts.
const CASES: [Case; 6] = [
    (
        [
            (SIX_A, None, false),
            (SIX_B, Some(80), false),
            (FOUR_A, Some(1), false),
        ],
        [SIX_B, SIX_A, FOUR_A],
    ),
    (
        [
            (SIX_A, Some(80), false),
            (SIX_B, Some(30), false),
            (FOUR_A, None, false),
        ],
        [SIX_B, SIX_A, FOUR_A],
    ),
    (
        [
            (SIX_A, Some(80), false),
            (SIX_B, None, true),
            (FOUR_A, None, false),
        ],
        [SIX_A, SIX_B, FOUR_A],
    ),
    (
        [
            (SIX_A, None, false),
            (SIX_B, None, true),
            (FOUR_A, None, false),
        ],
        [SIX_B, SIX_A, FOUR_A],
    ),
    (
        [
            (SIX_A, None, true),
            (SIX_B, Some(u64::MAX), false),
            (FOUR_A, None, false),
        ],
        [SIX_B, SIX_A, FOUR_A],
    ),
    (
        [
            (SIX_A, Some(80), false),
            (SIX_B, Some(30), false),
            (SIX_A, Some(1), true),
        ],
        [SIX_B, SIX_A, SIX_A],
    ),
];

fn known(told: &(Ip, Option<u64>, bool)) -> Known {
    let (ip, rtt, used) = *told;
    Known { ip, rtt, used }
}

pub fn all_usable(known: &[Known]) -> bool
    ensures { result ≡ list_all (λ one. is_usable one.ip) known.now }
{
    known.iter().all(|one| one.ip.is_usable())
}

// Whether they are tried in this order.
fn is_ordered<'h>(
    heap: &'h Refusing,
    policy: &Policy<&'h Refusing>,
    host: &Host<&'h Refusing>,
    known: &[Known],
    wanted: &[Ip],
) -> bool {
    if !all_usable(known) {
        return false;
    }
    match order_known(heap, policy, host, known) {
        Ok(sorted) => sorted.as_slice() == wanted,
        Err(_) => false,
    }
}

// The rule that sorts the second address after the first one, in the order in which they are tried.
fn first_rule<'h>(
    heap: &'h Refusing,
    policy: &Policy<&'h Refusing>,
    host: &Host<&'h Refusing>,
    known: &[Known],
) -> Option<DestinationRule> {
    if !all_usable(known) {
        return None;
    }
    let sorted = order_known_with_attributes(heap, policy, host, known).ok()?;
    let earlier = sorted.first()?;
    let later = sorted.get(1)?;
    Some(DestinationRule::between(earlier, later))
}

// The rules that decide in the cases.
const RULES: [DestinationRule; 6] = [
    DestinationRule::LowerRoundTripTime,
    DestinationRule::LowerRoundTripTime,
    DestinationRule::LowerRoundTripTime,
    DestinationRule::UsedBefore,
    DestinationRule::LowerRoundTripTime,
    DestinationRule::LowerRoundTripTime,
];

// The number of right cases, up to the first wrong one.
fn right_cases<'h>(
    heap: &'h Refusing,
    policy: &Policy<&'h Refusing>,
    host: &Host<&'h Refusing>,
) -> usize {
    let cases = CASES;
    let rules = RULES;
    let mut right: usize = 0;
    for ((told, wanted), rule) in cases.iter().zip(rules.iter()) {
        let list = [known(&told[0]), known(&told[1]), known(&told[2])];
        if !is_ordered(heap, policy, host, &list, wanted)
            || first_rule(heap, policy, host, &list) != Some(*rule)
        {
            break;
        }
        right = right.saturating_add(1);
    }
    right
}

fn host<'h>(heap: &'h Refusing, sources: &[Source]) -> Option<Host<&'h Refusing>> {
    let routes = [route("::/0", 1)?, route("0.0.0.0/0", 1)?];
    Host::new(heap, sources, &routes).ok()
}

// The number of right cases on a host with these sources. Without sources it reaches no address; both rules decide
// then too.
fn right_on(heap: &Refusing, sources: &[Source]) -> Option<usize> {
    let policy = Policy::standard(heap).ok()?;
    let host = host(heap, sources)?;
    Some(right_cases(heap, &policy, &host))
}

// `known-times` e: the round trip time goes before the common prefix.
fn is_prefix_behind(heap: &Refusing) -> Option<bool> {
    let policy = Policy::standard(heap).ok()?;
    let from = source(Ip::V6(0x2001_0db8_0000_0001_0000_0000_0000_0005), 64, 1);
    let host = host(heap, &[from])?;
    let timed = [known(&(FAR, Some(5), false)), known(&(NEAR, None, false))];
    let untimed = [known(&(FAR, None, false)), known(&(NEAR, None, false))];
    Some(
        is_ordered(heap, &policy, &host, &timed, &[FAR, NEAR])
            && is_ordered(heap, &policy, &host, &untimed, &[NEAR, FAR]),
    )
}

#[test]
fn known_times(rt: HostRuntime) {
    let heap = Refusing::new(rt.alloc());
    let sources = [
        source(Ip::V6(0x2001_0db8_0000_0000_0000_0000_0000_0002), 64, 1),
        source(Ip::V4(0xc000_0202), 24, 1),
    ];
    assert!(rt; right_on(&heap, &sources) == Some(CASES.len()));
    assert!(rt; right_on(&heap, &[]) == Some(CASES.len()));
    assert!(rt; is_prefix_behind(&heap) == Some(true));
}
