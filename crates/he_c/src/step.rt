// A step of a running race, as numbers.

ghost use Rattle.std.specs.Prelude.{◌≡◌};
ghost use Rattle.he_c.specs.Steps.{ActsAs, PausesAs, StartsNone, bytes_of, family_of};

use crate::codes::{EXHAUSTED, LIMIT, START, WAIT, WON};
use he_addr::Ip;
use he_next::{Action, Step};

/// The step that is due in a running race: `struct he_step` of `he.h`.
#[repr(C)]
#[derive(Clone, Copy)]
pub struct StepNumbers {
    /// `START`, `WAIT`, `WON`, `EXHAUSTED` or `LIMIT`.
    pub action: u32,
    /// 4 or 6 for a start, else 0.
    pub family: u32,
    /// The place of the attempt that starts or has won, else 0.
    pub place: u64,
    /// The tick of the start, the tick to wait for, or the tick of the race's end.
    pub tick: u64,
    /// The pause to add to the record; 0 and 0 if there is none.
    pub pause_from: u64,
    pub pause_until: u64,
    /// The address for a start, its first byte first; else 0.
    pub address: [u8; 16],
}

// No step.
pub(crate) const NO_STEP: StepNumbers = StepNumbers {
    action: 0,
    family: 0,
    place: 0,
    tick: 0,
    pause_from: 0,
    pause_until: 0,
    address: [0; 16],
};

pub(crate) fn numbers_of(step: Step) -> StepNumbers
    ensures pauses { PausesAs step.pause result }
    ensures acts { ActsAs step.action result }
{
    let numbers = action_numbers(step.action);
    match step.pause {
        None => numbers,
        Some(pause) => StepNumbers {
            pause_from: pause.from,
            pause_until: pause.until,
            ..numbers
        },
    }
}

fn action_numbers(action: Action) -> StepNumbers
    ensures acts { ActsAs action result }
    ensures from { result.pause_from ≡ 0 }
    ensures until { result.pause_until ≡ 0 }
{
    match action {
        Action::Start(place, tick, ip) => StepNumbers {
            family: family_of(ip),
            address: bytes_of(ip),
            ..plain(START, place as u64, tick)
        },
        Action::Wait(tick) => plain(WAIT, 0, tick),
        Action::Won(place, tick) => plain(WON, place as u64, tick),
        Action::Exhausted(tick) => plain(EXHAUSTED, 0, tick),
        Action::Limit(tick) => plain(LIMIT, 0, tick),
    }
}

fn plain(action: u32, place: u64, tick: u64) -> StepNumbers
    ensures action { result.action ≡ action }
    ensures place { result.place ≡ place }
    ensures tick { result.tick ≡ tick }
    ensures none { StartsNone result }
    ensures from { result.pause_from ≡ 0 }
    ensures until { result.pause_until ≡ 0 }
{
    StepNumbers {
        action,
        place,
        tick,
        ..NO_STEP
    }
}

fn family_of(ip: Ip) -> u32
    ensures { result ≡ family_of ip }
{
    match ip {
        Ip::V4(_) => 4,
        Ip::V6(_) => 6,
    }
}

fn bytes_of(ip: Ip) -> [u8; 16]
    ensures { result ≡ bytes_of ip }
{
    match ip {
        Ip::V4(bits) => {
            let [first, second, third, fourth] = bits.to_be_bytes();
            [
                first, second, third, fourth, 0, 0, 0, 0, 0, 0, 0, 0, 0, 0, 0, 0,
            ]
        }
        Ip::V6(bits) => bits.to_be_bytes(),
    }
}
