// Records the knowledge of addresses whose answer has come.

ghost use Rattle.std.specs.Prelude.{if◌then◌else◌, ◌≡◌, ◌∷◌, [], false, true, not, OnOk};
ghost use Rattle.std.specs.List.{list_all};
ghost use Rattle.he_select.specs.Selection.{known_of, known_rtt, known_used};
ghost use Rattle.he_timeline.specs.Building.{with_rtt};
ghost use Rattle.he_timeline.specs.Race.{has_ip, is_in_answer, is_told};
ghost use Rattle.he_timeline.specs.Timeline.{IsRace, are_distinct, is_duration};
ghost use Rattle.he_turns.specs.Heard.{counted_rtt, rtt_told, with_history, with_known};

use crate::recorder::only_memory;
use he_addr::{Ip, Memory};
use he_select::Known;
use he_timeline::TimelineBuilder;
use he_timeline::limits::{MAX_DURATION, MIN_DURATION};

// Records the knowledge of these addresses; none is recorded for them yet.
pub(crate) fn add_known(
    recorded: &mut TimelineBuilder,
    told: &[Known],
    addresses: &[Ip],
) -> Result<(), Memory>
    requires valid { IsRace recorded.old }
    requires answered { list_all (is_in_answer recorded.old) addresses.now ≡ true }
    requires distinct { are_distinct addresses.now ≡ true }
    requires no_rtt { list_all (λ ip. not (is_told ip recorded.old.history.rtts)) addresses.now ≡ true }
    requires unused { list_all (λ ip. not (has_ip ip recorded.old.history.used)) addresses.now ≡ true }
    ensures recorded { OnOk result (recorded.new ≡ with_known recorded.old told.now addresses.now) }
    ensures valid { OnOk result (IsRace recorded.new) }
{
    for ip in addresses {
        add_one(recorded, told, *ip)?;
    }
    Ok(())
}

// Records the knowledge of the address.
fn add_one(recorded: &mut TimelineBuilder, told: &[Known], ip: Ip) -> Result<(), Memory>
    requires valid { IsRace recorded.old }
    requires answered { is_in_answer recorded.old ip ≡ true }
    requires no_rtt { is_told ip recorded.old.history.rtts ≡ false }
    requires unused { has_ip ip recorded.old.history.used ≡ false }
    ensures recorded { OnOk result (recorded.new ≡ with_known recorded.old told.now (ip ∷ [])) }
    ensures valid { OnOk result (IsRace recorded.new) }
{
    let (rtt, used) = told_of(told, ip);
    add_rtt(recorded, ip, rtt)?;
    add_used(recorded, ip, used)
}

// The first entry's knowledge of the address: its round trip time in milliseconds, and whether it was used before.
fn told_of(told: &[Known], ip: Ip) -> (Option<u64>, bool)
    ensures rtt { result.0 ≡ known_rtt told.now ip }
    ensures used { result.1 ≡ known_used told.now ip }
{
    match find_known(told, ip) {
        Some(one) => (one.rtt, one.used),
        None => (None, false),
    }
}

fn find_known(told: &[Known], ip: Ip) -> Option<Known>
    ensures { result ≡ known_of told.now ip }
{
    for one in told {
        if one.ip == ip {
            return Some(*one);
        }
    }
    None
}

fn add_rtt(recorded: &mut TimelineBuilder, ip: Ip, rtt: Option<u64>) -> Result<(), Memory>
    requires valid { IsRace recorded.old }
    requires answered { is_in_answer recorded.old ip ≡ true }
    requires first { is_told ip recorded.old.history.rtts ≡ false }
    ensures recorded { OnOk result (recorded.new ≡ with_history recorded.old (rtt_told ip rtt) []) }
    ensures valid { OnOk result (IsRace recorded.new) }
{
    match rtt {
        Some(rtt) => push_rtt(recorded, ip, counted_rtt(rtt)),
        None => Ok(()),
    }
}

// Records the round trip time of the address; none is recorded for it yet.
fn push_rtt(recorded: &mut TimelineBuilder, ip: Ip, rtt: u64) -> Result<(), Memory>
    requires valid { IsRace recorded.old }
    requires lasts { is_duration rtt ≡ true }
    requires answered { is_in_answer recorded.old ip ≡ true }
    requires first { is_told ip recorded.old.history.rtts ≡ false }
    ensures recorded { OnOk result (recorded.new ≡ with_rtt recorded.old ip rtt) }
    ensures valid { OnOk result (IsRace recorded.new) }
{
    only_memory(recorded.rtt_of_known(ip, rtt))
}

// The round trip time, brought into the range of recorded ones.
fn counted_rtt(rtt: u64) -> u64
    ensures value { result ≡ counted_rtt rtt }
    ensures range { is_duration result ≡ true }
{
    rtt.min(MAX_DURATION).max(MIN_DURATION)
}

fn add_used(recorded: &mut TimelineBuilder, ip: Ip, used: bool) -> Result<(), Memory>
    requires valid { IsRace recorded.old }
    requires answered { is_in_answer recorded.old ip ≡ true }
    requires first { has_ip ip recorded.old.history.used ≡ false }
    ensures recorded { OnOk result (recorded.new ≡ with_history recorded.old [] (if used then ip ∷ [] else [])) }
    ensures valid { OnOk result (IsRace recorded.new) }
{
    if used {
        return only_memory(recorded.used_of_known(ip));
    }
    Ok(())
}
