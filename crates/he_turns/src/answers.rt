// The source of a race's answers while it runs.

ghost use Rattle.std.specs.Prelude.{◌≡◌, ◌≤◌, [], ℕ, Option, None, Some, map, ◌⊎◌, IfOk};
ghost use Rattle.futures.specs.Poll.{IfReady, OnPending};
ghost use Rattle.futures.specs.Task.{Covers, Keeps};
ghost use Rattle.he_addr.specs.declared.ip.Family.{Family};
ghost use Rattle.he_select.specs.Selection.{nothing_known};
ghost use Rattle.he_turns.specs.declared.limits.TheConstants.{MAX_POLL_TICK};
ghost use Rattle.he_turns.specs.Heard.{AnswerLists, IsSilent, lists_of};

use crate::limits::MAX_POLL_TICK;
use futures::task::{Context, Poll};
use he_addr::{Family, Ip, Memory};
use he_select::{Known, Route, Source};
use std::alloc::Global;

/// A source's answer for a family.
#[derive(Drop)]
pub struct Answer {
    /// The addresses, of which there may be none, each with the client's knowledge of it from earlier connections, if
    /// any (RFC 8305 section 4).
    pub known: Vec<Known>,
    /// Source addresses of this machine from which the addresses are reached (RFC 6724 section 5).
    pub sources: Vec<Source>,
    /// Routes to the addresses.
    pub routes: Vec<Route>,
}

impl Answer {
    /// An answer with these addresses and without sources and routes of the machine. It allocates nothing.
    pub fn without_lines(known: Vec<Known>) -> Answer
        ensures { lists_of result ≡ record { known = known.items; sources = []; routes = [] } }
    {
        let alloc = *known.allocator();
        Answer {
            known,
            sources: Vec::new(alloc),
            routes: Vec::new(alloc),
        }
    }
}

/// The source of a race's answers while it runs, such as a resolver that was asked for AAAA and A at once (RFC 8305
/// section 3). Each turn polls it once for each family without an answer, IPv6 first, at the turn's tick.
///
/// A pending poll guarantees one of two: it has registered in `cx` at each source that it waits for (`needs`), so
/// that the task is polled again once something happens (with no `needs` stated, it has registered or yielded there);
/// or no later poll for this family returns an answer. A poll for one family keeps the other one registered too, for
/// all that its answer then waits for.
pub trait AnswerSource: Drop {
    // Holds for each source that it waits for, to answer for the family.
    ghost needs: { Self → Family → ℕ → Type 0 } = { λ _ _ _. ⊥ };

    // The answers that a poll for a family at a tick may give, and the state that it leaves.
    ghost hears: { Self → Family → ℕ → Option AnswerLists → Self → Type 0 };

    /// Polls for the family's addresses at the tick `now`, at most `MAX_POLL_TICK`. It isn't polled again for a
    /// family that it has answered.
    ///
    /// The race takes the addresses of the family from the answer, each once and at most the first `MAX_ADDRESSES`,
    /// and for each of these the first entry's knowledge. A round trip time of 0 ms counts as 1, and one above
    /// 3,600,000 as 3,600,000.
    ///
    /// The answer's sources and routes are added to the race's host, after its own: the sound sources of the family
    /// whose addresses it doesn't have, each address once, and the sound routes that serve the family (those inside
    /// `::ffff:0:0/96` IPv4, all others IPv6) whose prefixes it doesn't have, each prefix once, up to the maximum of
    /// a host. All others are left out.
    fn poll_answer(&mut self, family: Family, now: u64, cx: &mut Context<'_>) -> Poll<Answer>
        requires in_time { now ≤ MAX_POLL_TICK }
        ensures pending { OnPending result (hears self.old family now None self.new) }
        ensures ready { IfReady result (λ answer. hears self.old family now (Some (lists_of answer)) self.new) }
        ensures waits { OnPending result (Covers cx.new (needs self.new family) ⊎ IsSilent hears self.new family) }
        ensures other { (other : Family) → (other ≡ family → ⊥) → Covers cx.old (needs self.old other)
            → Covers cx.new (needs self.new other) }
        ensures kept { Keeps cx.old cx.new };
}

/// The addresses, each without any knowledge of it, as a source without a history has them.
pub fn nothing_known(alloc: Global, addresses: &[Ip]) -> Result<Vec<Known>, Memory>
    ensures { IfOk result (λ known. known.items ≡ map nothing_known addresses.now) }
{
    let mut known = Vec::new(alloc);
    for ip in addresses {
        known.push(Known::nothing(*ip))?;
    }
    Ok(known)
}

// The source of a race whose answers are all known: it never answers.
#[derive(Drop)]
pub(crate) struct NoAnswers;

impl AnswerSource for NoAnswers {
    ghost use Rattle.std.specs.Prelude.{◌≡◌, None};

    ghost hears = { λ s family now told left. (told ≡ None) × (left ≡ s) };

    fn poll_answer(&mut self, _family: Family, _now: u64, _cx: &mut Context<'_>) -> Poll<Answer> {
        Poll::Pending
    }
}
