// The source that the host uses for a destination (RFC 6724 section 5).

ghost use Rattle.std.specs.Prelude.{◌≡◌, [], None, map, option_map, IsTrue, IfSome};
ghost use Rattle.std.specs.List.{list_all};
ghost use Rattle.std.specs.Ordering.{is_lt};
ghost use Rattle.he_addr.specs.Prefix.{common_of};
ghost use Rattle.he_select.specs.HostFaults.{is_sound_source};
ghost use Rattle.he_select.specs.LabelledRules.{admits, destination_of, is_better_labelled, labelled_of, late_rules};
ghost use Rattle.he_select.specs.Rules.{first_of};
ghost use Rattle.he_select.specs.Selection.{by_appropriate_scope, selection_input, source_of};
ghost use Rattle.he_select.specs.LookUps.{rows_of};
ghost use Rattle.he_select.specs.Walking.{keep_fitting, walk_fitting};

use crate::host::{Host, Route, Source};
use crate::lookup::find_route;
use crate::policy::{Policy, Table};
use he_addr::ip::LINK_LOCAL_SCOPE;
use he_addr::{Ip, common_len};
use std::alloc::Allocator;

/// The attributes of a destination that the source rules compare.
#[derive(Clone, Copy)]
pub(crate) struct Destination {
    pub(crate) ip: Ip,
    pub(crate) scope: u8,
    pub(crate) label: u16,

    /// The interface of the destination's route.
    pub(crate) interface: u16,
}

/// A source with the attributes that the rules compare for every destination.
#[derive(Clone, Copy, Debug, PartialEq, Eq)]
pub struct LabelledSource {
    pub source: Source,
    pub scope: u8,
    pub label: u16,
}

impl LabelledSource {
    pub(crate) fn new(table: Table<'_>, source: &Source) -> LabelledSource
        ensures { result ≡ labelled_of (rows_of table.entry) source.now }
    {
        LabelledSource {
            source: *source,
            scope: source.ip.scope(),
            label: table.label(source.ip),
        }
    }
}

impl Destination {
    pub(crate) fn new(ip: Ip, label: u16, route: &Route) -> Destination
        ensures { result ≡ destination_of ip label route.now }
    {
        Destination {
            ip,
            scope: ip.scope(),
            label,
            interface: route.interface,
        }
    }

    /// The best source that may be used for this destination.
    pub(crate) fn best_of(&self, sources: &[LabelledSource]) -> Option<LabelledSource>
        requires { IsTrue (list_all (λ labelled. is_sound_source labelled.source) sources.now) }
        ensures best { result ≡ walk_fitting (admits self.now) (is_better_labelled self.now) None sources.now }
        ensures sound { IfSome result (λ labelled. IsTrue (is_sound_source labelled.source)) }
    {
        let mut best = None;
        for labelled in sources {
            best = self.keep(best, labelled);
        }
        best.copied()
    }

    /// The better of `best` and this source, if the source may be used at all.
    #[inline(always)]
    pub(crate) fn keep<'a>(
        &self,
        best: Option<&'a LabelledSource>,
        labelled: &'a LabelledSource,
    ) -> Option<&'a LabelledSource>
        requires sound { IsTrue (is_sound_source labelled.now.source) }
        requires best { IfSome best (λ kept. IsTrue (is_sound_source kept.now.source)) }
        ensures kept { option_map (λ kept. kept.now) result
            ≡ keep_fitting (admits self.now) (is_better_labelled self.now)
            (option_map (λ kept. kept.now) best.entry) labelled.now }
        ensures sound { IfSome result (λ kept. IsTrue (is_sound_source kept.now.source)) }
    {
        if !self.admits(labelled) {
            return best;
        }
        match best {
            Some(kept) if !self.is_better(labelled, kept) => best,
            _ => Some(labelled),
        }
    }

    /// Like `keep`, but copies the source that it keeps.
    fn keep_copy(
        &self,
        best: Option<LabelledSource>,
        labelled: LabelledSource,
    ) -> Option<LabelledSource>
        requires sound { IsTrue (is_sound_source labelled.source) }
        requires best { IfSome best (λ kept. IsTrue (is_sound_source kept.source)) }
        ensures kept { result ≡ keep_fitting (admits self.now) (is_better_labelled self.now) best labelled }
        ensures sound { IfSome result (λ kept. IsTrue (is_sound_source kept.source)) }
    {
        self.keep(best.as_ref(), &labelled).copied()
    }

    /// Whether the source may be used: it is of the destination's family, and for a link-local destination on the
    /// route's interface.
    #[inline(always)]
    fn admits(&self, labelled: &LabelledSource) -> bool
        ensures { result ≡ admits self.now labelled.now }
    {
        labelled.source.ip.family() == self.ip.family()
            && (self.scope != LINK_LOCAL_SCOPE || labelled.source.interface == self.interface)
    }

    /// Whether the first rule that distinguishes the two sources prefers `this` to `other`. The rules run one by one,
    /// since an early rule decides most pairs.
    #[inline(always)]
    #[tactic(auto, unfolding(crate::specs::LabelledRules::labelled_rules))]
    fn is_better(&self, this: &LabelledSource, other: &LabelledSource) -> bool
        requires this { IsTrue (is_sound_source this.now.source) }
        requires other { IsTrue (is_sound_source other.now.source) }
        ensures { result ≡ is_better_labelled self.now this.now other.now }
    {
        // Rule 1: prefer same address.
        let is_same = this.source.ip == self.ip;
        if is_same != (other.source.ip == self.ip) {
            return is_same;
        }
        // Rule 2: prefer appropriate scope.
        if this.scope != other.scope {
            return self.prefers_scope(this.scope, other.scope);
        }
        // Rule 3: avoid deprecated addresses. Rule 4 is left out: there are no home addresses here.
        if this.source.deprecated != other.source.deprecated {
            return other.source.deprecated;
        }
        self.is_better_late(this, other)
    }

    /// Like `is_better`, by the rules from 5 on.
    #[inline(always)]
    #[tactic(auto, unfolding(crate::specs::LabelledRules::late_rules))]
    fn is_better_late(&self, this: &LabelledSource, other: &LabelledSource) -> bool
        requires this { IsTrue (is_sound_source this.now.source) }
        requires other { IsTrue (is_sound_source other.now.source) }
        ensures { result ≡ is_lt (first_of (late_rules self.now) this.now other.now) }
    {
        // Rule 5: prefer outgoing interface. Rule 5.5 is left out: no host reports the next hop's prefixes.
        let is_outgoing = this.source.interface == self.interface;
        if is_outgoing != (other.source.interface == self.interface) {
            return is_outgoing;
        }
        // Rule 6: prefer matching label.
        let is_like = this.label == self.label;
        if is_like != (other.label == self.label) {
            return is_like;
        }
        // Rule 7: prefer temporary addresses.
        if this.source.temporary != other.source.temporary {
            return this.source.temporary;
        }
        // Rule 8: use longest matching prefix.
        self.common(this) > self.common(other)
    }

    /// Whether rule 2 prefers the first scope: the smaller one, unless it is smaller than the destination's; then the
    /// larger.
    #[inline(always)]
    fn prefers_scope(&self, this: u8, other: u8) -> bool
        ensures { result ≡ is_lt (by_appropriate_scope self.now.scope this other) }
    {
        if this < other {
            this >= self.scope
        } else {
            this > other && other < self.scope
        }
    }

    #[inline(always)]
    fn common(&self, labelled: &LabelledSource) -> u8
        requires { IsTrue (is_sound_source labelled.now.source) }
        ensures { result ≡ common_of labelled.now.source.ip labelled.now.source.plen self.now.ip }
    {
        common_len(labelled.source.ip, labelled.source.plen, self.ip)
    }
}

/// The best source that may be used for the destination, with the label from the table.
pub(crate) fn best_source(
    table: Table<'_>,
    sources: &[Source],
    destination: &Destination,
) -> Option<LabelledSource>
    requires { IsTrue (list_all is_sound_source sources.now) }
    ensures { result ≡ walk_fitting (admits destination.now) (is_better_labelled destination.now) None
        (map (labelled_of (rows_of table.entry)) sources.now) }
{
    let mut best = None;
    for source in sources {
        best = destination.keep_copy(best, LabelledSource::new(table, source));
    }
    best
}

impl<A: Allocator> Host<A> {
    /// The source that the host uses for a destination (RFC 6724 section 5): the best candidate by the source rules.
    /// `None` if the destination has no route or no candidate.
    #[tactic(auto, using(crate::proofs::Hosted::all_sound))]
    pub fn source<B: Allocator>(&self, policy: &Policy<B>, ip: Ip) -> Option<Ip>
        ensures { result ≡ option_map (λ source. source.ip) (source_of (selection_input policy.now self.now) ip) }
    {
        source_ip(policy.table(), self.sources(), self.routes(), ip)
    }
}

fn source_ip(table: Table<'_>, sources: &[Source], routes: &[Route], ip: Ip) -> Option<Ip>
    requires { IsTrue (list_all is_sound_source sources.now) }
    ensures { result ≡ option_map (λ source. source.ip) (source_of (record {
      rows = rows_of table.entry;
      sources = sources.now;
      routes = routes.now;
      known = [];
    }) ip) }
{
    let route = find_route(routes, ip)?;
    let destination = Destination::new(ip, table.label(ip), &route);
    best_source(table, sources, &destination).map(|best| best.source.ip)
}
