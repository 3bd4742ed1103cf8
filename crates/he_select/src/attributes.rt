// The attributes of an address that the destination rules compare (RFC 6724 section 6, RFC 8305 section 4).

ghost use Rattle.std.specs.Prelude.{◌≡◌, IsTrue, IfSome};
ghost use Rattle.std.specs.List.{list_all};
ghost use Rattle.std.specs.Option.{option_map_or};
ghost use Rattle.he_addr.specs.Ip.{InRange};
ghost use Rattle.he_addr.specs.Prefix.{common_of};
ghost use Rattle.he_select.specs.HostFaults.{is_sound_source};
ghost use Rattle.he_select.specs.Selection.{known_rtt, known_used};
ghost use Rattle.he_select.specs.Attributes.{attributes_from, sourced_from};
ghost use Rattle.he_select.specs.Attributes.{has_deprecated, has_other_label, has_other_scope};
ghost use Rattle.he_select.specs.LookUps.{rows_of};

use crate::host::Route;
use crate::known::{Known, find_known};
use crate::lookup::find_route;
use crate::policy::Table;
use crate::selection::{Destination, LabelledSource};
use crate::standard::Class;
use he_addr::{Ip, common_len};

/// The attributes of a destination that the rules compare.
#[derive(Clone, Copy, Debug, PartialEq, Eq)]
pub struct DestinationAttributes {
    /// The destination.
    pub ip: Ip,
    /// The source that the host uses for it; None if the host does not reach it.
    pub source: Option<LabelledSource>,
    pub scope: u8,
    pub label: u16,
    pub precedence: u16,
    /// Whether the destination is reached by encapsulation.
    pub tunnel: bool,
    /// The common prefix length of the destination and its source, in bits; 0 without a source.
    pub common: u8,
    /// The last round trip time of the destination in milliseconds, if one is known.
    pub rtt: Option<u64>,
    /// Whether the destination is known to have been used before.
    pub used: bool,
}

/// A destination, and the address of the source that the host uses for it; None if the host does not reach it.
#[derive(Clone, Copy, Debug, PartialEq, Eq)]
pub struct Sourced {
    /// The destination.
    pub ip: Ip,
    /// The source address that [`Host::source`] returns for it.
    pub source: Option<Ip>,
}

impl DestinationAttributes {
    /// The attributes of the destination, with the source chosen from `sources`.
    #[tactic(auto, unfolding(crate::specs::Attributes::chosen_over, crate::specs::Tables::precedence_of, crate::specs::Tables::label_of))]
    pub(crate) fn new(
        table: Table<'_>,
        routes: &[Route],
        sources: &[LabelledSource],
        known: &[Known],
        ip: Ip,
    ) -> DestinationAttributes
        requires { IsTrue (list_all (λ labelled. is_sound_source labelled.source) sources.now) }
        ensures attributes { result ≡ attributes_from (rows_of table.entry) routes.now sources.now known.now ip }
        ensures range { InRange ip }
    {
        let Class { precedence, label } = table.class(ip);
        let (tunnel, source) = match find_route(routes, ip) {
            Some(route) => (
                route.tunnel,
                Destination::new(ip, label, &route).best_of(sources),
            ),
            None => (false, None),
        };
        let (rtt, used) = history(known, ip);
        DestinationAttributes {
            ip,
            source,
            scope: ip.scope(),
            label,
            precedence,
            tunnel,
            common: common_with(source, ip),
            rtt,
            used,
        }
    }

    /// Whether its source has another scope.
    pub(crate) fn has_other_scope(&self) -> bool
        ensures { result ≡ has_other_scope self.now }
    {
        self.source
            .map_or(false, |source| source.scope != self.scope)
    }

    /// Whether its source is deprecated.
    pub(crate) fn has_deprecated(&self) -> bool
        ensures { result ≡ has_deprecated self.now }
    {
        self.source.map_or(false, |source| source.source.deprecated)
    }

    /// Whether its source has another label.
    pub(crate) fn has_other_label(&self) -> bool
        ensures { result ≡ has_other_label self.now }
    {
        self.source
            .map_or(false, |source| source.label != self.label)
    }

    /// The destination and the address of its source.
    pub fn sourced(&self) -> Sourced
        ensures { result ≡ sourced_from self.now }
    {
        Sourced {
            ip: self.ip,
            source: self.source.map(|labelled| labelled.source.ip),
        }
    }
}

/// The known round trip time of the address in milliseconds, and whether it was used before.
fn history(known: &[Known], ip: Ip) -> (Option<u64>, bool)
    ensures rtt { result.0 ≡ known_rtt known.now ip }
    ensures used { result.1 ≡ known_used known.now ip }
{
    match find_known(known, ip) {
        Some(one) => (one.rtt, one.used),
        None => (None, false),
    }
}

fn common_with(source: Option<LabelledSource>, ip: Ip) -> u8
    requires { IfSome source (λ labelled. IsTrue (is_sound_source labelled.source)) }
    ensures { result ≡ option_map_or (λ labelled. common_of labelled.source.ip labelled.source.plen ip) source 0 }
{
    match source {
        Some(labelled) => common_len(labelled.source.ip, labelled.source.plen, ip),
        None => 0,
    }
}
