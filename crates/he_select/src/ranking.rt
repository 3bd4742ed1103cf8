// The key of a destination (RFC 6724 section 6, RFC 8305 section 4).

ghost use Rattle.std.specs.Prelude.{◌≡◌, Option};
ghost use Rattle.std.specs.Cmp.{eq_by_cmp_equiv, partial_equiv_from_equiv, partial_order_from_total};
ghost use Rattle.std.specs.Ordering.{as_partial_cmp, eq_by_cmp};
ghost use Rattle.std.proofs.Common.{refl};
ghost use Rattle.he_select.specs.DestinationKeys.{key_of};
ghost use Rattle.he_select.specs.KeyOrder.{key_order, key_order_total, late_key_cmp};

use crate::attributes::DestinationAttributes;
use crate::known::rtt_or_unknown;
use std::cmp::{Ordering, Reverse};

/// One number for each rule, in the rules' order. The preferred destination has the least key.
#[derive(Clone, Copy)]
pub(crate) struct Key {
    pub(crate) unreachable: bool,
    pub(crate) other_scope: bool,
    pub(crate) deprecated: bool,
    pub(crate) other_label: bool,
    pub(crate) precedence: Reverse<u16>,
    pub(crate) tunnel: bool,
    pub(crate) scope: u8,
    pub(crate) rtt: u64,
    pub(crate) unused: bool,
    pub(crate) common: Reverse<u8>,
    pub(crate) place: usize,
}

// Most keys that are compared differ in one of the last rules. A test for equality of two fields costs less than a
// comparison of their order, so the derived order, which compares the order of each field, would take twice as long.
impl Ord for Key {
    ghost cmp = { key_order };

    ghost total = { key_order_total };

    ghost matches_partial_cmp = { λ a b. refl };

    ghost matches_eq = { λ a b. refl };

    #[inline(always)]
    #[tactic(auto, unfolding(crate::specs::KeyOrder::late_key_cmp))]
    fn cmp(&self, other: &Key) -> Ordering {
        if self.unreachable != other.unreachable {
            return self.unreachable.cmp(&other.unreachable);
        }
        if self.other_scope != other.other_scope {
            return self.other_scope.cmp(&other.other_scope);
        }
        if self.deprecated != other.deprecated {
            return self.deprecated.cmp(&other.deprecated);
        }
        if self.other_label != other.other_label {
            return self.other_label.cmp(&other.other_label);
        }
        self.late_cmp(other)
    }
}

impl PartialOrd for Key {
    ghost partial_cmp = { as_partial_cmp key_order };

    ghost laws = { partial_order_from_total key_order_total };

    fn partial_cmp(&self, other: &Key) -> Option<Ordering> {
        Some(self.cmp(other))
    }
}

impl PartialEq for Key {
    ghost eq = { eq_by_cmp key_order };

    ghost laws = { partial_equiv_from_equiv (eq_by_cmp_equiv key_order_total) };

    fn eq(&self, other: &Key) -> bool {
        self.cmp(other).is_eq()
    }
}

impl Eq for Key {
    ghost laws = { eq_by_cmp_equiv key_order_total };
}

impl Key {
    /// The order by the rules from 6 on.
    #[inline(always)]
    #[tactic(auto, unfolding(crate::specs::KeyOrder::late_key_cmp))]
    fn late_cmp(&self, other: &Key) -> Ordering
        ensures { result ≡ late_key_cmp self.now other.now }
    {
        if self.precedence != other.precedence {
            return self.precedence.cmp(&other.precedence);
        }
        if self.tunnel != other.tunnel {
            return self.tunnel.cmp(&other.tunnel);
        }
        if self.scope != other.scope {
            return self.scope.cmp(&other.scope);
        }
        if self.rtt != other.rtt {
            return self.rtt.cmp(&other.rtt);
        }
        if self.unused != other.unused {
            return self.unused.cmp(&other.unused);
        }
        if self.common != other.common {
            return self.common.cmp(&other.common);
        }
        self.place.cmp(&other.place)
    }
}

impl DestinationAttributes {
    /// The key of the destination at this place of the list.
    pub(crate) fn key(&self, place: usize) -> Key
        ensures { result ≡ key_of self.now place }
    {
        Key {
            // Rule 1: avoid unusable destinations.
            unreachable: self.source.is_none(),
            // Rule 2: prefer matching scope.
            other_scope: self.has_other_scope(),
            // Rule 3: avoid deprecated addresses. Rule 4 is left out: there are no home addresses here.
            deprecated: self.has_deprecated(),
            // Rule 5: prefer matching label.
            other_label: self.has_other_label(),
            // Rule 6: prefer higher precedence.
            precedence: Reverse(self.precedence),
            // Rule 7: prefer native transport.
            tunnel: self.tunnel,
            // Rule 8: prefer smaller scope.
            scope: self.scope,
            // Rule 8a: prefer the lower known round trip time.
            rtt: rtt_or_unknown(self.rtt),
            // Rule 8b: prefer the address used before.
            unused: !self.used,
            // Rule 9: use longest matching prefix. The families need no test: in an admitted table their precedences
            // differ.
            common: Reverse(self.common),
            // Rule 10: otherwise, leave the order unchanged.
            place,
        }
    }
}
