// The rule that decides between two destinations (RFC 6724 section 6, RFC 8305 section 4).

ghost use Rattle.std.specs.Prelude.{◌≡◌};
ghost use Rattle.he_addr.specs.declared.ip.Ip.{Ip};
ghost use Rattle.he_select.specs.Deciding.{deciding_rule};
ghost use Rattle.he_select.specs.Selection.{SelectionInput};
ghost use Rattle.he_select.specs.Attributes.{attributes_of, late_rule_between, rule_between};
ghost use Rattle.he_select.specs.Attributes.{has_deprecated, has_other_label, has_other_scope};

use crate::attributes::DestinationAttributes;
use crate::known::rtt_or_unknown;

/// A rule of destination address selection (RFC 6724 section 6, with rules 8a and 8b of RFC 8305 section 4). Rule 4
/// is left out: there are no home addresses here.
#[derive(Clone, Copy, Debug, PartialEq, Eq)]
pub enum DestinationRule {
    /// Rule 1.
    AvoidUnusable,
    /// Rule 2.
    MatchingScope,
    /// Rule 3.
    AvoidDeprecated,
    /// Rule 5.
    MatchingLabel,
    /// Rule 6.
    HigherPrecedence,
    /// Rule 7.
    NativeTransport,
    /// Rule 8.
    SmallerScope,
    /// Rule 8a: the lower known round trip time. An unknown one counts as greater than every known one.
    LowerRoundTripTime,
    /// Rule 8b: the address used before.
    UsedBefore,
    /// Rule 9.
    LongestPrefix,
    /// Rule 10.
    Unchanged,
}

impl DestinationRule {
    /// The first rule that distinguishes the two destinations, in the order of the rules.
    pub fn between(
        earlier: &DestinationAttributes,
        later: &DestinationAttributes,
    ) -> DestinationRule
        ensures rule { result ≡ rule_between earlier.now later.now }
        ensures deciding { (input : SelectionInput) (a b : Ip)
            → earlier.now ≡ attributes_of input a → later.now ≡ attributes_of input b
            → result ≡ deciding_rule input a b }
    {
        DestinationRule::first_apart(earlier, later)
    }

    #[tactic(auto, unfolding(crate::specs::Attributes::late_rule_between))]
    fn first_apart(
        earlier: &DestinationAttributes,
        later: &DestinationAttributes,
    ) -> DestinationRule
        ensures { result ≡ rule_between earlier.now later.now }
    {
        if earlier.source.is_none() != later.source.is_none() {
            return DestinationRule::AvoidUnusable;
        }
        if earlier.has_other_scope() != later.has_other_scope() {
            return DestinationRule::MatchingScope;
        }
        if earlier.has_deprecated() != later.has_deprecated() {
            return DestinationRule::AvoidDeprecated;
        }
        if earlier.has_other_label() != later.has_other_label() {
            return DestinationRule::MatchingLabel;
        }
        DestinationRule::late_between(earlier, later)
    }

    // The rules from 6 on.
    #[tactic(auto, unfolding(crate::specs::Attributes::late_rule_between))]
    fn late_between(
        earlier: &DestinationAttributes,
        later: &DestinationAttributes,
    ) -> DestinationRule
        ensures { result ≡ late_rule_between earlier.now later.now }
    {
        if earlier.precedence != later.precedence {
            return DestinationRule::HigherPrecedence;
        }
        if earlier.tunnel != later.tunnel {
            return DestinationRule::NativeTransport;
        }
        if earlier.scope != later.scope {
            return DestinationRule::SmallerScope;
        }
        if rtt_or_unknown(earlier.rtt) != rtt_or_unknown(later.rtt) {
            return DestinationRule::LowerRoundTripTime;
        }
        if earlier.used != later.used {
            return DestinationRule::UsedBefore;
        }
        if earlier.ip.family() == later.ip.family() && earlier.common != later.common {
            return DestinationRule::LongestPrefix;
        }
        DestinationRule::Unchanged
    }
}
