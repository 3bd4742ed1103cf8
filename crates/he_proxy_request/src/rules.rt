//! The rules for what clients of a proxy may reach, by the words of the line.
ghost use Rattle.std.specs.Prelude.{◌≡◌, ◌∷◌, ◌++◌, ◌==◌, ℕ, [], IfErr, IfNone, IfOk, IfSome, List, OnOk, true};
ghost use Rattle.std.specs.List.{AllZip, list_all, list_any};
ghost use Rattle.clap.specs.Matches.{found_of};
ghost use Rattle.std.specs.Char.{is_ascii_alphabetic};
ghost use Rattle.he_options.specs.Words.{values_of};
ghost use Rattle.he_options.specs.declared.refusal.OptionFault.TheVariants as faults;
ghost use Rattle.he_proxy_request.specs.Refused.{IsRefusalOf};
ghost use Rattle.he_proxy_request.specs.Rules.{AreAdded, AreWords, AsksRules, IsRuleOf, place_in, places_of};
ghost use Rattle.he_proxy_request.specs.Rules.{HasPorts, LacksName, LacksRules, NamesAnyNetwork, NamesFront};
ghost use Rattle.he_proxy_request.specs.Rules.{NamesInBrackets, NamesNetwork, NamesNoRule, NamesNoTargets, NamesPorts};
ghost use Rattle.he_proxy_request.specs.Rules.{NamesRange, NamesRule, NamesTargets};
ghost use Rattle.he_proxy_request.specs.Rules.{are_apart, is_bare, is_name, is_name_sign};

use crate::listen::read_port;
use clap::ArgMatches;
use he_access::rules::{Network, Ports, Rule, Targets};
use he_addr::{Memory, read_ip, read_prefix};
use he_options::limits::{LEAST_PORT, MOST_PORT};
use he_options::{OptionFault, Refusal};
use std::alloc::Global;

/// A word of `--to` or `--not-to`.
#[derive(Clone, Copy)]
pub struct RuleWord<'a> {
    /// Its place among the words of the line.
    pub place: usize,
    /// Whether it is one of `--to`.
    pub allows: bool,
    pub text: &'a str,
}

const ALL_PORTS: Ports = Ports {
    first: LEAST_PORT as u16,
    last: MOST_PORT as u16,
};

// The rules of the line, in the order of their words.
pub(crate) fn rules_of<'a>(
    alloc: Global,
    matches: &ArgMatches<'a>,
) -> Result<Vec<Rule<'a>>, Refusal>
    ensures ok { IfOk result (λ rules. AsksRules (found_of matches.now) rules.items) }
    ensures err { IfErr result (LacksRules (found_of matches.now)) }
{
    match words_of(alloc, matches) {
        Ok(words) => rules_in(alloc, words.as_slice()),
        Err(_) => Err(Refusal::Memory),
    }
}

// The words of both options, in their order on the line.
fn words_of<'a>(alloc: Global, matches: &ArgMatches<'a>) -> Result<Vec<RuleWord<'a>>, Memory>
    ensures { IfOk result (λ words. AreWords (found_of matches.now) words.items) }
{
    let mut words = Vec::new(alloc);
    add_words(matches, "to", true, &mut words)?;
    add_words(matches, "not-to", false, &mut words)?;
    words.sort_by_key(|word| word.place)?;
    Ok(words)
}

fn add_words<'a>(
    matches: &ArgMatches<'a>,
    id: &str,
    allows: bool,
    words: &mut Vec<RuleWord<'a>>,
) -> Result<(), Memory>
    ensures { OnOk result (AreAdded allows (places_of (found_of matches.now) id.now)
        (values_of (found_of matches.now) id.now) words.old.items words.new.items) }
{
    let texts = matches.get_strs(id).unwrap_or(&[]);
    let places = matches.indices_of(id).unwrap_or(&[]);
    for (i, text) in texts.iter().enumerate() {
        words.push(RuleWord {
            place: place_in(places, i),
            allows,
            text,
        })?;
    }
    Ok(())
}

// The place of an option's word. A word for which clap has no place is the last one.
fn place_in(places: &[usize], i: usize) -> usize
    ensures { result ≡ place_in places.now i }
{
    places.get(i).copied().unwrap_or(usize::MAX)
}

// The rules of these words, one for each. It refuses only a word whose text names no rule.
fn rules_in<'a>(alloc: Global, words: &[RuleWord<'a>]) -> Result<Vec<Rule<'a>>, Refusal>
    ensures ok { IfOk result (λ rules. AllZip IsRuleOf words.now rules.items) }
    ensures err { IfErr result (IsRefusalOf (λ word. NamesNoRule word.text.now) faults.Rule words.now) }
{
    let mut rules = Vec::new(alloc);
    for word in words {
        let Some((targets, ports)) = read_rule(word.text) else {
            return Err(Refusal::Option(OptionFault::Rule));
        };
        let rule = Rule {
            allows: word.allows,
            targets,
            ports,
        };
        match rules.push(rule) {
            Ok(()) => {}
            Err(_) => return Err(Refusal::Memory),
        }
    }
    Ok(rules)
}

// The targets and the ports of a rule. None if its text names none.
fn read_rule(text: &str) -> Option<(Targets<'_>, Ports)>
    ensures some { IfSome result (λ named. NamesRule text.now named.0 named.1) }
    ensures none { IfNone result (NamesNoRule text.now) }
{
    match read_targets(text) {
        Some(targets) => Some((targets, ALL_PORTS)),
        None => read_with_ports(text),
    }
}

// The targets before a colon and ports, and these ports.
fn read_with_ports(text: &str) -> Option<(Targets<'_>, Ports)>
    ensures some { IfSome result (λ named. HasPorts text.now named.0 named.1) }
    ensures none { IfNone result ((targets : Targets) (ports : Ports) → HasPorts text.now targets ports → ⊥) }
{
    let (front, digits) = text.rsplit_once(':')?;
    let targets = read_front(front)?;
    let ports = read_ports(digits)?;
    Some((targets, ports))
}

// The targets before ports. An IPv6 network needs brackets there.
fn read_front(text: &str) -> Option<Targets<'_>>
    ensures some { IfSome result (NamesFront text.now) }
    ensures none { IfNone result ((targets : Targets) → NamesFront text.now targets → ⊥) }
{
    if text.is_empty() {
        return Some(Targets::All);
    }
    if is_bare(text.as_bytes()) {
        return None;
    }
    read_targets(text)
}

// Whether it has a colon and no bracket at its front.
fn is_bare(text: &[u8]) -> bool
    ensures { result ≡ is_bare text.now }
{
    has_colon(text) && !text.starts_with(b"[")
}

fn has_colon(text: &[u8]) -> bool
    ensures { result ≡ list_any (λ byte. byte == 58) text.now }
{
    text.iter().any(|byte| *byte == b':')
}

// The targets of a text without ports.
fn read_targets(text: &str) -> Option<Targets<'_>>
    ensures some { IfSome result (NamesTargets text.now) }
    ensures none { IfNone result (NamesNoTargets text.now) }
{
    match read_any_network(text) {
        Some(network) => Some(Targets::Network(network)),
        None => read_named(text),
    }
}

// The network of a text, with brackets or without.
fn read_any_network(text: &str) -> Option<Network>
    ensures some { IfSome result (NamesAnyNetwork text.now) }
    ensures none { IfNone result ((network : Network) → NamesAnyNetwork text.now network → ⊥) }
{
    match read_network(text.as_bytes()) {
        Some(network) => Some(network),
        None => read_bracketed(text),
    }
}

// The network of a text in brackets.
fn read_bracketed(text: &str) -> Option<Network>
    ensures some { IfSome result (NamesInBrackets text.now) }
    ensures none { IfNone result ((network : Network) → NamesInBrackets text.now network → ⊥) }
{
    match inner(text) {
        Some(inner) => read_network(inner.as_bytes()),
        None => None,
    }
}

// The text between brackets.
fn inner(text: &str) -> Option<&str>
    ensures some { IfSome result (λ inner. text.now ≡ 91 ∷ (inner.now ++ 93 ∷ [])) }
    ensures none { IfNone result ((inner : List ℕ) → text.now ≡ 91 ∷ (inner ++ 93 ∷ []) → ⊥) }
{
    match text.strip_prefix('[') {
        Some(rest) => rest.strip_suffix(']'),
        None => None,
    }
}

// The targets of a name.
fn read_named(text: &str) -> Option<Targets<'_>>
    ensures some { IfSome result (NamesTargets text.now) }
    ensures none { IfNone result (LacksName text.now) }
{
    match text.strip_prefix('.') {
        Some(name) => {
            if is_name(name.as_bytes()) {
                Some(Targets::Domain(name))
            } else {
                None
            }
        }
        None => {
            if is_name(text.as_bytes()) {
                Some(Targets::Host(text))
            } else {
                None
            }
        }
    }
}

// The network of a prefix or of one address.
fn read_network(text: &[u8]) -> Option<Network>
    ensures some { IfSome result (NamesNetwork text.now) }
    ensures none { IfNone result ((network : Network) → NamesNetwork text.now network → ⊥) }
{
    match read_prefix(text) {
        Some(prefix) => Some(Network {
            bits: prefix.bits(),
            len: prefix.len(),
        }),
        None => Some(Network {
            bits: read_ip(text)?.mapped(),
            len: ADDRESS_BITS,
        }),
    }
}

const ADDRESS_BITS: u8 = 128;

// The ports of a text: one, or the first and the last.
fn read_ports(text: &str) -> Option<Ports>
    ensures some { IfSome result (NamesPorts text.now) }
    ensures none { IfNone result ((ports : Ports) → NamesPorts text.now ports → ⊥) }
{
    match read_port(text.as_bytes()) {
        Some(port) => Some(Ports {
            first: port,
            last: port,
        }),
        None => read_range(text),
    }
}

// The first and the last of some ports, joined by a hyphen.
fn read_range(text: &str) -> Option<Ports>
    ensures some { IfSome result (NamesRange text.now) }
    ensures none { IfNone result ((ports : Ports) → NamesRange text.now ports → ⊥) }
{
    let (front, back) = text.split_once('-')?;
    let first = read_port(front.as_bytes())?;
    let last = read_port(back.as_bytes())?;
    if first <= last {
        Some(Ports { first, last })
    } else {
        None
    }
}

// Whether it is the name of a host. A text without a letter is no name, since it may be meant as an address.
fn is_name(text: &[u8]) -> bool
    ensures { result ≡ is_name text.now }
{
    are_signs(text) && has_letter(text) && are_apart(text)
}

fn are_signs(text: &[u8]) -> bool
    ensures { result ≡ list_all is_name_sign text.now }
{
    text.iter().all(|byte| is_name_sign(*byte))
}

fn is_name_sign(byte: u8) -> bool
    ensures { result ≡ is_name_sign byte }
{
    byte.is_ascii_alphanumeric() || byte == b'-' || byte == b'_' || byte == DOT
}

fn has_letter(text: &[u8]) -> bool
    ensures { result ≡ list_any is_ascii_alphabetic text.now }
{
    text.iter().any(|byte| byte.is_ascii_alphabetic())
}

// Whether no label of the name is empty; a dot may end it.
fn are_apart(text: &[u8]) -> bool
    ensures { result ≡ are_apart true text.now }
{
    let mut is_behind = true;
    for byte in text {
        if is_behind && *byte == DOT {
            return false;
        }
        is_behind = *byte == DOT;
    }
    true
}

const DOT: u8 = b'.';
