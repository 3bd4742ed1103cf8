// Host names.

ghost use Rattle.std.specs.Prelude.{◌≡◌, ◌⊎◌, ◌+◌, ◌<◌, ◌≤◌, ◌==◌, ◌∷◌, ◌++◌, Err, IfErr, IfNone, IfOk, MatchResult, None, Ok, Some, drop, length, position};
ghost use Rattle.std.specs.List.{count_by};
ghost use Rattle.he_dns.specs.declared.fault.NameFault.TheVariants as faults;
ghost use Rattle.he_dns.specs.Reading.{labels_fault, label_fault};
ghost use Rattle.he_dns.specs.Texts.{HasNameFault, SpellsName, body_of, is_absolute, labels_octets, labels_of};

use crate::fault::NameFault;
use crate::limits::{MAX_LABEL, MAX_NAME};
use std::alloc::{Allocator, Global};
use std::marker::Model;

const DOT: u8 = b'.';

/// A host name: labels of 1 to 63 octets each, and at most 255 octets in a message (RFC 1035 section 2.3.4). Names
/// are compared without regard to the case of ASCII letters (RFC 4343).
#[derive(Drop)]
pub struct Name<A: Allocator = Global> {
    // Each label after an octet with its length, as in a message, without the root's empty label at the end.
    octets: Vec<u8, A>,
    dots: usize,
    absolute: bool,
}

impl<A: Allocator> Model for Name<A> {
    ghost use Rattle.he_dns.specs.Texts.{HostName};

    ghost Value = { HostName };

    ghost view = { λ n. record { octets = n.octets.items; dots = n.dots; is_absolute = n.absolute } };
}

// Whether the last byte is a dot.
fn is_absolute(text: &[u8]) -> bool
    ensures { result ≡ is_absolute text.now }
{
    !text.is_empty() && text[text.len() - 1] == DOT
}

// The text without a final dot.
fn body_of(text: &[u8]) -> &[u8]
    ensures { result.now ≡ body_of text.now }
{
    if is_absolute(text) {
        &text[..text.len() - 1]
    } else {
        text
    }
}

fn count_dots(text: &[u8]) -> usize
    ensures { result ≡ count_by (λ b. b == 46) text.now }
{
    text.iter().filter(|byte| **byte == DOT).count()
}

// The place of the first dot.
fn first_dot(text: &[u8]) -> Option<usize>
    ensures { result ≡ position (λ b. b == 46) text.now }
{
    text.iter().position(|byte| *byte == DOT)
}

// The fault of a label, if it has one.
fn label_fault(label: &[u8]) -> Option<NameFault>
    ensures fault { result ≡ label_fault label.now }
    ensures short { IfNone result (length label.now ≤ MAX_LABEL) }
{
    if label.is_empty() {
        Some(NameFault::EmptyLabel)
    } else if label.len() > MAX_LABEL {
        Some(NameFault::LongLabel)
    } else {
        None
    }
}

// Appends a label after its length.
fn append_label<A: Allocator + Copy>(octets: &mut Vec<u8, A>, label: &[u8]) -> Result<(), NameFault>
    ensures ok { IfOk result (λ _. (label_fault label.now ≡ None)
        × (octets.new.items ≡ octets.old.items ++ length label.now ∷ label.now)) }
    ensures err { IfErr result (λ fault. (fault ≡ faults.Memory) ⊎ (label_fault label.now ≡ Some fault)) }
{
    match label_fault(label) {
        Some(fault) => Err(fault),
        None => {
            octets.push(label.len() as u8)?;
            octets.extend_from_slice(label)?;
            Ok(())
        }
    }
}

// The text after a place.
fn behind(text: &[u8], at: usize) -> &[u8]
    requires { at < length text.now }
    ensures { result.now ≡ drop (at + 1) text.now }
{
    &text[at + 1..]
}

// The octets of the labels between the dots.
#[tactic(auto, using(crate::proofs::Labels::left_all, crate::proofs::Labels::left_more, crate::proofs::Labels::wrong_more, crate::proofs::Labels::left_last, crate::proofs::Labels::wrong_last))]
fn read_labels<A: Allocator + Copy>(alloc: A, body: &[u8]) -> Result<Vec<u8, A>, NameFault>
    ensures ok { IfOk result (λ octets. (labels_fault (labels_of body.now) ≡ None)
        × (octets.items ≡ labels_octets (labels_of body.now))) }
    ensures err { IfErr result (λ fault. (fault ≡ faults.Memory) ⊎ (labels_fault (labels_of body.now) ≡ Some fault)) }
{
    let mut octets = Vec::new(alloc);
    let mut rest = body;
    while let Some(at) = first_dot(rest) {
        append_label(&mut octets, &rest[..at])?;
        rest = behind(rest, at);
    }
    append_label(&mut octets, rest)?;
    Ok(octets)
}

impl<A: Allocator + Copy> Name<A> {
    /// Reads a name: labels separated by dots, with or without a final dot.
    ///
    /// # Errors
    ///
    /// `EmptyLabel` or `LongLabel` for the first faulty label; otherwise `LongName` if the name has more than 255
    /// octets in a message; or `Memory`.
    #[tactic(auto, using(crate::proofs::Labels::all_labels, crate::proofs::Labels::told_wrong))]
    pub fn read(alloc: A, text: &[u8]) -> Result<Name<A>, NameFault>
        ensures ok { IfOk result (λ name. SpellsName text.now name) }
        ensures err { IfErr result (λ fault. HasNameFault text.now fault) }
    {
        let octets = read_labels(alloc, body_of(text))?;
        if octets.len() > MAX_NAME {
            return Err(NameFault::LongName);
        }
        Ok(Name {
            octets,
            dots: count_dots(text),
            absolute: is_absolute(text),
        })
    }

    /// The name followed by a suffix, as with a resolver's `search` list.
    ///
    /// # Errors
    ///
    /// `LongName` if both together have more than 255 octets, or `Memory`.
    pub fn with_suffix<B: Allocator>(
        &self,
        alloc: A,
        suffix: &Name<B>,
    ) -> Result<Name<A>, NameFault>
        ensures ok { IfOk result (λ name. (name.octets ≡ self.now.octets ++ suffix.now.octets)
            × (name.is_absolute ≡ suffix.now.is_absolute)) }
        ensures err { IfErr result (λ fault. (fault ≡ faults.Memory) ⊎ ((fault ≡ faults.LongName)
            × (MAX_NAME < length self.now.octets + length suffix.now.octets))) }
    {
        if self.octets.len() > MAX_NAME || suffix.octets.len() > MAX_NAME - self.octets.len() {
            return Err(NameFault::LongName);
        }
        let mut octets = Vec::from_slice(alloc, &self.octets)?;
        octets.extend_from_slice(&suffix.octets)?;
        Ok(Name {
            octets,
            dots: self.dots.saturating_add(suffix.dots).saturating_add(1),
            absolute: suffix.absolute,
        })
    }
}

impl<A: Allocator> Name<A> {
    /// Whether the text ended in a dot: such a name takes no suffix.
    pub fn is_absolute(&self) -> bool
        ensures { result ≡ self.now.is_absolute }
    {
        self.absolute
    }

    /// The number of dots of the text, including a final one.
    pub fn dots(&self) -> usize
        ensures { result ≡ self.now.dots }
    {
        self.dots
    }

    // The octets without the root's empty label.
    pub(crate) fn octets(&self) -> &[u8]
        ensures { result.now ≡ self.now.octets }
    {
        &self.octets
    }
}
