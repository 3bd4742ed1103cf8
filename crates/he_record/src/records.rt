//! Records: the lines before a race.

ghost use Rattle.std.specs.Prelude.{◌≡◌, ◌⊎◌, ◌++◌, ◌∷◌, [], None, Some, map, option_map, MatchOption, IfErr, IfOk, OnErr, OnOk};
ghost use Rattle.he_words.specs.declared.fault.TextKind.TheVariants as kinds;
ghost use Rattle.he_record.specs.Adding.{add_fault};
ghost use Rattle.he_record.specs.Given.{address_line, at_given, attempt_given, end_given, from_given, is_untried_given, line_with, lookup_given, lookup_line, nat64_given, nat64_of, to_given, untried_given};
ghost use Rattle.he_record.specs.Left.{said_of, target_shown};
ghost use Rattle.he_record.specs.Text.{IsRecord};

use crate::checks::{repeats, word_fault};
use crate::line::RecordLine;
use crate::moment::Moment;
use crate::reasons::{AttemptReason, ClientEnd, LookupReason};
use crate::words::RecordWord;
use he_addr::{Family, Ip, Memory, Prefix};
use he_words::TextKind;
use std::alloc::{Allocator, Global};
use std::marker::Model;

/// The lines of a race's record, in order. The host of a line `record to` is borrowed: from the text that was read,
/// or from the caller that added the line.
#[derive(Drop)]
pub struct Record<'t, A: Allocator = Global> {
    lines: Vec<RecordLine<'t>, A>,
}

impl<'t, A: Allocator> Model for Record<'t, A> {
    ghost use Rattle.std.specs.Prelude.{List, map};
    ghost use Rattle.he_record.specs.Said.{Said};
    ghost use Rattle.he_record.specs.Left.{said_of};
    ghost use Rattle.he_record.specs.Text.{IsRecord};

    ghost Value = { List Said };

    ghost view = { λ r. map said_of r.lines.items };

    ghost invariant = { λ r. IsRecord (map said_of r.lines.items) };
}

impl<'t, A: Allocator> Record<'t, A> {
    /// A record without lines. It allocates nothing.
    pub fn none(alloc: A) -> Record<'t, A>
        ensures { result ≡ [] }
    {
        Record {
            lines: Vec::new(alloc),
        }
    }

    /// The lines, ordered by the groups of [`RecordWord`]: at most one line each of `at`, `to`, `from` and
    /// [`ClientEnd`], one look-up of each family, 8 NAT64 prefixes, 8 name servers, 512 attempts and 512 untried
    /// addresses. No address has two lines of the last two kinds.
    pub fn lines(&self) -> &[RecordLine<'t>]
        ensures value { map said_of result.now ≡ self.now }
        ensures valid { IsRecord self.now }
    {
        self.lines.as_slice()
    }

    /// Adds a line.
    ///
    /// # Errors
    ///
    /// The fault of the first check that fails, as for a line of a text: `Word` if a line of a later group comes
    /// before it; `TooMany` or `Repeated` if its group is full; `Word` or `Range` for an invalid value; `Repeated`
    /// for a second look-up of a family, or a second line about an address. `Memory` if an allocation failed. The
    /// record is unchanged then.
    pub fn add(&mut self, line: RecordLine<'t>) -> Result<(), TextKind>
        ensures ok { OnOk result
            ((self.new ≡ self.old ++ said_of line.entry ∷ []) × (add_fault self.old (said_of line.entry) ≡ None)) }
        ensures err { OnErr result (self.new ≡ self.old) }
        ensures fault { IfErr result
            (λ kind. (kind ≡ kinds.Memory) ⊎ (add_fault self.old (said_of line.entry) ≡ Some kind)) }
    {
        if let Some(kind) = word_fault(self.lines(), line.word()) {
            return Err(kind);
        }
        if let Some(kind) = line.value_fault() {
            return Err(kind);
        }
        if let Some(kind) = repeats(self.lines(), &line) {
            return Err(kind);
        }
        line.has_types();
        self.push(line)
    }

    // Adds a line that passes all checks.
    pub(crate) fn push(&mut self, line: RecordLine<'t>) -> Result<(), TextKind>
        requires { IsRecord (self.old ++ said_of line ∷ []) }
        ensures ok { OnOk result (self.new ≡ self.old ++ said_of line.entry ∷ []) }
        ensures err { OnErr result (self.new ≡ self.old) }
        ensures fault { IfErr result (λ kind. kind ≡ kinds.Memory) }
    {
        self.lines.push(line)?;
        Ok(())
    }

    /// The time of tick 0.
    pub fn at(&self) -> Option<Moment>
        ensures { result ≡ at_given self.now }
    {
        match find_word(self.lines(), RecordWord::At) {
            Some(RecordLine::At(moment)) => Some(moment),
            _ => None,
        }
    }

    /// The requested host and port.
    pub fn to(&self) -> Option<(&'t [u8], u16)>
        ensures { target_shown result ≡ to_given self.now }
    {
        match find_word(self.lines(), RecordWord::To) {
            Some(RecordLine::To(host, port)) => Some((host, port)),
            _ => None,
        }
    }

    /// The client's address, if the connection isn't this program's own.
    pub fn from(&self) -> Option<Ip>
        ensures { result ≡ from_given self.now }
    {
        match find_word(self.lines(), RecordWord::From) {
            Some(RecordLine::From(ip)) => Some(ip),
            _ => None,
        }
    }

    /// The reason that the family has no address.
    pub fn lookup(&self, family: Family) -> Option<LookupReason>
        ensures { result ≡ lookup_given family self.now }
    {
        match find_lookup(self.lines(), family) {
            Some(RecordLine::Lookup(_, reason)) => Some(reason),
            _ => None,
        }
    }

    /// The reason that the attempt at the address failed.
    pub fn attempt(&self, ip: Ip) -> Option<AttemptReason>
        ensures { result ≡ attempt_given ip self.now }
    {
        match find_address(self.lines(), ip) {
            Some(RecordLine::Attempt(_, reason)) => Some(reason),
            _ => None,
        }
    }

    /// Whether no client tried the address, so that its outcome is not known.
    pub fn is_untried(&self, ip: Ip) -> bool
        ensures { result ≡ is_untried_given ip self.now }
    {
        match find_address(self.lines(), ip) {
            Some(RecordLine::Untried(_)) => true,
            _ => false,
        }
    }

    /// The prefixes by which the network's NAT64 has the IPv4 addresses, in the order of their lines.
    ///
    /// # Errors
    ///
    /// `Memory` if an allocation failed.
    pub fn nat64<B: Allocator>(&self, alloc: B) -> Result<Vec<Prefix, B>, Memory>
        ensures { IfOk result (λ prefixes. prefixes.items ≡ nat64_given self.now) }
    {
        nat64_on(alloc, self.lines())
    }

    /// The addresses that no client tried, in the order of their lines.
    ///
    /// # Errors
    ///
    /// `Memory` if an allocation failed.
    pub fn untried<B: Allocator>(&self, alloc: B) -> Result<Vec<Ip, B>, Memory>
        ensures { IfOk result (λ ips. ips.items ≡ untried_given self.now) }
    {
        untried_on(alloc, self.lines())
    }

    /// The recorded client's own result.
    pub fn end(&self) -> Option<ClientEnd>
        ensures { result ≡ end_given self.now }
    {
        match find_word(self.lines(), RecordWord::Connected) {
            Some(RecordLine::End(end)) => Some(end),
            _ => None,
        }
    }
}

fn nat64_on<'t, B: Allocator>(alloc: B, lines: &[RecordLine<'t>]) -> Result<Vec<Prefix, B>, Memory>
    ensures { IfOk result (λ prefixes. prefixes.items ≡ nat64_given (map said_of lines.now)) }
{
    let mut prefixes = Vec::new(alloc);
    for line in lines {
        if let Some(prefix) = nat64_of(line) {
            prefixes.push(prefix)?;
        }
    }
    Ok(prefixes)
}

// The prefix of the line, if it has one.
fn nat64_of(line: &RecordLine<'_>) -> Option<Prefix>
    ensures { MatchOption result (nat64_of (said_of line.now) ≡ []) (λ prefix. nat64_of (said_of line.now) ≡ prefix ∷ []) }
{
    match line {
        RecordLine::Nat64(prefix) => prefix.prefix(),
        _ => None,
    }
}

fn untried_on<'t, B: Allocator>(alloc: B, lines: &[RecordLine<'t>]) -> Result<Vec<Ip, B>, Memory>
    ensures { IfOk result (λ ips. ips.items ≡ untried_given (map said_of lines.now)) }
{
    let mut ips = Vec::new(alloc);
    for line in lines {
        if let RecordLine::Untried(ip) = line {
            ips.push(*ip)?;
        }
    }
    Ok(ips)
}

// The line of the word's group.
fn find_word<'t>(lines: &[RecordLine<'t>], word: RecordWord) -> Option<RecordLine<'t>>
    ensures { option_map said_of result ≡ line_with word (map said_of lines.now) }
{
    lines
        .iter()
        .find(|line| line.group() == word.group())
        .copied()
}

// The line with the reason that the family has no address.
fn find_lookup<'t>(lines: &[RecordLine<'t>], family: Family) -> Option<RecordLine<'t>>
    ensures { option_map said_of result ≡ lookup_line family (map said_of lines.now) }
{
    lines.iter().find(|line| line.looks_up(family)).copied()
}

// The line of an attempt at the address, or that marks it as untried.
fn find_address<'t>(lines: &[RecordLine<'t>], ip: Ip) -> Option<RecordLine<'t>>
    ensures { option_map said_of result ≡ address_line ip (map said_of lines.now) }
{
    lines.iter().find(|line| line.tells_of(ip)).copied()
}
