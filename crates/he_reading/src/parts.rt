// Lines and tokens: the parts of a text between two separators.

ghost use Rattle.std.specs.Prelude.{◌≡◌, ◌≤◌, ◌<◌, ◌+◌, ◌^◌, ◌==◌, [], ◌∷◌, ◌++◌, length, take, MatchOption, IfSome, Ok, position};
ghost use Rattle.std.specs.List.{count_by, position_or_len};
ghost use Rattle.he_reading.specs.Forms.{word_of};
ghost use Rattle.he_reading.specs.Left.{line_bytes, tokens_left, lowest_bit};
ghost use Rattle.he_reading.specs.Parts.{pieces_of, tokens_of};
ghost use Rattle.he_words.specs.Words.{spelling_of};

use he_words::{TOKEN_END, Word};
use memchr::{memchr, memchr_iter};
use std::simd::prelude::*;

// The bytes of a vector. Most lines and nearly all tokens end within this many bytes, which are compared at once: a
// call of `memchr` takes four times as long there, and a loop over the bytes is slower still.
const LANES: usize = 32;

// The place of the lowest bit that is set; LANES if none is.
#[inline(always)]
fn lowest_bit(bits: u64) -> usize
    ensures { result ≡ lowest_bit bits }
{
    if bits == 0 {
        LANES
    } else {
        bits.trailing_zeros() as usize
    }
}

// The number of bytes before the first mark, among the first LANES bytes; LANES if none of them is the mark.
#[inline(always)]
fn bytes_before(text: &[u8], mark: u8) -> usize
    requires { LANES ≤ length text.now }
    ensures { result ≡ position_or_len (λ b. b == mark) (take LANES text.now) }
{
    let marks = u8x32::from_slice(text).simd_eq(u8x32::splat(mark));
    lowest_bit(marks.to_bitmask())
}

// The place of the first mark among the first `len` bytes. It may look at later bytes if that takes no longer.
#[inline(always)]
pub(crate) fn find(text: &[u8], len: usize, mark: u8) -> Option<usize>
    requires { len ≤ length text.now }
    ensures { result ≡ position (λ b. b == mark) (take len text.now) }
{
    if LANES <= text.len() {
        let near = bytes_before(text, mark);
        if len <= near {
            return None;
        }
        if near < LANES {
            return Some(near);
        }
    }
    memchr(mark, &text[..len])
}

// A line, with all the text after it.
#[derive(Clone, Copy)]
pub(crate) struct TextLine<'t> {
    text: &'t [u8],
    // The number of bytes of the text after the line, including its line end.
    behind: usize,
}

impl<'t> TextLine<'t> {
    // The first `len` bytes of a text.
    #[inline(always)]
    pub(crate) fn new(text: &'t [u8], len: usize) -> TextLine<'t>
        requires { len ≤ length text.now }
        ensures { line_bytes result ≡ take len text.now }
    {
        TextLine {
            text,
            behind: text.len() - len,
        }
    }

    // The line's bytes.
    #[inline(always)]
    pub(crate) fn bytes(self) -> &'t [u8]
        ensures { result.now ≡ line_bytes self.entry }
    {
        &self.text[..self.text.len().saturating_sub(self.behind)]
    }

    // The line's tokens.
    #[inline(always)]
    pub(crate) fn tokens(self) -> Tokens<'t>
        ensures { tokens_left result ≡ tokens_of (line_bytes self.entry) }
    {
        Tokens {
            rest: Some(self.text),
            behind: self.behind,
        }
    }

    // The tokens after this word, if the line begins with it and a space.
    #[inline(always)]
    pub(crate) fn behind_word(self, word: Word, spelled: &[u8]) -> Option<(Word, Tokens<'t>)>
        requires { spelled.now ≡ spelling_of word ++ 32 ∷ [] }
        ensures { IfSome result (λ x. word_of (tokens_of (line_bytes self.entry)) ≡ Ok (x.0, tokens_left x.1)) }
    {
        if !self.bytes().starts_with(spelled) {
            return None;
        }
        let tokens = Tokens {
            rest: Some(&self.text[spelled.len()..]),
            behind: self.behind,
        };
        Some((word, tokens))
    }

    // The word with no tokens, if the line is this word alone.
    #[inline(always)]
    pub(crate) fn only_word(self, word: Word, spelled: &[u8]) -> Option<(Word, Tokens<'t>)>
        requires { spelled.now ≡ spelling_of word }
        ensures { IfSome result (λ x. word_of (tokens_of (line_bytes self.entry)) ≡ Ok (x.0, tokens_left x.1)) }
    {
        if self.bytes() != spelled {
            return None;
        }
        let none = Tokens {
            rest: None,
            behind: self.behind,
        };
        Some((word, none))
    }
}

// The tokens of a line that are yet to be read.
#[derive(Clone, Copy)]
pub(crate) struct Tokens<'a> {
    // The text from the first of them to its end.
    rest: Option<&'a [u8]>,
    // The number of its bytes after the line.
    behind: usize,
}

impl<'a> Tokens<'a> {
    #[inline(always)]
    pub(crate) fn next(&mut self) -> Option<&'a [u8]>
        ensures token { MatchOption result (tokens_left self.old ≡ [])
            (λ token. tokens_left self.old ≡ token.now ∷ tokens_left self.new) }
    {
        let rest = self.rest?;
        let len = rest.len().saturating_sub(self.behind);
        match find(rest, len, TOKEN_END) {
            Some(at) => {
                self.rest = Some(&rest[at + 1..]);
                Some(&rest[..at])
            }
            None => {
                self.rest = None;
                Some(&rest[..len])
            }
        }
    }

    // The two tokens, if there are exactly two.
    #[inline(always)]
    pub(crate) fn two(self) -> Option<(&'a [u8], &'a [u8])>
        ensures { MatchOption result (length (tokens_left self.entry) ≡ 2 → ⊥)
            (λ x. tokens_left self.entry ≡ x.0.now ∷ x.1.now ∷ []) }
    {
        let mut left = self;
        let Some(first) = left.next() else {
            return None;
        };
        let Some(second) = left.next() else {
            return None;
        };
        match left.next() {
            None => Some((first, second)),
            Some(_) => None,
        }
    }

    // The three tokens, if there are exactly three.
    #[inline(always)]
    pub(crate) fn three(self) -> Option<(&'a [u8], &'a [u8], &'a [u8])>
        ensures { MatchOption result (length (tokens_left self.entry) ≡ 3 → ⊥)
            (λ x. tokens_left self.entry ≡ x.0.now ∷ x.1.now ∷ x.2.now ∷ []) }
    {
        let mut left = self;
        let Some(first) = left.next() else {
            return None;
        };
        match left.two() {
            Some((second, third)) => Some((first, second, third)),
            None => None,
        }
    }

    // The number of tokens yet to be read. The first one is skipped by itself: usually there is no other, and nothing
    // has to be counted.
    pub(crate) fn len(&self) -> usize
        ensures { result ≡ length (tokens_left self.now) }
    {
        let mut left = *self;
        match left.next() {
            None => 0,
            Some(_) => left.count() + 1,
        }
    }

    // The number of tokens, by the separators between them.
    pub(crate) fn count(&self) -> usize
        ensures value { result ≡ length (tokens_left self.now) }
        ensures few { result ≤ 2 ^ 63 }
    {
        match self.rest {
            None => 0,
            Some(rest) => count(&rest[..rest.len().saturating_sub(self.behind)], TOKEN_END) + 1,
        }
    }
}

fn count(text: &[u8], mark: u8) -> usize
    ensures marks { result + 1 ≡ length (pieces_of mark text.now) }
    ensures few { result < 2 ^ 63 }
{
    marks_in(text, mark)
}

/// The number of bytes of the text that equal `mark`.
#[tactic(auto, using(crate::proofs::PartLaws::marks_within))]
pub fn marks_in(text: &[u8], mark: u8) -> usize
    ensures value { result ≡ count_by (λ b. b == mark) text.now }
    ensures few { result ≤ length text.now }
{
    let mut found = 0;
    let mut at = 0;
    while text.len() - at >= LANES {
        found += marks_at_front(&text[at..], mark);
        at += LANES;
    }
    found + marks_by_bytes(&text[at..], mark)
}

// The number of the first LANES bytes that equal `mark`.
#[inline(always)]
fn marks_at_front(text: &[u8], mark: u8) -> usize
    requires { LANES ≤ length text.now }
    ensures { result ≡ count_by (λ b. b == mark) (take LANES text.now) }
{
    let marks = u8x32::from_slice(text).simd_eq(u8x32::splat(mark));
    marks.to_bitmask().count_ones() as usize
}

// The number of bytes that equal `mark`, byte by byte: for a text too short for a vector. For a long one it takes
// eight times as many instructions.
fn marks_by_bytes(text: &[u8], mark: u8) -> usize
    ensures { result ≡ count_by (λ b. b == mark) text.now }
{
    memchr_iter(mark, text).count()
}
