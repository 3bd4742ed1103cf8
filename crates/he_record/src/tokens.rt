// The tokens of a line.

ghost use Rattle.std.specs.Prelude.{◌≡◌, ◌∷◌, [], length, MatchOption};
ghost use Rattle.he_reading.specs.Parts.{tokens_of};
ghost use Rattle.he_record.specs.Left.{tokens_left};

use he_words::TOKEN_END;
use memchr::memchr;

// The tokens of a line that are not read yet.
#[derive(Clone, Copy)]
pub(crate) struct Tokens<'t> {
    rest: Option<&'t [u8]>,
}

impl<'t> Tokens<'t> {
    pub(crate) fn new(line: &'t [u8]) -> Tokens<'t>
        ensures { tokens_left result ≡ tokens_of line.now }
    {
        Tokens { rest: Some(line) }
    }

    pub(crate) fn next(&mut self) -> Option<&'t [u8]>
        ensures { MatchOption result (tokens_left self.old ≡ [])
            (λ token. tokens_left self.old ≡ token.now ∷ tokens_left self.new) }
    {
        let rest = self.rest?;
        match memchr(TOKEN_END, rest) {
            Some(at) => {
                self.rest = Some(&rest[at + 1..]);
                Some(&rest[..at])
            }
            None => {
                self.rest = None;
                Some(rest)
            }
        }
    }

    // The token left, if there is exactly one.
    pub(crate) fn one(self) -> Option<&'t [u8]>
        ensures { MatchOption result (length (tokens_left self.entry) ≡ 1 → ⊥)
            (λ x. tokens_left self.entry ≡ x.now ∷ []) }
    {
        let mut left = self;
        let Some(first) = left.next() else {
            return None;
        };
        match left.next() {
            None => Some(first),
            Some(_) => None,
        }
    }

    // The tokens left, if there are exactly two.
    pub(crate) fn two(self) -> Option<(&'t [u8], &'t [u8])>
        ensures { MatchOption result (length (tokens_left self.entry) ≡ 2 → ⊥)
            (λ x. tokens_left self.entry ≡ x.0.now ∷ x.1.now ∷ []) }
    {
        let mut left = self;
        let Some(first) = left.next() else {
            return None;
        };
        match left.one() {
            Some(second) => Some((first, second)),
            None => None,
        }
    }

    // The tokens left, if there are exactly three.
    pub(crate) fn three(self) -> Option<(&'t [u8], &'t [u8], &'t [u8])>
        ensures { MatchOption result (length (tokens_left self.entry) ≡ 3 → ⊥)
            (λ x. tokens_left self.entry ≡ x.0.now ∷ x.1.now ∷ x.2.now ∷ []) }
    {
        let mut left = self;
        let Some(first) = left.next() else {
            return None;
        };
        match left.two() {
            Some((second, third)) => Some((first, second, third)),
            None => None,
        }
    }
}
