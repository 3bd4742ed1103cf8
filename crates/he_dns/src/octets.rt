// The octets of a name in a fixed place: reading a name from a message allocates nothing.

ghost use Rattle.std.specs.Prelude.{◌≡◌, ◌+◌, ◌≤◌, ◌<◌, ◌++◌, [], length, MatchOption};

use crate::limits::MAX_NAME;
use arrayvec::ArrayVec;
use std::marker::Model;

// The labels of a name, each after an octet with its length, without the root's empty label at the end.
#[derive(Drop)]
pub(crate) struct Octets {
    octets: ArrayVec<u8, MAX_NAME>,
}

impl Model for Octets {
    ghost use Rattle.std.specs.Prelude.{ℕ, List};

    ghost Value = { List ℕ };

    ghost view = { λ o. o.octets.items };
}

impl Octets {
    pub(crate) fn new() -> Octets
        ensures { result ≡ [] }
    {
        Octets {
            octets: ArrayVec::new(),
        }
    }

    pub(crate) fn as_slice(&self) -> &[u8]
        ensures { result.now ≡ self.now }
    {
        self.octets.as_slice()
    }

    // Appends a part; None if there is no room for it.
    pub(crate) fn append(&mut self, part: &[u8]) -> Option<()>
        ensures appended { MatchOption result (MAX_NAME < length self.old + length part.now) (λ _. self.new
            ≡ self.old ++ part.now) }
        ensures room { MatchOption result (Unit {0}) (λ _. length self.old + length part.now ≤ MAX_NAME) }
    {
        self.octets.try_extend_from_slice(part).ok()
    }
}
