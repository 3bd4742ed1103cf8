//! The right to step on a board.
ghost use Rattle.std.specs.Prelude.{◌≡◌, ◌<◌, [], true};
ghost use Rattle.he_board.specs.Notes.{are_keys};

use crate::view::View;
use atomic_table::Seat;

/// A pass of one board. It has at least one of the board's parts, and notes of the steps taken with it (see `View`).
///
/// Every call on a board takes a pass of that board: the one that came with it, or one made from that by forks and
/// rejoins there.
#[derive(Drop)]
pub struct Pass {
    pub(crate) seat: Seat<(), View>,
    pub(crate) parts: u32,
    pub ghost counted: { seat.me.0.parts ≡ parts },
    pub ghost active: { 0 < parts },
    pub ghost bare: { seat.me.1 ≡ [] },
    pub ghost keys: { are_keys seat.me.0.offers ≡ true },
}

impl Pass {
    ghost use Rattle.he_board.specs.Passes.{notes};

    /// The number of the board's parts that the pass has. With all `PARTS` there is no other pass.
    pub fn parts(&self) -> u32
        ensures value { result ≡ (notes self.now).parts }
        ensures positive { 0 < result }
    {
        self.parts
    }
}
