//! The key of an offer.
ghost use Rattle.std.specs.Prelude.{◌≡◌, ◌<◌, ◌≤◌, ◌/◌, ◌%◌};
ghost use Rattle.he_board.specs.Notes.{key_of};

use crate::limits::{LAST_TICK, NO_OFFER, PLACES};

/// The key of an offer at this tick (milliseconds) and place. Of two offers the one at the lower tick has the lower
/// key; at one tick, the one at the lower place. No key is `NO_OFFER`.
pub fn key(tick: u64, place: usize) -> u64
    requires tick { tick ≤ LAST_TICK }
    requires place { place < PLACES }
    ensures value { result ≡ key_of tick place }
    ensures below { result < NO_OFFER }
{
    tick * PLACES as u64 + place as u64
}

/// The tick and the place with this key.
pub fn tick_and_place(key: u64) -> (u64, usize)
    ensures { result ≡ (key / PLACES, key % PLACES) }
{
    (key / PLACES as u64, (key % PLACES as u64) as usize)
}
