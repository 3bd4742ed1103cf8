//! The meaning of the contracts' definitions. Each law holds for all values; its function does nothing.
ghost use Rattle.std.specs.Prelude.{◌≡◌, ◌<◌, ◌≤◌, ◌⊎◌, ◌↔◌, ℕ, Contains, List, Some};
ghost use Rattle.he_board.specs.Balance.{Balanced};
ghost use Rattle.he_board.specs.Lawful.{Lawful};
ghost use Rattle.he_board.specs.Notes.{key_of, least_of, winner_of};
ghost use Rattle.he_board.specs.Workers.{least_workers, most_workers};
ghost use Rattle.he_board.specs.declared.limits.TheConstants.{JOBS, LAST_TICK, LEAST_WORKERS, MOST_WORKERS, NO_OFFER, PARTS, PLACES, RACES};
ghost use Rattle.he_board.specs.declared.view.View.{View};

/// The rule of a board's table, stated by sums and minima, holds exactly for the lawful states. The table keeps its
/// rule from the creation of the board on, through each step of each pass in every order, so the board is always
/// lawful.
pub fn board_is_lawful()
    ensures { (jobs races : ℕ) (words : List ℕ) (views : List View)
        → (Balanced jobs races words views ↔ Lawful jobs races words views) }
{}

/// `least_of` is at most each value noted for the race, and is one of them or `NO_OFFER`.
pub fn least_is_least()
    ensures at_most { (race value : ℕ) (noted : List (ℕ × ℕ)) → Contains noted (race, value)
        → least_of race noted ≤ value }
    ensures one_of { (race : ℕ) (noted : List (ℕ × ℕ)) → Contains noted (race, least_of race noted)
        ⊎ (least_of race noted ≡ NO_OFFER) }
{}

/// The tick and the place can be read back from a key.
pub fn keys_read_back()
    ensures { (tick place : ℕ) → tick ≤ LAST_TICK → place < PLACES
        → winner_of (key_of tick place) ≡ Some (tick, place) }
{}

/// Keys are ordered by tick, and at one tick by place.
pub fn keys_are_ordered()
    ensures { (tick place other_tick other_place : ℕ) → place < PLACES → other_place < PLACES
        → ((key_of tick place < key_of other_tick other_place) ↔ ((tick < other_tick) ⊎ (tick ≡ other_tick)
        × (place < other_place))) }
{}

/// The limits of a board, as numbers: 2,097,152 jobs, 4,096 races, 512 places, 1,048,576 parts and ticks up to
/// 7,200,000 (milliseconds). A winner word without offers is 2^64 - 1.
pub fn limits_as_numbers()
    ensures jobs { JOBS ≡ 2097152 }
    ensures races { RACES ≡ 4096 }
    ensures places { PLACES ≡ 512 }
    ensures parts { PARTS ≡ 1048576 }
    ensures last_tick { LAST_TICK ≡ 7200000 }
    ensures no_offer { NO_OFFER ≡ 18446744073709551615 }
{}

/// The limits of workers are the numbers of the definitions.
pub fn limits_of_workers()
    ensures least { LEAST_WORKERS ≡ least_workers }
    ensures most { MOST_WORKERS ≡ most_workers }
{}
