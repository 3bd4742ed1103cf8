//! The rule of a board's table, and the contracts of its steps. These types are only for the proofs.
ghost use Rattle.he_board.specs.Balance.{IsBalanced};
ghost use Rattle.he_board.specs.Notes.{blank, given, joined, kept};
ghost use Rattle.he_board.specs.Plays.{job_swapped, parts_counted, winner_loaded, winner_lowered};
ghost use Rattle.he_board.specs.declared.limits.TheConstants.{PARTS};

use crate::view::{Layout, View};
use atomic_table::{Join, Play, Split, TableRule};

pub struct Law;

impl TableRule<(), View, Layout> for Law {
    ghost holds = { IsBalanced };

    ghost first = { λ _. blank PARTS };
}

pub struct SwapsJob;

impl Play<(), View> for SwapsJob {
    ghost then = { job_swapped };
}

pub struct LoadsWinner;

impl Play<(), View> for LoadsWinner {
    ghost then = { winner_loaded };
}

pub struct LowersWinner;

impl Play<(), View> for LowersWinner {
    ghost then = { winner_lowered };
}

pub struct CountsParts;

impl Play<(), View> for CountsParts {
    ghost then = { parts_counted };
}

pub struct Halves;

impl Split<View> for Halves {
    ghost left = { kept };

    ghost right = { given };
}

impl Join<View> for Halves {
    ghost both = { joined };

    ghost spent = { blank 0 };
}
