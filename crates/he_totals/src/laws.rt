//! Laws of the sums over races. Each is the contract of an empty function.

ghost use Rattle.he_totals.specs.Laws.{AddressesAddUp, LossesAddUp, SumsAddUp};

/// The lost time of all addresses, and that with nothing left to try, is the lost time of all races.
pub fn losses_add_up()
    ensures addresses { AddressesAddUp }
    ensures races { LossesAddUp }
{}

/// The milliseconds of all races, each by its owner, are together the time that the races took.
pub fn sums_add_up()
    ensures { SumsAddUp }
{}
