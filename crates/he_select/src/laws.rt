// Laws of the definitions. Each is the contract of a function that runs nothing.

ghost use Rattle.he_select.specs.Laws.{AdmittedWhereNoFault, EachListHasOneOrder, EveryAddressHasRow, HostFaultsAreFirst, HostWhereNoFault, LimitsAreStated, OrderOfFilterIsFilterOfOrder, PreferenceIsByKeys, PreferenceIsStrictTotalOrder, ReachableWhereCandidates, RepeatsByOneMore, TableFaultsAreFirst};
ghost use Rattle.he_select.specs.Hosts.{same_route, same_source};
ghost use Rattle.he_select.specs.Tables.{same_row};

/// With an admitted table, the preference of destinations is the lexicographic comparison of keys, one number for
/// each rule; hence it is a strict total order.
pub fn preference_is_by_keys()
    ensures keys { PreferenceIsByKeys }
    ensures order { PreferenceIsStrictTotalOrder }
{}

/// With an admitted table, usable addresses have exactly one order of preference: the list that [`crate::order`]
/// returns.
pub fn each_list_has_one_order()
    ensures { EachListHasOneOrder }
{}

/// The relative order of usable addresses doesn't depend on the others in the list: the order of the addresses that
/// pass a test is the order of all addresses, filtered by that test.
pub fn order_of_filter()
    ensures { OrderOfFilterIsFilterOfOrder }
{}

/// An address is reachable exactly if it has a route and a candidate: if there are candidates, one is the best.
pub fn reachable_where_candidates()
    ensures { ReachableWhereCandidates }
{}

/// Every address has a row of an admitted table, and so a precedence and a label.
pub fn every_address_has_row()
    ensures { EveryAddressHasRow }
{}

/// Repeats can be checked one member at a time: a list extended by a member has the first repeat of the shorter list,
/// or else the new member is the repeat, which [`crate::Row::repeats`], [`crate::Source::repeats`] or
/// [`crate::Route::repeats`] detects.
pub fn repeats_by_one_more()
    ensures rows { RepeatsByOneMore same_row }
    ensures sources { RepeatsByOneMore same_source }
    ensures routes { RepeatsByOneMore same_route }
{}

/// Rows are a policy table exactly if [`crate::PolicyFault::find`] finds no fault. The fault that it finds is the
/// first in the order of the variants, at the least places.
pub fn tables_have_no_fault()
    ensures admitted { AdmittedWhereNoFault }
    ensures first { TableFaultsAreFirst }
{}

/// Lists are a host's exactly if [`crate::HostFault::find`] finds no fault. The fault that it finds is the first in
/// the order of the variants, at the least place.
pub fn hosts_have_no_fault()
    ensures host { HostWhereNoFault }
    ensures first { HostFaultsAreFirst }
{}

/// The limits of the code are those of the definitions.
pub fn limits_are_stated()
    ensures { LimitsAreStated }
{}
