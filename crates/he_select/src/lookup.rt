// Looks up the row of an address in a policy table, and its route: the longest prefix that contains it.

ghost use Rattle.std.specs.Prelude.{◌≡◌, Option, None, not, option_map};
ghost use Rattle.he_addr.specs.Bits.{agrees};
ghost use Rattle.he_addr.specs.Ip.{is_v6};
ghost use Rattle.he_select.specs.Attributes.{serves_number};
ghost use Rattle.he_select.specs.Selection.{is_longer_route, longest_route};
ghost use Rattle.he_select.specs.LookUps.{class_of, rows_of};
ghost use Rattle.he_select.specs.Tables.{row_of, precedence_of, label_of, is_longer_row};
ghost use Rattle.he_select.specs.Walking.{keep_fitting, walk_fitting};

use crate::host::Route;
use crate::policy::{Policy, Row, Table};
use crate::standard::{Class, NO_CLASS, standard_class};
use he_addr::{Family, Ip};
use std::alloc::Allocator;

/// The row with the longest prefix that contains the address.
fn find_row(rows: &[Row], ip: Ip) -> Option<Row>
    ensures { result ≡ row_of rows.now ip }
{
    longest_row(rows, ip.mapped())
}

#[inline(always)]
fn longest_row(rows: &[Row], number: u128) -> Option<Row>
    ensures { result
        ≡ walk_fitting (λ row. agrees 128 number row.prefix.bits row.prefix.len) is_longer_row None rows.now }
{
    let mut best = None;
    for row in rows {
        best = keep_row(best, row, number);
    }
    best.copied()
}

// The bits are compared first, since few rows contain an address.
#[inline(always)]
fn keep_row<'a>(best: Option<&'a Row>, row: &'a Row, number: u128) -> Option<&'a Row>
    ensures { option_map (λ kept. kept.now) result
        ≡ keep_fitting (λ row. agrees 128 number row.prefix.bits row.prefix.len) is_longer_row
        (option_map (λ kept. kept.now) best.entry) row.now }
{
    if !row.prefix.begins(number) {
        return best;
    }
    match best {
        Some(kept) if row.prefix.len() <= kept.prefix.len() => best,
        _ => Some(row),
    }
}

impl<'a> Table<'a> {
    /// The precedence and the label of the address.
    pub(crate) fn class(self, ip: Ip) -> Class
        ensures { result ≡ class_of (row_of (rows_of self.entry) ip) }
    {
        match self {
            Table::Standard => standard_class(ip.mapped()),
            Table::Listed(rows) => listed_class(rows, ip),
        }
    }

    /// The label of the address.
    #[tactic(auto, unfolding(crate::specs::Tables::label_of))]
    pub(crate) fn label(self, ip: Ip) -> u16
        ensures { result ≡ label_of (rows_of self.entry) ip }
    {
        self.class(ip).label
    }
}

fn listed_class(rows: &[Row], ip: Ip) -> Class
    ensures { result ≡ class_of (row_of rows.now ip) }
{
    match find_row(rows, ip) {
        Some(row) => Class {
            precedence: row.precedence,
            label: row.label,
        },
        None => NO_CLASS,
    }
}

impl<A: Allocator> Policy<A> {
    /// The precedence of an address: that of the row with the longest prefix that contains it (RFC 6724 section 2.1).
    #[tactic(auto, unfolding(crate::specs::Tables::precedence_of))]
    pub fn precedence(&self, ip: Ip) -> u16
        ensures { result ≡ precedence_of self.now ip }
    {
        self.table().class(ip).precedence
    }

    /// The label of an address: that of the row with the longest prefix that contains it (RFC 6724 section 2.1).
    pub fn label(&self, ip: Ip) -> u16
        ensures { result ≡ label_of self.now ip }
    {
        self.table().label(ip)
    }
}

/// The route of the address's family with the longest prefix that contains the address.
pub(crate) fn find_route(routes: &[Route], ip: Ip) -> Option<Route>
    ensures { result ≡ longest_route routes.now ip }
{
    longest_serving(routes, ip.mapped(), is_v4(ip))
}

fn is_v4(ip: Ip) -> bool
    ensures { result ≡ not (is_v6 ip) }
{
    ip.family() == Family::V4
}

#[inline(always)]
fn longest_serving(routes: &[Route], number: u128, is_v4: bool) -> Option<Route>
    ensures { result ≡ walk_fitting (serves_number number is_v4) is_longer_route None routes.now }
{
    let mut best = None;
    for route in routes {
        best = keep_route(best, route, number, is_v4);
    }
    best.copied()
}

#[inline(always)]
fn keep_route<'a>(
    best: Option<&'a Route>,
    route: &'a Route,
    number: u128,
    is_v4: bool,
) -> Option<&'a Route>
    ensures { option_map (λ kept. kept.now) result
        ≡ keep_fitting (serves_number number is_v4) is_longer_route
        (option_map (λ kept. kept.now) best.entry) route.now }
{
    if !serves(route, number, is_v4) {
        return best;
    }
    match best {
        Some(kept) if route.prefix.len() <= kept.prefix.len() => best,
        _ => Some(route),
    }
}

/// Whether the route contains the address with this number and is of its family.
#[inline(always)]
fn serves(route: &Route, number: u128, is_v4: bool) -> bool
    ensures { result ≡ serves_number number is_v4 route.now }
{
    route.prefix.begins(number) && route.prefix.is_v4() == is_v4
}
