// Policy tables (RFC 6724 section 2.1).

ghost use Rattle.std.specs.Prelude.{◌≡◌, ℕ, ◌+◌, ◌≤◌, drop, length, IfOk, IfErr, IsOk, IsOkUnless};
ghost use Rattle.std.specs.List.{list_any, position_from};
ghost use Rattle.he_select.specs.Equality.{equal_tables};
ghost use Rattle.he_select.specs.TableFaults.{has_row, shared_from, table_fault, table_of};
ghost use Rattle.he_select.specs.Tables.{same_row, shares_precedence, IsAdmitted};
ghost use Rattle.he_addr.specs.Prefix.{IsPrefix};
ghost use Rattle.he_select.specs.LookUps.{rows_in, rows_of};
ghost use Rattle.he_select.specs.Standard.{standard_rows};

use crate::distinct::{Distinct, first_repeated, stands_in};
use crate::limits::{ROWS, STANDARD_ROWS};
use crate::standard::{
    ANY, Class, IPV4, IPV4_COMPATIBLE, LOOPBACK, SITE_LOCAL, SIX_BONE, SIX_TO_FOUR, TEREDO,
    UNIQUE_LOCAL,
};
use he_addr::{Memory, Prefix};
use std::alloc::{Allocator, Global};
use std::marker::Model;
use thiserror::Error;

/// A row of a policy table.
#[derive(Clone, Copy, Debug, PartialEq, Eq)]
pub struct Row {
    /// The addresses that the row applies to, IPv4 addresses as mapped ones.
    pub prefix: Prefix,
    /// The preference of the addresses; the higher precedence wins.
    pub precedence: u16,
    /// A destination prefers sources with its own label.
    pub label: u16,
}

impl Row {
    /// Whether an earlier row has this row's prefix.
    pub fn repeats(&self, earlier: &[Row]) -> bool
        ensures { result ≡ list_any (same_row self.now) earlier.now }
    {
        stands_in(self, earlier)
    }

    /// Whether exactly one of the two rows is inside `::ffff:0:0/96` and both have one precedence.
    fn shares_precedence(&self, other: &Row) -> bool
        ensures { result ≡ shares_precedence self.now other.now }
    {
        self.precedence == other.precedence && self.prefix.is_v4() != other.prefix.is_v4()
    }
}

impl Distinct for Row {
    ghost same = { same_row };

    fn is_same(&self, other: &Row) -> bool {
        self.prefix == other.prefix
    }
}

/// Why rows are not a policy table. Rows count from 0.
#[derive(Clone, Copy, Debug, PartialEq, Eq, Error)]
pub enum PolicyFault {
    /// No row, or more than [`ROWS`].
    #[error("policy has no row or too many")]
    Size,
    /// This row, the first such one, has the prefix of an earlier row.
    #[error("policy row {0} repeats an earlier prefix")]
    Repeated(usize),
    /// No row is `::/0`.
    #[error("policy has no ::/0")]
    NoDefault,
    /// No row is `::ffff:0:0/96`.
    #[error("policy has no ::ffff:0:0/96")]
    NoMapped,
    /// One of these two rows is inside `::ffff:0:0/96` and one outside it, and their precedences are equal.
    #[error("policy rows {0} and {1} share a precedence")]
    SharedPrecedence(usize, usize),
    /// An allocation failed.
    #[error("out of memory")]
    Memory,
}

impl PolicyFault {
    /// The first fault of the rows, in the order of the variants; `None` for an admitted table. Never `Memory`.
    #[tactic(auto, unfolding(crate::specs::TableFaults::table_fault))]
    pub fn find(rows: &[Row]) -> Option<PolicyFault>
        ensures { result ≡ table_fault rows.now }
    {
        if rows.is_empty() || rows.len() > ROWS {
            return Some(PolicyFault::Size);
        }
        if let Some(place) = first_repeated(rows) {
            return Some(PolicyFault::Repeated(place));
        }
        if !has_prefix(rows, Prefix::new(0, 0)) {
            return Some(PolicyFault::NoDefault);
        }
        if !has_prefix(rows, Prefix::new(0xffff_0000_0000, 96)) {
            return Some(PolicyFault::NoMapped);
        }
        let (place, later) = shared_precedence(rows)?;
        Some(PolicyFault::SharedPrecedence(place, later))
    }
}

fn has_prefix(rows: &[Row], prefix: Prefix) -> bool
    ensures { result ≡ has_row rows.now prefix }
{
    rows.iter().any(|row| row.prefix == prefix)
}

/// The first row that shares its precedence with a later one, and the first such later row.
fn shared_precedence(rows: &[Row]) -> Option<(usize, usize)>
    ensures { result ≡ shared_from 0 rows.now }
{
    for i in 0..rows.len() {
        if let Some(later) = sharing_row(&rows[i], rows, i + 1) {
            return Some((i, later));
        }
    }
    None
}

/// The first row, from `from` on, that shares its precedence with `row`.
fn sharing_row(row: &Row, rows: &[Row], from: usize) -> Option<usize>
    requires { from ≤ length rows.now }
    ensures { result ≡ position_from (shares_precedence row.now) from (drop from rows.now) }
{
    for i in from..rows.len() {
        if row.shares_precedence(&rows[i]) {
            return Some(i);
        }
    }
    None
}

/// The rows of the standard table (RFC 6724 section 2.1).
fn standard_table() -> [Row; STANDARD_ROWS]
    ensures { result ≡ standard_rows }
{
    [
        standard_row(1, 128, LOOPBACK),
        standard_row(0, 0, ANY),
        standard_row(0xffff << 32, 96, IPV4),
        standard_row(0x2002 << 112, 16, SIX_TO_FOUR),
        standard_row(0x2001 << 112, 32, TEREDO),
        standard_row(0xfc00 << 112, 7, UNIQUE_LOCAL),
        standard_row(0, 96, IPV4_COMPATIBLE),
        standard_row(0xfec0 << 112, 10, SITE_LOCAL),
        standard_row(0x3ffe << 112, 16, SIX_BONE),
    ]
}

fn standard_row(bits: u128, len: u8, class: Class) -> Row
    requires { IsPrefix bits len }
    ensures { result ≡ record {
      prefix = record { bits = bits; len = len };
      precedence = class.precedence;
      label = class.label;
    } }
{
    let prefix = Prefix::new(bits, len);
    Row {
        prefix,
        precedence: class.precedence,
        label: class.label,
    }
}

/// The rows of a policy table, in the order given.
#[derive(Drop)]
pub enum Rows<'a> {
    /// The rows of the standard table, which no [`Policy`] stores.
    Standard([Row; STANDARD_ROWS]),
    /// The rows that a [`Policy`] stores.
    Listed(&'a [Row]),
}

impl<'a> Rows<'a> {
    /// The rows as a slice.
    pub fn as_slice(&self) -> &[Row]
        ensures { result.now ≡ rows_in self.now }
    {
        match self {
            Rows::Standard(rows) => rows,
            Rows::Listed(rows) => rows,
        }
    }
}

/// The rows of a policy table, for looking up addresses.
#[derive(Clone, Copy)]
pub(crate) enum Table<'a> {
    /// The standard table, looked up by the address's first bits.
    Standard,
    /// Another table, searched row by row.
    Listed(&'a [Row]),
}

/// A policy table: 1 to [`ROWS`] rows with different prefixes, among them `::/0` and `::ffff:0:0/96`, and no
/// precedence both inside and outside `::ffff:0:0/96`. Contracts see it as its rows.
#[derive(Drop)]
pub struct Policy<A: Allocator = Global> {
    /// None for the standard table, whose rows need no memory.
    listed: Option<Vec<Row, A>>,
}

impl<A: Allocator> Model for Policy<A> {
    ghost use Rattle.std.specs.Prelude.{List};
    ghost use Rattle.he_select.specs.declared.policy.Row.{Row};

    ghost Value = { List Row };

    ghost use Rattle.std.specs.Option.{option_map_or};
    ghost use Rattle.he_select.specs.Standard.{standard_rows};
    ghost use Rattle.he_select.specs.Tables.{IsAdmitted};

    ghost view = { λ p. option_map_or (λ rows. rows.items) p.listed standard_rows };

    ghost invariant = { λ p. IsAdmitted (option_map_or (λ rows. rows.items) p.listed standard_rows) };
}

impl<A: Allocator> PartialEq for Policy<A> {
    ghost use Rattle.std.specs.Prelude.{◌≡◌, ◌↔◌, IsTrue};
    ghost use Rattle.std.specs.Cmp.Lexicographic.{pointwise, lists_per};
    ghost use Rattle.he_select.specs.contracts.policy.RowPartialEq.TheImpl.Laws as rows;

    ghost eq = { λ a b. pointwise ⟦<Row as PartialEq>⟧.eq a b };

    ghost laws = { lists_per rows.laws-law };

    /// Whether both tables have equal rows in the same order.
    fn eq(&self, other: &Policy<A>) -> bool
        ensures value { result ≡ pointwise ⟦<Row as PartialEq>⟧.eq self.now other.now }
        ensures rows { IsTrue result ↔ (self.now ≡ other.now) }
    {
        self.has_rows_of(other)
    }
}

impl<A: Allocator> Eq for Policy<A> {
    ghost use Rattle.std.specs.Cmp.Lexicographic.{lists_equiv};
    ghost use Rattle.he_select.specs.contracts.policy.RowEq.TheImpl.Laws as rows;

    ghost laws = { lists_equiv rows.laws-law };
}

impl<A: Allocator + Copy> Policy<A> {
    /// The standard table (RFC 6724 section 2.1). It allocates nothing and always succeeds.
    pub fn standard(_alloc: A) -> Result<Policy<A>, Memory>
        ensures table { IfOk result (λ policy. policy ≡ standard_rows) }
        ensures made { IsOk result }
    {
        Ok(Policy { listed: None })
    }

    /// A table of these rows.
    ///
    /// # Errors
    ///
    /// The first fault of the rows, in the order of [`PolicyFault`].
    pub fn from_rows(alloc: A, rows: &[Row]) -> Result<Policy<A>, PolicyFault>
        ensures refused { IfErr (table_of rows.now) (λ fault. result ≡ Err fault) }
        ensures made { IfOk (table_of rows.now) (λ table. IfOk result (λ policy. policy ≡ table)) }
        ensures memory { IsOk (table_of rows.now) → IsOkUnless result PolicyFault.Memory }
    {
        if let Some(fault) = PolicyFault::find(rows) {
            return Err(fault);
        }
        let rows = Vec::from_slice(alloc, rows).map_err(|_| PolicyFault::Memory)?;
        Ok(Policy { listed: Some(rows) })
    }
}

impl<A: Allocator> Policy<A> {
    /// A table of these rows. It keeps the list and allocates nothing.
    ///
    /// # Errors
    ///
    /// The first fault of the rows, in the order of [`PolicyFault`]; never `Memory`. The rows are dropped then.
    pub fn from_list(rows: Vec<Row, A>) -> Result<Policy<A>, PolicyFault>
        ensures { result ≡ table_of rows.items }
    {
        if let Some(fault) = PolicyFault::find(&rows) {
            return Err(fault);
        }
        Ok(Policy { listed: Some(rows) })
    }

    fn has_rows_of(&self, other: &Policy<A>) -> bool
        ensures { result ≡ equal_tables self.now other.now }
    {
        self.rows().as_slice() == other.rows().as_slice()
    }

    /// The rows, in the order given.
    pub fn rows(&self) -> Rows<'_>
        ensures rows { rows_in result ≡ self.now }
        ensures admitted { IsAdmitted self.now }
    {
        match &self.listed {
            Some(rows) => Rows::Listed(rows),
            None => Rows::Standard(standard_table()),
        }
    }

    /// The rows, for looking up addresses.
    pub(crate) fn table(&self) -> Table<'_>
        ensures rows { rows_of result ≡ self.now }
        ensures admitted { IsAdmitted self.now }
    {
        match &self.listed {
            Some(rows) => Table::Listed(rows),
            None => Table::Standard,
        }
    }

    /// A copy of the table in this allocator's memory.
    pub fn copy<B: Allocator + Copy>(&self, alloc: B) -> Result<Policy<B>, Memory>
        ensures { IfOk result (λ policy. policy ≡ self.now) }
    {
        let listed = match &self.listed {
            Some(rows) => Some(Vec::from_slice(alloc, rows)?),
            None => None,
        };
        Ok(Policy { listed })
    }
}
