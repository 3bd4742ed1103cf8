//! Counts of a round's rows.
ghost use Rattle.std.specs.Prelude.{◌≡◌, ◌&&◌, not, count_by};
ghost use Rattle.he_timeline.specs.Timeline.{is_of};
ghost use Rattle.he_probing.specs.Rows.{has_connected, has_failed};

use crate::rows::AddressRow;
use he_addr::Family;

/// The number of addresses that connected.
pub fn count_connected(rows: &[AddressRow]) -> usize
    ensures { result ≡ count_by has_connected rows.now }
{
    rows.iter().filter(|row| row.has_connected()).count()
}

/// The number of addresses that didn't connect.
pub fn count_failed(rows: &[AddressRow]) -> usize
    ensures { result ≡ count_by has_failed rows.now }
{
    rows.iter().filter(|row| has_failed(row)).count()
}

/// The number of the family's addresses.
pub fn count_of(rows: &[AddressRow], family: Family) -> usize
    ensures { result ≡ count_by (λ row. is_of family row.ip) rows.now }
{
    rows.iter().filter(|row| is_of(family, row)).count()
}

/// The number of the family's addresses that didn't connect.
pub fn count_failed_of(rows: &[AddressRow], family: Family) -> usize
    ensures { result ≡ count_by (λ row. is_of family row.ip && has_failed row) rows.now }
{
    rows.iter()
        .filter(|row| is_of(family, row) && has_failed(row))
        .count()
}

pub(crate) fn is_of(family: Family, row: &AddressRow) -> bool
    ensures { result ≡ is_of family row.now.ip }
{
    row.ip.family() == family
}

pub(crate) fn has_failed(row: &AddressRow) -> bool
    ensures { result ≡ has_failed row.now }
{
    !row.has_connected()
}
