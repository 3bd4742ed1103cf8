//! The groups of races, and their labels.
ghost use Rattle.std.specs.Prelude.{◌≡◌, IfOk};
ghost use Rattle.he_compare.specs.Groups.{division_of, family_key, family_text, hour_key, key_of, label_of};

use crate::hours::{hour_of, push_hour};
use he_addr::{Family, Memory};
use he_summary::name_of;
use he_totals::Kept;
use he_totals::totals::{Kind, is_kind};
use std::alloc::Allocator;

/// The group number of the races whose file name has no hour: greater than any hour.
pub const NO_HOUR: u64 = 10_000_000_000;

/// The group number of the races that no address won.
pub const NO_FAMILY: u64 = 2;

/// The criterion that divides races into groups.
#[derive(Clone, Copy, Debug, PartialEq, Eq)]
pub enum By {
    /// The file, in the order in which files were read.
    File,
    /// The day and the hour in the name of the file, if it is named as a proxy's records are.
    Hour,
    /// The family of the address that won: IPv6, then IPv4, then the races that none won.
    Family,
    /// The requested host: the races have the place of it among the names, in place of that of their file.
    Host,
}

/// A division of races into groups. `names` has the names of their files by place.
#[derive(Clone, Copy)]
pub struct Grouping<'n> {
    pub by: By,
    pub names: &'n [String],
}

// The number of a race's group.
pub(crate) fn key_of(grouping: Grouping<'_>, race: &Kept) -> u64
    ensures { result ≡ key_of (division_of grouping.entry) race.now }
{
    match grouping.by {
        By::File | By::Host => race.place.file as u64,
        By::Hour => hour_key(name_of(race.place.file, grouping.names)),
        By::Family => family_key(race),
    }
}

fn hour_key(name: &str) -> u64
    ensures { result ≡ hour_key name.now }
{
    hour_of(name).unwrap_or(NO_HOUR)
}

fn family_key(race: &Kept) -> u64
    ensures { result ≡ family_key race.now }
{
    if is_kind(Kind::WonBy(Family::V6), race) {
        0
    } else if is_kind(Kind::WonBy(Family::V4), race) {
        1
    } else {
        NO_FAMILY
    }
}

// The label of the group of this number.
pub(crate) fn label_of<A: Allocator>(
    alloc: A,
    grouping: Grouping<'_>,
    key: u64,
) -> Result<Vec<u8, A>, Memory>
    ensures { IfOk result (λ label. label.items ≡ label_of (division_of grouping.entry) key) }
{
    let mut label = Vec::new(alloc);
    match grouping.by {
        By::File | By::Host => {
            label.extend_from_slice(name_of(key as usize, grouping.names).as_bytes())?;
        }
        By::Hour if key == NO_HOUR => label.extend_from_slice(b"other")?,
        By::Hour => push_hour(key, &mut label)?,
        By::Family => label.extend_from_slice(family_text(key))?,
    }
    Ok(label)
}

fn family_text(key: u64) -> &'static [u8]
    ensures { result.now ≡ family_text key }
{
    match key {
        0 => b"IPv6",
        1 => b"IPv4",
        _ => b"none",
    }
}
