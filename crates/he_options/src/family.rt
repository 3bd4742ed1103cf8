//! The family of addresses that a line asks for alone.
ghost use Rattle.clap.specs.Matches.{found_of};
ghost use Rattle.he_options.specs.Families.{AsksFamily};

use crate::arguments::{flag_of, letter};
use clap::{Arg, ArgMatches};
use he_addr::{Family, Memory};
use std::alloc::Global;

/// The option that asks for IPv4 alone.
pub fn four<'a>(alloc: Global) -> Arg<'a> {
    letter(alloc, "four", '4', "Use IPv4 only")
}

/// The option that asks for IPv6 alone.
///
/// # Errors
///
/// `Memory` where memory was refused.
pub fn six<'a>(alloc: Global) -> Result<Arg<'a>, Memory> {
    letter(alloc, "six", '6', "Use IPv6 only").conflicts_with("four")
}

/// The only family that the line asks for.
pub fn family_of(matches: &ArgMatches<'_>) -> Option<Family>
    ensures { AsksFamily (found_of matches.now) result }
{
    let (four, six) = (flag_of(matches, "four"), flag_of(matches, "six"));
    if four {
        Some(Family::V4)
    } else if six {
        Some(Family::V6)
    } else {
        None
    }
}
