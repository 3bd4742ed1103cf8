//! The reason that a family of a race has no address.

ghost use Rattle.std.specs.Prelude.{◌≡◌};
ghost use Rattle.he_recording.specs.Empty.{reason_if_empty};

use he_addr::Family;
use he_record::LookupReason;
use he_timeline::Timeline;

/// The reason, if the family's answer in the race is empty. None if it has addresses, or never came.
pub fn reason_if_empty(
    race: &Timeline,
    family: Family,
    reason: Option<LookupReason>,
) -> Option<LookupReason>
    ensures { result ≡ reason_if_empty race.now family reason }
{
    match race.answer(family) {
        Some((_, ips)) if ips.is_empty() => reason,
        _ => None,
    }
}
