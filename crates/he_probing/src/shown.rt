//! The words of a row.
ghost use Rattle.std.specs.Prelude.{◌≡◌, ◌++◌, OnOk};
ghost use Rattle.he_live.specs.Reasons.{reason_text};
ghost use Rattle.he_record.specs.Moments.{moment_text};
ghost use Rattle.he_probing.specs.Texts.{family_text, millis_of, result_text};

use crate::rows::AddressRow;
use he_addr::{Family, Memory, write_number};
use he_live::Reason;
use he_print::Part;
use he_record::Moment;
use he_timeline::Outcome;

/// A part of a text.
pub(crate) type Piece = Part<()>;

/// The name of the family.
pub(crate) fn family_name(family: Family) -> &'static [u8]
    ensures { result.now ≡ family_text family }
{
    match family {
        Family::V6 => b"IPv6",
        Family::V4 => b"IPv4",
    }
}

/// Appends the result of a row in words: `connected`, `no answer`, or why the attempt failed.
pub(crate) fn write_result(row: &AddressRow, out: &mut Vec<u8>) -> Result<(), Memory>
    ensures { OnOk result (out.new.items ≡ out.old.items ++ result_text row.now) }
{
    match row.outcome {
        None => write_words(b"no answer", out),
        Some(Outcome::Ok(_)) => write_words(b"connected", out),
        Some(Outcome::Fail(_)) => write_reason(row.reason, out),
    }
}

fn write_reason(reason: Reason, out: &mut Vec<u8>) -> Result<(), Memory>
    ensures { OnOk result (out.new.items ≡ out.old.items ++ reason_text reason) }
{
    write_words(reason.words(), out)?;
    match reason {
        Reason::Other(number) => write_number(u64::from(number), out),
        _ => Ok(()),
    }
}

/// Appends the words.
pub(crate) fn write_words(words: &[u8], out: &mut Vec<u8>) -> Result<(), Memory>
    ensures { OnOk result (out.new.items ≡ out.old.items ++ words.now) }
{
    out.extend_from_slice(words)?;
    Ok(())
}

/// The milliseconds of a row: those of its outcome, or those that it was given.
pub(crate) fn millis_of(timeout: u64, row: &AddressRow) -> u64
    ensures { result ≡ millis_of timeout row.now }
{
    match row.outcome {
        Some(outcome) => outcome.duration(),
        None => timeout,
    }
}

/// Appends the time.
pub(crate) fn write_moment(moment: Moment, out: &mut Vec<u8>) -> Result<(), Memory>
    ensures { OnOk result (out.new.items ≡ out.old.items ++ moment_text moment) }
{
    let text = moment.text();
    write_words(&text, out)
}
