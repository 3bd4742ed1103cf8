// The forms of the lines, after their first word: first the number of tokens is checked, then each token from left to
// right; the first wrong one decides.

ghost use Rattle.std.specs.Prelude.{◌≡◌};
ghost use Rattle.he_reading.specs.Forms.{setting_in, pause_in, end_in};
ghost use Rattle.he_reading.specs.Left.{tokens_left};

mod answers;
mod numbers;
mod selection;

use crate::parts::Tokens;
pub(crate) use answers::{AnswerLine, address, answer, connect, listed, round_trip, used};
use he_timeline::limits::{MAX_PAUSE_END, MAX_TICK};
use he_words::limits::MIN_PAUSE_END;
use he_words::{Name, TextKind};
use numbers::number;
pub(crate) use selection::{route, row, source};

// set NAME N
#[tactic(auto, unfolding(crate::specs::Forms::setting_in))]
pub(crate) fn setting(tokens: Tokens) -> Result<(Name, u64), TextKind>
    ensures { result ≡ setting_in (tokens_left tokens.entry) }
{
    let Some((name, value)) = tokens.two() else {
        return Err(TextKind::Word);
    };
    let Some(name) = Name::read(name) else {
        return Err(TextKind::Word);
    };
    let value = number(name.least(), name.most(), value)?;
    Ok((name, value))
}

// pause FROM TO
#[inline(always)]
#[tactic(auto, unfolding(crate::specs::Forms::pause_in))]
pub(crate) fn pause(tokens: Tokens) -> Result<(u64, u64), TextKind>
    ensures { result ≡ pause_in (tokens_left tokens.entry) }
{
    let Some((from, to)) = tokens.two() else {
        return Err(TextKind::Word);
    };
    let from = number(0, MAX_TICK, from)?;
    let to = number(MIN_PAUSE_END, MAX_PAUSE_END, to)?;
    Ok((from, to))
}

// end
pub(crate) fn end(tokens: Tokens) -> Result<(), TextKind>
    ensures { result ≡ end_in (tokens_left tokens.entry) }
{
    let mut left = tokens;
    match left.next() {
        None => Ok(()),
        Some(_) => Err(TextKind::Word),
    }
}
