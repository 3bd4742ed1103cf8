// Numbers in the tokens of a line.

ghost use Rattle.std.specs.Prelude.{◌≡◌, ◌≤◌, IfOk};
ghost use Rattle.he_reading.specs.Forms.{number_from};

use he_addr::read_number;
use he_words::TextKind;

// Reads a number from `low` to `high`. Inlined, as `known` in answers.rt is.
#[inline(always)]
#[tactic(auto, unfolding(crate::specs::Forms::number_from))]
pub(crate) fn number(low: u64, high: u64, token: &[u8]) -> Result<u64, TextKind>
    ensures value { result ≡ number_from low high token.now }
    ensures range { IfOk result (λ value. value ≤ high) }
{
    let Some(value) = read_number(token) else {
        return Err(TextKind::Number);
    };
    if low <= value && value <= high {
        Ok(value)
    } else {
        Err(TextKind::Range)
    }
}
