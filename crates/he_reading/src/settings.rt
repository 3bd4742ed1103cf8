// Recognizes a line that is a setting.

ghost use Rattle.std.specs.Prelude.{◌≡◌};
ghost use Rattle.he_reading.specs.Forms.{word_of_setting, said_in};
ghost use Rattle.he_reading.specs.Faults.{anyone};

use crate::first_words::first_word;
use crate::forms;
use crate::parts::TextLine;
use he_words::Word;

/// The word of a line that is a setting and correct by itself; None for every other line. `bytes` is the line without
/// its line end.
#[tactic(auto, unfolding(crate::specs::Forms::said_by))]
pub fn word_of_setting(bytes: &[u8]) -> Option<Word>
    ensures { result ≡ word_of_setting (said_in anyone bytes.now) }
{
    let Ok((word, tokens)) = first_word(TextLine::new(bytes, bytes.len())) else {
        return None;
    };
    match word {
        Word::Set => match forms::setting(tokens) {
            Ok(_) => Some(Word::Set),
            Err(_) => None,
        },
        _ => None,
    }
}
