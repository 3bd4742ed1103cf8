//! Whether the bytes that follow a text may mend its fault.

ghost use Rattle.std.specs.Prelude.{◌≡◌, ◌↔◌, ◌∷◌, [], IsTrue};
ghost use Rattle.he_inputs.specs.Beginnings.{EndsIn, IsGroupFaultAtEnd, MayBecome, MayChange, awaited};
ghost use Rattle.he_reading.specs.Forms.{word_of_setting};
ghost use Rattle.he_inputs.specs.Inputs.{line_count};
ghost use Rattle.he_reading.specs.Parts.{lines_of};

use he_reading::{marks_in, word_of_setting};
use he_words::limits::MAX_LINE;
use he_words::{LINE_END, TOKEN_END, TextFault, TextKind, Word};
use memchr::memrchr;

// Whether bytes that follow the text may mend its fault. If not, every text that begins with these bytes has this
// fault (the laws `faults_stand` and `mendable_faults_change`).
pub(crate) fn may_change(text: &[u8], fault: TextFault) -> bool
    ensures { IsTrue result ↔ MayChange text.now fault.line fault.kind }
{
    match fault.kind {
        TextKind::Unfinished => true,
        _ => may_be_mended(text, fault),
    }
}

// Whether the fault is that of a group's last line, which is also the text's last whole line, and one more line of
// the group may follow and mend it.
fn may_be_mended(text: &[u8], fault: TextFault) -> bool
    ensures { IsTrue result ↔ IsGroupFaultAtEnd text.now fault.line fault.kind }
{
    let rest = open_line(text);
    if marks_in(text, LINE_END) as u64 != fault.line || rest.len() == text.len() {
        return false;
    }
    let line = open_line(&text[..text.len() - rest.len() - 1]);
    match awaited(line, fault.kind) {
        Some(word) => may_become(word, rest),
        None => false,
    }
}

// The first word of the lines that may mend the fault of a group's last line.
fn awaited(line: &[u8], kind: TextKind) -> Option<Word>
    ensures { result ≡ awaited line.now kind }
{
    match kind {
        TextKind::Policy(_) => Some(Word::Policy),
        TextKind::Range => word_of_setting(line),
        _ => None,
    }
}

// The bytes after the last line end; all bytes if there is none.
fn open_line(text: &[u8]) -> &[u8]
    ensures end { EndsIn text.now (line_count text.now) result.now }
    ensures line { lines_of result.now ≡ result.now ∷ [] }
{
    match memrchr(LINE_END, text) {
        Some(at) => &text[at + 1..],
        None => text,
    }
}

// Whether more bytes may make of these, which have no line end, a line that begins with the word.
fn may_become(word: Word, rest: &[u8]) -> bool
    requires { lines_of rest.now ≡ rest.now ∷ [] }
    ensures { IsTrue result ↔ MayBecome word rest.now }
{
    let spelled = word.spelling().as_bytes();
    match rest.get(spelled.len()) {
        None => spelled.starts_with(rest),
        Some(next) => *next == TOKEN_END && rest.starts_with(spelled) && rest.len() <= MAX_LINE,
    }
}
