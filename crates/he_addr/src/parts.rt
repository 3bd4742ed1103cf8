// Splits a text at a mark.

ghost use Rattle.std.specs.Prelude.{◌≡◌, ◌==◌, position};
ghost use Rattle.std.specs.Option.{option_map};
ghost use Rattle.he_addr.specs.Reading.{cut_in};

fn find(text: &[u8], mark: u8) -> Option<usize>
    ensures { result ≡ position (λ b. b == mark) text.now }
{
    text.iter().position(|byte| *byte == mark)
}

// The text before the first mark, and the text after it.
#[tactic(auto, unfolding(crate::specs::Reading::cut_in))]
pub(crate) fn cut(text: &[u8], mark: u8) -> Option<(&[u8], &[u8])>
    ensures { option_map (λ parts. (parts.0.now, parts.1.now)) result ≡ cut_in mark text.now }
{
    let at = find(text, mark)?;
    Some((&text[..at], &text[at + 1..]))
}
