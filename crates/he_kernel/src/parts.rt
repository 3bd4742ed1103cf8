// Cuts a text into lines, and a line into fields.

ghost use Rattle.std.specs.Prelude.{◌≡◌, ◌∷◌, [], MatchOption, option_map, position};
ghost use Rattle.he_kernel.specs.Parts.{is_mark, parts_of, parts_left, field_of};

/// Where to cut a text: at newlines, or at the blanks between the fields of a line.
#[derive(Clone, Copy, Debug, PartialEq, Eq)]
pub enum Cut {
    Lines,
    Fields,
}

impl Cut {
    /// Whether to cut at this byte.
    pub fn is_mark(self, byte: u8) -> bool
        ensures { result ≡ is_mark self byte }
    {
        match self {
            Cut::Lines => byte == b'\n',
            Cut::Fields => byte == b' ' || byte == b'\t',
        }
    }
}

fn find(cut: Cut, text: &[u8]) -> Option<usize>
    ensures { result ≡ position (is_mark cut) text.now }
{
    text.iter().position(|byte| cut.is_mark(*byte))
}

/// The remaining parts of a text.
#[derive(Clone, Copy, Debug)]
pub struct Parts<'t> {
    cut: Cut,
    rest: Option<&'t [u8]>,
}

impl<'t> Parts<'t> {
    /// All parts of a text.
    pub fn new(cut: Cut, text: &'t [u8]) -> Parts<'t>
        ensures { parts_left result ≡ parts_of cut text.now }
    {
        Parts {
            cut,
            rest: Some(text),
        }
    }

    /// The next part.
    pub fn next(&mut self) -> Option<&'t [u8]>
        ensures { MatchOption result (parts_left self.old ≡ []) (λ part. parts_left self.old
            ≡ part.now ∷ parts_left self.new) }
    {
        let rest = self.rest?;
        match find(self.cut, rest) {
            Some(at) => {
                self.rest = Some(&rest[at + 1..]);
                Some(&rest[..at])
            }
            None => {
                self.rest = None;
                Some(rest)
            }
        }
    }
}

/// The field of the line at this place, from 0.
#[tactic(auto, unfolding(crate::specs::Parts::field_of))]
pub fn field<'t>(line: &'t [u8], place: usize) -> Option<&'t [u8]>
    ensures { option_map (λ found. found.now) result ≡ field_of place line.now }
{
    let mut left = place;
    let mut parts = Parts::new(Cut::Fields, line);
    while let Some(part) = parts.next() {
        if !part.is_empty() {
            if left == 0 {
                return Some(part);
            }
            left -= 1;
        }
    }
    None
}
