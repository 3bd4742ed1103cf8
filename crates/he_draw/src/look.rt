// The characters of pictures.

use he_story::Said;

/// The characters that draw a picture.
#[derive(Clone, Copy, Debug, PartialEq, Eq)]
pub enum Look {
    /// ASCII alone.
    Ascii,
    /// Lines, dots and check marks in UTF-8, each one column wide.
    Unicode,
}

/// The screen of a picture: its characters, and the number of its columns.
#[derive(Clone, Copy, Debug, PartialEq, Eq)]
pub struct Screen {
    pub look: Look,
    pub width: u16,
}

/// A sign of a row, once and eight times.
pub(crate) type Run = (&'static [u8], &'static [u8]);

pub(crate) const BLANK: Run = (b" ", b"        ");

/// The signs of a look.
#[derive(Clone, Copy)]
pub(crate) struct Signs {
    /// The edges, with the spaces beside them.
    pub(crate) left: &'static [u8],
    pub(crate) right: &'static [u8],
    pub(crate) answer: &'static [u8],
    pub(crate) won: &'static [u8],
    pub(crate) failed: &'static [u8],
    pub(crate) over: &'static [u8],
    pub(crate) wait: Run,
    pub(crate) pause: Run,
    /// An attempt is under way.
    pub(crate) attempt: Run,
}

pub(crate) fn signs_of(look: Look) -> Signs {
    match look {
        Look::Ascii => Signs {
            left: b" |",
            right: b"| ",
            answer: b"o",
            won: b"*",
            failed: b"x",
            over: b">",
            wait: (b"~", b"~~~~~~~~"),
            pause: (b"#", b"########"),
            attempt: (b"=", b"========"),
        },
        Look::Unicode => Signs {
            left: " │".as_bytes(),
            right: "│ ".as_bytes(),
            answer: "●".as_bytes(),
            won: "✓".as_bytes(),
            failed: "✕".as_bytes(),
            over: "▸".as_bytes(),
            wait: ("┄".as_bytes(), "┄┄┄┄┄┄┄┄".as_bytes()),
            pause: ("░".as_bytes(), "░░░░░░░░".as_bytes()),
            attempt: ("━".as_bytes(), "━━━━━━━━".as_bytes()),
        },
    }
}

impl Signs {
    /// The sign of an attempt's end.
    pub(crate) fn of(self, became: Said) -> &'static [u8] {
        match became {
            Said::Won => self.won,
            Said::Failed => self.failed,
            _ => self.over,
        }
    }
}
