//! The text of a race, in the terms of `he_streaming`.
ghost use Rattle.std.specs.Prelude.{◌≡◌, if◌then◌else◌};
ghost use Rattle.he_draw.specs.declared.look.Look.TheVariants.{Ascii, Unicode};
ghost use Rattle.he_tasks.specs.Texts.{content_of};

use he_draw::Look;
use he_options::texts::Content as Asked;
use he_streaming::{Content, Printer};

// The content that `he_streaming` writes for this request, for the text of this place.
pub(crate) fn content_of(place: usize, asked: Asked) -> Content
    ensures { result ≡ content_of place asked }
{
    match asked {
        Asked::Transcript { is_json: false } => Content::Transcript,
        Asked::Transcript { is_json: true } => Content::TranscriptJson,
        Asked::Order { is_json: false } => Content::Order,
        Asked::Order { is_json: true } => Content::OrderJson,
        Asked::ExplanationJson => Content::Course(Printer::Json),
        Asked::Story => Content::Course(Printer::Story),
        Asked::Picture { is_ascii, width } => Content::Course(Printer::Picture {
            look: look_of(is_ascii),
            width,
        }),
        Asked::Image => Content::Course(Printer::Image),
        Asked::Section => Content::Course(Printer::Section { text: place }),
    }
}

fn look_of(is_ascii: bool) -> Look
    ensures { result ≡ (if is_ascii then Ascii else Unicode) }
{
    if is_ascii { Look::Ascii } else { Look::Unicode }
}
