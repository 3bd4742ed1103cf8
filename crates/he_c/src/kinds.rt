// The exported words of a kind of fault.

ghost use Rattle.std.specs.Prelude.{◌≡◌, ◌≢◌, None};
ghost use Rattle.he_c.specs.Answers.{Leaves};
ghost use Rattle.he_c.specs.Kinds.{kind_words};
ghost use Rattle.he_c.specs.declared.codes.TheConstants.{NO_MEMORY};

use crate::answer::{CallDetails, leave};
use crate::codes::{
    ADDRESS, HEADER, NO_DEFAULT_ROW, NO_MAPPED_ROW, NUMBER, PREFIX, RANGE, REPEATED,
    SHARED_PRECEDENCE, TOO_MANY, UNFINISHED, WORD,
};

/// Writes the words of the kind of fault with this number; nothing if no fault has it.
#[unsafe(no_mangle)]
pub extern "C" fn he_kind_text(kind: u32, buffer: &mut [u8], details: &mut CallDetails) -> u32
    ensures left { Leaves (kind_words kind) None buffer.old buffer.new details.new result }
    ensures done { result ≢ NO_MEMORY }
{
    leave(kind_words(kind), None, buffer, details)
}

fn kind_words(kind: u32) -> &'static [u8]
    ensures { result.now ≡ kind_words kind }
{
    match kind {
        HEADER => b"header",
        WORD => b"word",
        NUMBER => b"number",
        ADDRESS => b"address",
        PREFIX => b"prefix",
        REPEATED => b"repeated",
        RANGE => b"range",
        TOO_MANY => b"too many",
        UNFINISHED => b"unfinished",
        NO_DEFAULT_ROW => b"policy has no ::/0",
        NO_MAPPED_ROW => b"policy has no ::ffff:0:0/96",
        SHARED_PRECEDENCE => b"policy rows share a precedence",
        _ => b"",
    }
}
