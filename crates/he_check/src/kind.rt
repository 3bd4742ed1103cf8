// The words for the kinds of faults.
ghost use Rattle.std.specs.Prelude.{◌≡◌, ◌++◌, OnOk};
ghost use Rattle.he_check.specs.Kinds.{kind_text, rows_of, word_of};

use he_addr::{Memory, write_number};
use he_select::PolicyFault;
use he_words::TextKind;
use std::alloc::Allocator;

// Appends the words for a kind of fault.
pub(crate) fn append_kind<A: Allocator + Copy>(
    kind: TextKind,
    text: &mut Vec<u8, A>,
) -> Result<(), Memory>
    ensures { OnOk result (text.new.items ≡ text.old.items ++ kind_text kind) }
{
    text.extend_from_slice(word(kind))?;
    append_rows(kind, text)
}

// The words of a kind, without the rows of a policy table.
fn word(kind: TextKind) -> &'static [u8]
    ensures { result.now ≡ word_of kind }
{
    match kind {
        TextKind::Header => b"header",
        TextKind::Word => b"word",
        TextKind::Number => b"number",
        TextKind::Address => b"address",
        TextKind::Prefix => b"prefix",
        TextKind::Repeated => b"repeated",
        TextKind::Range => b"range",
        TextKind::TooMany => b"too many",
        TextKind::Unfinished => b"unfinished",
        TextKind::Policy(PolicyFault::Size) => b"policy has no row or too many",
        TextKind::Policy(PolicyFault::Repeated(_)) => b"policy row ",
        TextKind::Policy(PolicyFault::NoDefault) => b"policy has no ::/0",
        TextKind::Policy(PolicyFault::NoMapped) => b"policy has no ::ffff:0:0/96",
        TextKind::Policy(PolicyFault::SharedPrecedence(_, _)) => b"policy rows ",
        TextKind::Policy(PolicyFault::Memory) | TextKind::Memory => b"out of memory",
    }
}

// Appends the rows of a policy table that a fault names, and its words.
fn append_rows<A: Allocator + Copy>(kind: TextKind, text: &mut Vec<u8, A>) -> Result<(), Memory>
    ensures { OnOk result (text.new.items ≡ text.old.items ++ rows_of kind) }
{
    match kind {
        TextKind::Policy(PolicyFault::Repeated(row)) => {
            write_number(row as u64, text)?;
            text.extend_from_slice(b" repeats an earlier prefix")?;
            Ok(())
        }
        TextKind::Policy(PolicyFault::SharedPrecedence(row, later)) => {
            write_number(row as u64, text)?;
            text.extend_from_slice(b" and ")?;
            write_number(later as u64, text)?;
            text.extend_from_slice(b" share a precedence")?;
            Ok(())
        }
        _ => Ok(()),
    }
}
