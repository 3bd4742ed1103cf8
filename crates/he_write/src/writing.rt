// Writes lines to a text.

ghost use Rattle.std.specs.Prelude.{◌≡◌, ◌++◌, ◌∷◌, [], decimal, map, OnOk, OnErr};
ghost use Rattle.he_addr.specs.Printing.{printed};
ghost use Rattle.he_write.specs.Writing.{token_text, spaced};
ghost use Rattle.he_words.specs.Appending.{AppendsText, Grows};
ghost use Rattle.he_write.specs.Written.{written_line};

use he_addr::{Ip, Memory, Prefix, write_ip, write_number, write_prefix, write_source};
use he_select::Source;
use he_words::{LINE_END, TOKEN_END};
use std::alloc::Allocator;

// The maximum length of a line that is built in a buffer, in bytes. The longest is that of an attempt, `attempt PLACE
// START ADDRESS cancelled TICK`: 8 and 11 bytes of words with their spaces, two more spaces, the line's end, three
// numbers of at most 20 digits and an address of at most 39 bytes are 121. The buffer is cleared for each line, so it
// has no room to spare.
pub(crate) const LINE_ROOM: usize = 121;

// A token of a line. Values larger than two words are borrowed: a line is a list of tokens.
#[derive(Clone, Copy)]
pub(crate) enum Token<'t> {
    Word(&'t [u8]),
    Number(u64),
    Address(&'t Ip),
    // The address of a source, and the length of its prefix.
    Source(&'t Source),
    // A prefix in IPv6 form.
    Prefix(&'t Prefix),
    // A prefix, in IPv4 form if it has only IPv4 addresses.
    Dotted(&'t Prefix),
}

#[inline(always)]
pub(crate) fn write_bytes<A: Allocator + Copy>(
    bytes: &[u8],
    out: &mut Vec<u8, A>,
) -> Result<(), Memory>
    ensures ok { OnOk result (out.new.items ≡ out.old.items ++ bytes.now) }
    ensures err { OnErr result (out.new.items ≡ out.old.items) }
{
    out.extend_from_slice(bytes)
}

#[inline(always)]
pub(crate) fn write_byte<A: Allocator + Copy>(byte: u8, out: &mut Vec<u8, A>) -> Result<(), Memory>
    ensures ok { OnOk result (out.new.items ≡ out.old.items ++ byte ∷ []) }
    ensures err { OnErr result (out.new.items ≡ out.old.items) }
{
    out.push(byte).map_err(|_| Memory)
}

#[inline(always)]
fn write_token<A: Allocator + Copy>(token: Token, out: &mut Vec<u8, A>) -> Result<(), Memory>
    ensures ok { OnOk result (out.new.items ≡ out.old.items ++ token_text token.entry) }
    ensures err { OnErr result (out.new.items ≡ out.old.items) }
{
    match token {
        Token::Word(text) => write_bytes(text, out),
        Token::Number(number) => write_number(number, out),
        Token::Address(ip) => write_ip(*ip, out),
        Token::Source(source) => write_source(source.ip, source.plen, out),
        Token::Prefix(prefix) => write_prefix(*prefix, false, out),
        Token::Dotted(prefix) => write_prefix(*prefix, true, out),
    }
}

// A space and the token.
#[inline(always)]
fn write_spaced<A: Allocator + Copy>(token: Token, out: &mut Vec<u8, A>) -> Result<(), Memory>
    ensures { AppendsText result out.old.items out.new.items (32 ∷ token_text token.entry) }
{
    write_byte(TOKEN_END, out)?;
    write_token(token, out)
}

// The tokens, each after a space.
#[inline(always)]
fn write_tokens<A: Allocator + Copy>(tokens: &[Token], out: &mut Vec<u8, A>) -> Result<(), Memory>
    ensures { AppendsText result out.old.items out.new.items (spaced (map token_text tokens.now)) }
{
    for token in tokens {
        write_spaced(*token, out)?;
    }
    Ok(())
}

// The addresses, each after a space.
fn write_addresses<A: Allocator + Copy>(ips: &[Ip], out: &mut Vec<u8, A>) -> Result<(), Memory>
    ensures { AppendsText result out.old.items out.new.items (spaced (map printed ips.now)) }
{
    for ip in ips {
        write_spaced(Token::Address(ip), out)?;
    }
    Ok(())
}

// A line: its word and the other tokens.
pub(crate) fn write_line<A: Allocator + Copy>(
    word: &[u8],
    others: &[Token],
    out: &mut Vec<u8, A>,
) -> Result<(), Memory>
    ensures { AppendsText result out.old.items out.new.items (written_line (word.now ∷ map token_text others.now)) }
{
    write_bytes(word, out)?;
    write_tokens(others, out)?;
    write_byte(LINE_END, out)
}

// A line of a word, a number and addresses.
pub(crate) fn write_listed<A: Allocator + Copy>(
    word: &[u8],
    number: u64,
    ips: &[Ip],
    out: &mut Vec<u8, A>,
) -> Result<(), Memory>
    ensures { AppendsText result out.old.items out.new.items
        (written_line (word.now ∷ decimal number ∷ map printed ips.now)) }
{
    write_word(word, number, out)?;
    write_addresses(ips, out)?;
    write_byte(LINE_END, out)
}

fn write_word<A: Allocator + Copy>(
    word: &[u8],
    number: u64,
    out: &mut Vec<u8, A>,
) -> Result<(), Memory>
    ensures { AppendsText result out.old.items out.new.items (word.now ++ (32 ∷ decimal number)) }
{
    write_bytes(word, out)?;
    write_spaced(Token::Number(number), out)
}
