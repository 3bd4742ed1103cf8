//! Writing records as text.

ghost use Rattle.std.specs.Prelude.{◌≡◌, ◌++◌, ◌∷◌, [], map, OnErr, OnOk};
ghost use Rattle.he_words.specs.Appending.{AppendsText};
ghost use Rattle.he_record.specs.Left.{said_of};
ghost use Rattle.he_record.specs.Said.{ServerSaid};
ghost use Rattle.he_record.specs.Words.{first_token, family_spelling, word_spelling};
ghost use Rattle.he_record.specs.Writing.{spaced, token_text};
ghost use Rattle.he_record.specs.Written.{record_text, said_text, values_said};

use crate::line::RecordLine;
use crate::nat64::Nat64Prefix;
use crate::reasons::ServerReason;
use crate::records::Record;
use crate::words::{FIRST_TOKEN, RecordWord};
use he_addr::{Family, Ip, Memory, write_ip, write_number, write_source};
use he_words::{LINE_END, TOKEN_END};
use std::alloc::Allocator;

// A token of a line.
#[derive(Clone, Copy)]
enum Token<'t> {
    Word(&'t [u8]),
    Number(u64),
    Address(Ip),
    Prefix(Nat64Prefix),
}

fn write_bytes<A: Allocator + Copy>(bytes: &[u8], out: &mut Vec<u8, A>) -> Result<(), Memory>
    ensures ok { OnOk result (out.new.items ≡ out.old.items ++ bytes.now) }
    ensures err { OnErr result (out.new.items ≡ out.old.items) }
{
    out.extend_from_slice(bytes)
}

fn write_byte<A: Allocator + Copy>(byte: u8, out: &mut Vec<u8, A>) -> Result<(), Memory>
    ensures ok { OnOk result (out.new.items ≡ out.old.items ++ byte ∷ []) }
    ensures err { OnErr result (out.new.items ≡ out.old.items) }
{
    out.push(byte).map_err(|_| Memory)
}

fn write_token<A: Allocator + Copy>(token: Token, out: &mut Vec<u8, A>) -> Result<(), Memory>
    ensures ok { OnOk result (out.new.items ≡ out.old.items ++ token_text token.entry) }
    ensures err { OnErr result (out.new.items ≡ out.old.items) }
{
    match token {
        Token::Word(text) => write_bytes(text, out),
        Token::Number(number) => write_number(number, out),
        Token::Address(ip) => write_ip(ip, out),
        Token::Prefix(prefix) => write_source(Ip::V6(prefix.bits), prefix.len, out),
    }
}

// Appends a space and the token.
fn write_one<A: Allocator + Copy>(token: Token, out: &mut Vec<u8, A>) -> Result<(), Memory>
    ensures { AppendsText result out.old.items out.new.items (32 ∷ token_text token.entry) }
{
    write_byte(TOKEN_END, out)?;
    write_token(token, out)
}

// Appends two tokens, each after a space.
fn write_two<A: Allocator + Copy>(
    first: Token,
    second: Token,
    out: &mut Vec<u8, A>,
) -> Result<(), Memory>
    ensures { AppendsText result out.old.items out.new.items
        (spaced (token_text first.entry ∷ token_text second.entry ∷ [])) }
{
    write_one(first, out)?;
    write_one(second, out)
}

fn family_word(family: Family) -> &'static str
    ensures { result.now ≡ family_spelling family }
{
    match family {
        Family::V6 => "aaaa",
        Family::V4 => "a",
    }
}

// Appends the tokens of `record server ADDRESS REASON N` after the word.
fn write_server<A: Allocator + Copy>(
    ip: Ip,
    reason: ServerReason,
    ticks: u64,
    out: &mut Vec<u8, A>,
) -> Result<(), Memory>
    ensures { AppendsText result out.old.items out.new.items (spaced (values_said (ServerSaid ip reason ticks))) }
{
    write_two(
        Token::Address(ip),
        Token::Word(reason.spelling().as_bytes()),
        out,
    )?;
    write_one(Token::Number(ticks), out)
}

// Appends the tokens after the word of a line, each after a space.
fn write_values<A: Allocator + Copy>(
    line: &RecordLine<'_>,
    out: &mut Vec<u8, A>,
) -> Result<(), Memory>
    ensures { AppendsText result out.old.items out.new.items (spaced (values_said (said_of line.now))) }
{
    match line {
        RecordLine::At(moment) => write_one(Token::Word(&moment.text()), out),
        RecordLine::To(host, port) => {
            write_two(Token::Word(host), Token::Number(u64::from(*port)), out)
        }
        RecordLine::From(ip) => write_one(Token::Address(*ip), out),
        RecordLine::Lookup(family, reason) => {
            let family = Token::Word(family_word(*family).as_bytes());
            write_two(family, Token::Word(reason.spelling().as_bytes()), out)
        }
        RecordLine::Nat64(prefix) => write_one(Token::Prefix(*prefix), out),
        RecordLine::Server(ip, reason, ticks) => write_server(*ip, *reason, *ticks, out),
        RecordLine::Attempt(ip, reason) => {
            let reason = Token::Word(reason.spelling().as_bytes());
            write_two(Token::Address(*ip), reason, out)
        }
        RecordLine::Untried(ip) => write_one(Token::Address(*ip), out),
        RecordLine::End(end) => write_one(Token::Number(end.ticks()), out),
    }
}

// Appends the first two tokens of a line.
fn write_head<A: Allocator + Copy>(word: RecordWord, out: &mut Vec<u8, A>) -> Result<(), Memory>
    ensures { AppendsText result out.old.items out.new.items (first_token ++ 32 ∷ word_spelling word) }
{
    write_bytes(FIRST_TOKEN, out)?;
    write_one(Token::Word(word.spelling().as_bytes()), out)
}

// Appends a line and its line end.
fn write_line<A: Allocator + Copy>(
    line: &RecordLine<'_>,
    out: &mut Vec<u8, A>,
) -> Result<(), Memory>
    ensures { AppendsText result out.old.items out.new.items (said_text (said_of line.now)) }
{
    write_head(line.word(), out)?;
    write_values(line, out)?;
    write_byte(LINE_END, out)
}

fn write_lines<A: Allocator + Copy>(
    lines: &[RecordLine<'_>],
    out: &mut Vec<u8, A>,
) -> Result<(), Memory>
    ensures { AppendsText result out.old.items out.new.items (record_text (map said_of lines.now)) }
{
    for line in lines {
        write_line(line, out)?;
    }
    Ok(())
}

/// Appends the text of the record, a line for each of its lines, with addresses as in RFC 5952. After `Memory` the
/// vector is unchanged.
pub fn write_record<A: Allocator + Copy, B: Allocator>(
    told: &Record<'_, B>,
    out: &mut Vec<u8, A>,
) -> Result<(), Memory>
    ensures ok { OnOk result (out.new.items ≡ out.old.items ++ record_text told.now) }
    ensures err { OnErr result (out.new.items ≡ out.old.items) }
{
    let kept = out.len();
    let written = write_lines(told.lines(), out);
    if written.is_err() {
        out.truncate(kept);
    }
    written
}
