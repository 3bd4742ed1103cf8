//! The file of users: a line `NAME:PASSWORD` for each.

ghost use Rattle.std.specs.Prelude.{◌≡◌, ◌==◌, IfErr, IfOk, false, option_map, position};
ghost use Rattle.std.specs.List.{list_any};
ghost use Rattle.he_addr.specs.Reading.{cut_in};
ghost use Rattle.he_users.specs.Lines.{AreRead, IsFirstFault, IsLine, fault_in, fault_of, has_length, is_control, is_skipped, lines_of, texts};
ghost use Rattle.he_users.specs.Users.{is_open};

use crate::fault::{LineFault, UsersFault};
use crate::users::{User, Users};
use he_addr::Memory;
use std::alloc::Global;

const LINE_END: u8 = b'\n';

const COMMENT: u8 = b'#';

const COLON: u8 = b':';

/// The maximum number of octets of a name, and of a password (RFC 1929 section 2).
pub const MOST_TEXT: usize = 255;

// A line of the file.
#[derive(Clone, Copy)]
enum Line<'t> {
    // Empty, or a comment.
    Skipped,
    // A name and a password.
    User(&'t [u8], &'t [u8]),
    Wrong(LineFault),
}

/// Reads the users of a file: a line `NAME:PASSWORD` for each, where the password begins after the first colon. Empty
/// lines, and lines that begin with `#`, are skipped. A name may have several lines: each of their passwords is its.
///
/// # Errors
///
/// `Line` for the first wrong line, `NoUser` if no line has a user, `Memory`.
pub fn read_users(alloc: Global, text: &[u8]) -> Result<Users, UsersFault>
    ensures users { IfOk result (AreRead (lines_of text.now)) }
    ensures some { IfOk result (λ users. is_open users ≡ false) }
    ensures fault { IfErr result (IsFirstFault (lines_of text.now)) }
{
    let lines = lines(alloc, text)?;
    let users = users_of(alloc, &lines)?;
    if users.is_open() {
        return Err(UsersFault::NoUser);
    }
    Ok(users)
}

// The users of the lines.
fn users_of(alloc: Global, lines: &[&[u8]]) -> Result<Users, UsersFault>
    ensures users { IfOk result (AreRead (texts lines.now)) }
    ensures fault { IfErr result (IsFirstFault (texts lines.now)) }
{
    let mut users = Vec::new(alloc);
    for (at, line) in lines.iter().enumerate() {
        match read_line(line) {
            Line::Skipped => {}
            Line::User(name, password) => {
                users.push(user_of(alloc, name, password)?)?;
            }
            Line::Wrong(fault) => return Err(UsersFault::Line(at as u64 + 1, fault)),
        }
    }
    Ok(Users { users })
}

fn user_of(alloc: Global, name: &[u8], password: &[u8]) -> Result<User, Memory>
    ensures { IfOk result (λ user. (user.name.items ≡ name.now) × (user.password.items ≡ password.now)) }
{
    Ok(User {
        name: Vec::from_slice(alloc, name)?,
        password: Vec::from_slice(alloc, password)?,
    })
}

fn read_line(line: &[u8]) -> Line<'_>
    ensures { IsLine line.now result }
{
    if is_skipped(line) {
        return Line::Skipped;
    }
    match cut(line) {
        Some((name, password)) => match fault_of(line, name, password) {
            Some(fault) => Line::Wrong(fault),
            None => Line::User(name, password),
        },
        None => Line::Wrong(LineFault::NoColon),
    }
}

fn is_skipped(line: &[u8]) -> bool
    ensures { result ≡ is_skipped line.now }
{
    match line {
        [first, ..] => *first == COMMENT,
        [] => true,
    }
}

// Why a line of this name and password is wrong.
fn fault_of(line: &[u8], name: &[u8], password: &[u8]) -> Option<LineFault>
    ensures { result ≡ fault_of line.now name.now password.now }
{
    if !has_length(name) || !has_length(password) {
        Some(LineFault::Length)
    } else if has_control(line) {
        Some(LineFault::Control)
    } else {
        None
    }
}

fn has_length(text: &[u8]) -> bool
    ensures { result ≡ has_length text.now }
{
    1 <= text.len() && text.len() <= MOST_TEXT
}

fn has_control(text: &[u8]) -> bool
    ensures { result ≡ list_any is_control text.now }
{
    text.iter().any(|octet| is_control(*octet))
}

fn is_control(octet: u8) -> bool
    ensures { result ≡ is_control octet }
{
    octet < b' ' || octet == 127
}

fn find(text: &[u8]) -> Option<usize>
    ensures { result ≡ position (λ octet. octet == 58) text.now }
{
    text.iter().position(|octet| *octet == COLON)
}

// The text before the first colon, and the text after it.
#[tactic(auto, unfolding(he_addr::specs::Reading::cut_in))]
pub(crate) fn cut(text: &[u8]) -> Option<(&[u8], &[u8])>
    ensures { option_map (λ parts. (parts.0.now, parts.1.now)) result ≡ cut_in 58 text.now }
{
    let at = find(text)?;
    Some((&text[..at], &text[at + 1..]))
}

fn lines(alloc: Global, text: &[u8]) -> Result<Vec<&[u8]>, Memory>
    ensures { IfOk result (λ lines. texts lines.items ≡ lines_of text.now) }
{
    text.split(|octet| *octet == LINE_END).collect(alloc)
}
