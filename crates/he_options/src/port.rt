//! The port that a line names.
ghost use Rattle.std.specs.Prelude.{◌≡◌, ◌==◌, IfOk, IfSome, not, position, true};
ghost use Rattle.std.specs.Char.{is_ascii_alphabetic};
ghost use Rattle.std.specs.List.{list_all, list_any};
ghost use Rattle.clap.specs.Matches.{found_of};
ghost use Rattle.he_options.specs.Ports.{IsPort, NamesPort, SaysPort, are_apart, is_service, is_sign, port_digits, without_zeros};

use crate::limits::{LEAST_PORT, MOST_PORT, MOST_SERVICE};
use crate::refusal::OptionFault;
use clap::ArgMatches;
use he_addr::read_number;

const HYPHEN: u8 = b'-';

const PLUS: u8 = b'+';

/// The port that a line names.
#[derive(Clone, Copy)]
pub enum Port<'a> {
    /// This one, 1 to 65,535.
    Number(u16),
    /// That of a service, by its name (RFC 6335 section 5.1), as the file of services has it.
    Service(&'a str),
}

/// The port that the line names.
///
/// # Errors
///
/// `Port` where its word says none.
pub fn port_of<'a>(matches: &ArgMatches<'a>) -> Result<Port<'a>, OptionFault>
    ensures is { IfOk result IsPort }
    ensures named { IfOk result (NamesPort (found_of matches.now)) }
{
    let Some(word) = matches.get_str("port") else {
        return Err(OptionFault::Port);
    };
    match read_port(word) {
        Some(port) => Ok(port),
        None => Err(OptionFault::Port),
    }
}

/// The port that a word says; None where it says none.
pub fn read_port<'a>(word: &'a str) -> Option<Port<'a>>
    ensures is { IfSome result IsPort }
    ensures says { IfSome result (SaysPort word.now) }
{
    match read_number(port_digits(word.as_bytes())) {
        Some(number) if LEAST_PORT <= number && number <= MOST_PORT => {
            Some(Port::Number(number as u16))
        }
        _ if is_service(word.as_bytes()) => Some(Port::Service(word)),
        _ => None,
    }
}

fn port_digits(word: &[u8]) -> &[u8]
    ensures { result.now ≡ port_digits word.now }
{
    match word {
        [PLUS, digits @ ..] => without_zeros(digits),
        _ => without_zeros(word),
    }
}

fn without_zeros(digits: &[u8]) -> &[u8]
    ensures { result.now ≡ without_zeros digits.now }
{
    match first_nonzero(digits) {
        Some(at) => &digits[at..],
        None => &[],
    }
}

fn first_nonzero(digits: &[u8]) -> Option<usize>
    ensures { result ≡ position (λ byte. not (byte == 48)) digits.now }
{
    digits.iter().position(|byte| *byte != b'0')
}

fn is_service(name: &[u8]) -> bool
    ensures { result ≡ is_service name.now }
{
    name.len() <= MOST_SERVICE && are_signs(name) && has_letter(name) && are_apart(name)
}

fn are_signs(name: &[u8]) -> bool
    ensures { result ≡ list_all is_sign name.now }
{
    name.iter().all(|byte| is_sign(*byte))
}

fn is_sign(byte: u8) -> bool
    ensures { result ≡ is_sign byte }
{
    byte.is_ascii_alphanumeric() || byte == HYPHEN
}

fn has_letter(name: &[u8]) -> bool
    ensures { result ≡ list_any is_ascii_alphabetic name.now }
{
    name.iter().any(|byte| byte.is_ascii_alphabetic())
}

// Whether each hyphen stands between two other signs.
fn are_apart(name: &[u8]) -> bool
    ensures { result ≡ are_apart true name.now }
{
    let mut is_behind = true;
    for byte in name {
        if is_behind && *byte == HYPHEN {
            return false;
        }
        is_behind = *byte == HYPHEN;
    }
    !is_behind
}
