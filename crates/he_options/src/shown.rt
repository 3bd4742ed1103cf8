//! The words of a line, as a terminal may show them.
ghost use Rattle.std.specs.Prelude.{◌≡◌, ◌<◌, ◌++◌, IfOk, OnOk};
ghost use Rattle.std.specs.String.{string_bytes};
ghost use Rattle.he_options.specs.Shown.{code_text, digit, shown, shown_char};

use he_addr::Memory;
use std::alloc::Global;

/// A word without the characters that control a terminal: a tab, a CR and a backslash are `\t`, `\r` and `\\`, each
/// other control character is `\x` and two digits to base 16.
///
/// # Errors
///
/// `Memory` where memory was refused.
pub fn shown(alloc: Global, text: &str) -> Result<String, Memory>
    ensures { IfOk result (λ made. string_bytes made ≡ shown text.now) }
{
    let mut made = String::new(alloc);
    for c in text.chars() {
        append_char(c, &mut made)?;
    }
    Ok(made)
}

/// A text of several lines, shown in this way; lines stay lines, and a backslash stays one.
///
/// # Errors
///
/// `Memory` where memory was refused.
pub fn shown_lines(alloc: Global, text: &str) -> Result<String, Memory> {
    let mut made = String::new(alloc);
    for c in text.chars() {
        match c {
            '\n' | '\\' => made.push(c)?,
            _ => append_char(c, &mut made)?,
        }
    }
    Ok(made)
}

fn append_char(c: char, made: &mut String) -> Result<(), Memory>
    ensures { OnOk result (string_bytes made.new ≡ string_bytes made.old ++ shown_char c) }
{
    match c {
        '\t' => made.push_str("\\t"),
        '\r' => made.push_str("\\r"),
        '\\' => made.push_str("\\\\"),
        _ if c.is_control() => append_code(c as u32, made),
        _ => made.push(c),
    }
}

// As `\x1b`.
fn append_code(code: u32, made: &mut String) -> Result<(), Memory>
    ensures { OnOk result (string_bytes made.new ≡ string_bytes made.old ++ code_text code) }
{
    made.push_str("\\x")?;
    made.push(digit(code / 16 % 16))?;
    made.push(digit(code % 16))
}

// The digit to base 16.
fn digit(number: u32) -> char
    requires { number < 16 }
    ensures { result ≡ digit number }
{
    let number = number as u8;
    char::from(if number < 10 {
        b'0' + number
    } else {
        b'a' + number - 10
    })
}
