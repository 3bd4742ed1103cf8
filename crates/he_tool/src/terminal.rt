//! The terminal, by the environment.

use he_command::{System, Terminal};
use he_options::limits::{LEAST_WIDTH, MOST_WIDTH};
use std::env;

// The variables that name the locale: the first that has a value does (POSIX.1-2017 section 8.2).
const LOCALES: [&str; 3] = ["LC_ALL", "LC_CTYPE", "LANG"];

// Its columns are those of COLUMNS, 40 to 1,000, and 80 if that is not a number. Without a locale it shows Unicode.
pub(crate) fn terminal_of<R: System>(rt: &R) -> Terminal {
    Terminal {
        columns: columns_of(rt),
        is_ascii: is_ascii(rt),
    }
}

fn columns_of<R: System>(rt: &R) -> u16 {
    let Ok(text) = env::var(rt, "COLUMNS") else {
        return Terminal::USUAL.columns;
    };
    match text.parse::<u16>() {
        Ok(columns) => columns.max(LEAST_WIDTH).min(MOST_WIDTH),
        Err(_) => Terminal::USUAL.columns,
    }
}

// Whether there is a locale, and its encoding is not UTF-8.
fn is_ascii<R: System>(rt: &R) -> bool {
    for name in LOCALES {
        if let Ok(locale) = env::var(rt, name)
            && !locale.is_empty()
        {
            return !is_utf8(locale.as_str());
        }
    }
    false
}

// Whether the encoding of a locale, as `C.UTF-8` or `de_DE.utf8@euro`, is UTF-8.
fn is_utf8(locale: &str) -> bool {
    let name = match locale.split_once('@') {
        Some((name, _)) => name,
        None => locale,
    };
    let encoding = match name.split_once('.') {
        Some((_, encoding)) => encoding,
        None => name,
    };
    encoding.eq_ignore_ascii_case("UTF-8") || encoding.eq_ignore_ascii_case("UTF8")
}
