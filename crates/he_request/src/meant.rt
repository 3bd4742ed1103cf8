//! The meaning of a line of `he connect` in which HOST and PORT are not two words.

use he_options::Refusal;
use he_options::port::read_port;
use std::alloc::Global;

// The options of `he connect` that a value follows.
const WITH_VALUE: [&str; 7] = [
    "--timeout",
    "--set",
    "--wait",
    "--machine",
    "--resolver",
    "--record",
    "--warn",
];

// The host and the port that a line means.
#[derive(Clone, Copy)]
struct Meant<'a> {
    host: &'a str,
    port: &'a str,
}

// The refusal that has the line which works, where the words mean a host and a port: by a URL, by HOST:PORT or by
// `-p PORT`. Else this one.
pub(crate) fn or_meant(alloc: Global, words: &[&str], refusal: Refusal) -> Refusal {
    let Some(Meant { host, port }) = meant_by(words) else {
        return refusal;
    };
    match format!(in alloc; "he connect {host} {port}") {
        Ok(line) => Refusal::Meant(line),
        Err(_) => Refusal::Memory,
    }
}

fn meant_by<'a>(words: &[&'a str]) -> Option<Meant<'a>> {
    let (mut host, mut port) = (None, None);
    let mut is_by_option = false;
    let mut before = "";
    for word in words.get(2..).unwrap_or(&[]) {
        if is_port_option(before) || is_place(before, word) && host.is_some() {
            is_by_option |= is_port_option(before);
            port = port.or(Some(*word));
        } else if is_place(before, word) {
            host = Some(*word);
        }
        before = *word;
    }
    let word = host?;
    let meant = split(word, port);
    let are_two = meant.host == word && !is_by_option;
    if are_two || meant.host.is_empty() || read_port(meant.port).is_none() {
        None
    } else {
        Some(meant)
    }
}

fn is_port_option(word: &str) -> bool {
    word == "-p" || word == "--port"
}

// Whether the word is an operand, where it comes after that one.
fn is_place(before: &str, word: &str) -> bool {
    !word.starts_with('-') && !WITH_VALUE.iter().any(|option| *option == before)
}

// The host and the port of a URL, of HOST:PORT, or of a host with the port that the line has beside it.
fn split<'a>(word: &'a str, port: Option<&'a str>) -> Meant<'a> {
    let (scheme, rest) = match word.split_once("://") {
        Some((scheme, rest)) => (Some(scheme), until_path(rest)),
        None => (None, word),
    };
    let (host, own) = host_and_port(rest);
    Meant {
        host,
        port: port.or(own).or(scheme).unwrap_or(""),
    }
}

// The authority of a URL without its user (RFC 3986 section 3.2).
fn until_path(rest: &str) -> &str {
    let authority = match rest.split_once('/') {
        Some((authority, _)) => authority,
        None => rest,
    };
    match authority.split_once('@') {
        Some((_, host)) => host,
        None => authority,
    }
}

fn host_and_port(text: &str) -> (&str, Option<&str>) {
    if let Some(inner) = text.strip_prefix("[") {
        return match inner.split_once(']') {
            Some((host, after)) => (host, after.strip_prefix(":")),
            None => (text, None),
        };
    }
    match text.split_once(':') {
        Some((host, port)) if !port.contains(':') => (host, Some(port)),
        _ => (text, None),
    }
}
