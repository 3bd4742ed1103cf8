// The answers of a proxy's rules: `rules.written` has rules and questions, a line each.
//
// A rule is `allow TARGETS FIRST LAST` or `refuse TARGETS FIRST LAST`, for ports from the first to the last. TARGETS
// is `all`, `network=PREFIX`, `host=NAME` or `domain=NAME`. A question is `HOST ADDRESS PORT`, with an IPv4 address
// perhaps that the address embeds. It is asked of the rules above it, up to an empty line.

use crate::files::read;
use he_access::reach::Place;
use he_access::rules::{Network, Ports, Rule, Targets, may_begin, may_go};
use he_addr::{Ip, read_ip, read_number, read_prefix};
use std::alloc::AllocError;
use std::io;
use std::str::from_utf8;

pub(crate) fn show_rules(rt: &HostRuntime) -> io::Result<()> {
    let text = read(rt, "rules", "written")?;
    let Ok(text) = from_utf8(&text) else {
        return Ok(());
    };
    println!(rt; "targets that rules allow")?;
    let mut rules = Vec::new(rt.alloc());
    for line in text.lines() {
        if line.is_empty() {
            rules.clear();
        } else if let Some(rule) = read_rule(line) {
            rules.push(rule).map_err(AllocError::from)?;
        } else if let Some(answer) = answer_to(line, &rules) {
            println!(rt; "{line}: {answer}")?;
        }
    }
    Ok(())
}

fn read_rule(line: &str) -> Option<Rule<'_>> {
    let mut words = line.split(' ');
    let allows = match words.next()? {
        "allow" => true,
        "refuse" => false,
        _ => return None,
    };
    let targets = read_targets(words.next()?)?;
    Some(Rule {
        allows,
        targets,
        ports: Ports {
            first: read_port(words.next()?)?,
            last: read_port(words.next()?)?,
        },
    })
}

fn read_targets(word: &str) -> Option<Targets<'_>> {
    match word.split_once('=') {
        Some(("network", text)) => {
            let prefix = read_prefix(text.as_bytes())?;
            Some(Targets::Network(Network {
                bits: prefix.bits(),
                len: prefix.len(),
            }))
        }
        Some(("host", name)) => Some(Targets::Host(name)),
        Some(("domain", name)) => Some(Targets::Domain(name)),
        _ => Some(Targets::All),
    }
}

fn read_port(word: &str) -> Option<u16> {
    u16::try_from(read_number(word.as_bytes())?).ok()
}

fn answer_to(line: &str, rules: &[Rule<'_>]) -> Option<&'static str> {
    let mut words = line.split(' ');
    let host = words.next()?;
    let ip = read_ip(words.next()?.as_bytes())?;
    let port = read_port(words.next()?)?;
    let embedded = match words.next() {
        Some(word) => embedded_in(word),
        None => None,
    };
    Some(if !may_begin(rules, host, port) {
        "no, before a look-up"
    } else if may_go(rules, host, Place { ip, port }, embedded) {
        "yes"
    } else {
        "no"
    })
}

fn embedded_in(word: &str) -> Option<u32> {
    match read_ip(word.as_bytes())? {
        Ip::V4(number) => Some(number),
        Ip::V6(_) => None,
    }
}
