// Writes timelines to texts.

ghost use Rattle.std.specs.Prelude.{◌≡◌, ◌++◌, OnOk, OnErr};
ghost use Rattle.std.specs.List.{flat_map};
ghost use Rattle.he_timeline.specs.Race.{reply_of};
ghost use Rattle.he_words.specs.Appending.{AppendsText};
ghost use Rattle.he_write.specs.Written.{setting_text, delays_text, bounds_text, floor_text, settings_text, version_of, top_text, reply_text, answer_text, answers_text, rtt_text, used_text, history_text, outcome_text, pause_text, told_text, row_text, host_source_text, host_route_text, host_text, selection_text, timeline_text};

use crate::writing::{Token, write_line, write_listed};
use he_addr::{Family, Ip, Memory};
use he_select::{Host, Route, Row, Source};
use he_timeline::{Outcome, Settings, Timeline};
use he_words::Version;
use std::alloc::Allocator;

fn write_setting<A: Allocator + Copy>(
    name: &[u8],
    value: u64,
    out: &mut Vec<u8, A>,
) -> Result<(), Memory>
    ensures { AppendsText result out.old.items out.new.items (setting_text name.now value) }
{
    write_line(b"set", &[Token::Word(name), Token::Number(value)], out)
}

fn write_delays<A: Allocator + Copy>(settings: Settings, out: &mut Vec<u8, A>) -> Result<(), Memory>
    ensures { AppendsText result out.old.items out.new.items (delays_text settings) }
{
    write_setting(b"resolution", settings.resolution(), out)?;
    write_setting(b"attempt", settings.attempt(), out)
}

fn write_bounds<A: Allocator + Copy>(settings: Settings, out: &mut Vec<u8, A>) -> Result<(), Memory>
    ensures { AppendsText result out.old.items out.new.items (bounds_text settings) }
{
    write_setting(b"count", settings.count(), out)?;
    write_setting(b"limit", settings.limit(), out)
}

fn write_floor<A: Allocator + Copy>(floor: Option<u64>, out: &mut Vec<u8, A>) -> Result<(), Memory>
    ensures { AppendsText result out.old.items out.new.items (floor_text floor) }
{
    match floor {
        Some(floor) => write_setting(b"floor", floor, out),
        None => Ok(()),
    }
}

fn write_limits<A: Allocator + Copy>(settings: Settings, out: &mut Vec<u8, A>) -> Result<(), Memory>
    ensures { AppendsText result out.old.items out.new.items (bounds_text settings ++ floor_text settings.floor) }
{
    write_bounds(settings, out)?;
    write_floor(settings.floor(), out)
}

fn write_settings<A: Allocator + Copy>(
    settings: Settings,
    out: &mut Vec<u8, A>,
) -> Result<(), Memory>
    ensures { AppendsText result out.old.items out.new.items (settings_text settings) }
{
    write_delays(settings, out)?;
    write_limits(settings, out)
}

// The least version that has the words that the timeline needs.
fn version<B: Allocator>(timeline: &Timeline<B>) -> Version
    ensures { result ≡ version_of timeline.now }
{
    match (
        timeline.settings().floor(),
        timeline.rtts(),
        timeline.used_addresses(),
    ) {
        (None, [], []) => Version::One,
        _ => Version::Two,
    }
}

fn write_top<A: Allocator + Copy, B: Allocator>(
    timeline: &Timeline<B>,
    out: &mut Vec<u8, A>,
) -> Result<(), Memory>
    ensures { AppendsText result out.old.items out.new.items (top_text timeline.now) }
{
    write_line(version(timeline).header(), &[], out)?;
    write_settings(timeline.settings(), out)
}

// policy PREFIX PRECEDENCE LABEL
fn write_row<A: Allocator + Copy>(row: Row, out: &mut Vec<u8, A>) -> Result<(), Memory>
    ensures { AppendsText result out.old.items out.new.items (row_text row) }
{
    let tokens = [
        Token::Prefix(&row.prefix),
        Token::Number(u64::from(row.precedence)),
        Token::Number(u64::from(row.label)),
    ];
    write_line(b"policy", &tokens, out)
}

fn write_rows<A: Allocator + Copy>(rows: &[Row], out: &mut Vec<u8, A>) -> Result<(), Memory>
    ensures { AppendsText result out.old.items out.new.items (flat_map row_text rows.now) }
{
    for row in rows {
        write_row(*row, out)?;
    }
    Ok(())
}

// source SOURCE INTERFACE [deprecated] [temporary]
fn write_source<A: Allocator + Copy>(source: Source, out: &mut Vec<u8, A>) -> Result<(), Memory>
    ensures { AppendsText result out.old.items out.new.items (host_source_text source) }
{
    let address = Token::Source(&source);
    let interface = Token::Number(u64::from(source.interface));
    let deprecated = Token::Word(b"deprecated");
    let temporary = Token::Word(b"temporary");
    match (source.deprecated, source.temporary) {
        (false, false) => write_line(b"source", &[address, interface], out),
        (true, false) => write_line(b"source", &[address, interface, deprecated], out),
        (false, true) => write_line(b"source", &[address, interface, temporary], out),
        (true, true) => {
            let tokens = [address, interface, deprecated, temporary];
            write_line(b"source", &tokens, out)
        }
    }
}

fn write_sources<A: Allocator + Copy>(
    sources: &[Source],
    out: &mut Vec<u8, A>,
) -> Result<(), Memory>
    ensures { AppendsText result out.old.items out.new.items (flat_map host_source_text sources.now) }
{
    for source in sources {
        write_source(*source, out)?;
    }
    Ok(())
}

// route PREFIX INTERFACE [tunnel]
fn write_route<A: Allocator + Copy>(route: Route, out: &mut Vec<u8, A>) -> Result<(), Memory>
    ensures { AppendsText result out.old.items out.new.items (host_route_text route) }
{
    let prefix = Token::Dotted(&route.prefix);
    let interface = Token::Number(u64::from(route.interface));
    if route.tunnel {
        return write_line(b"route", &[prefix, interface, Token::Word(b"tunnel")], out);
    }
    write_line(b"route", &[prefix, interface], out)
}

fn write_routes<A: Allocator + Copy>(routes: &[Route], out: &mut Vec<u8, A>) -> Result<(), Memory>
    ensures { AppendsText result out.old.items out.new.items (flat_map host_route_text routes.now) }
{
    for route in routes {
        write_route(*route, out)?;
    }
    Ok(())
}

fn write_host<A: Allocator + Copy, B: Allocator>(
    host: &Host<B>,
    out: &mut Vec<u8, A>,
) -> Result<(), Memory>
    ensures { AppendsText result out.old.items out.new.items (host_text host.now) }
{
    write_sources(host.sources(), out)?;
    write_routes(host.routes(), out)
}

// The policy table and the host.
fn write_selection<A: Allocator + Copy, B: Allocator>(
    timeline: &Timeline<B>,
    out: &mut Vec<u8, A>,
) -> Result<(), Memory>
    ensures { AppendsText result out.old.items out.new.items (selection_text timeline.now) }
{
    write_rows(timeline.policy().rows().as_slice(), out)?;
    write_host(timeline.host(), out)
}

// WORD TICK none, or WORD TICK ADDRESS ..
fn write_reply<A: Allocator + Copy>(
    word: &[u8],
    tick: u64,
    ips: &[Ip],
    out: &mut Vec<u8, A>,
) -> Result<(), Memory>
    ensures { AppendsText result out.old.items out.new.items (reply_text word.now tick ips.now) }
{
    if ips.is_empty() {
        return write_line(word, &[Token::Number(tick), Token::Word(b"none")], out);
    }
    write_listed(word, tick, ips, out)
}

fn write_answer<A: Allocator + Copy, B: Allocator>(
    timeline: &Timeline<B>,
    word: &[u8],
    family: Family,
    out: &mut Vec<u8, A>,
) -> Result<(), Memory>
    ensures { AppendsText result out.old.items out.new.items (answer_text word.now (reply_of timeline.now family)) }
{
    match timeline.answer(family) {
        Some((tick, ips)) => write_reply(word, tick, ips, out),
        None => Ok(()),
    }
}

fn write_answers<A: Allocator + Copy, B: Allocator>(
    timeline: &Timeline<B>,
    out: &mut Vec<u8, A>,
) -> Result<(), Memory>
    ensures { AppendsText result out.old.items out.new.items (answers_text timeline.now) }
{
    write_answer(timeline, b"aaaa", Family::V6, out)?;
    write_answer(timeline, b"a", Family::V4, out)
}

// rtt ADDRESS N
fn write_rtt<A: Allocator + Copy>(told: (Ip, u64), out: &mut Vec<u8, A>) -> Result<(), Memory>
    ensures { AppendsText result out.old.items out.new.items (rtt_text told) }
{
    write_line(
        b"rtt",
        &[Token::Address(&told.0), Token::Number(told.1)],
        out,
    )
}

fn write_rtts<A: Allocator + Copy>(rtts: &[(Ip, u64)], out: &mut Vec<u8, A>) -> Result<(), Memory>
    ensures { AppendsText result out.old.items out.new.items (flat_map rtt_text rtts.now) }
{
    for told in rtts {
        write_rtt(*told, out)?;
    }
    Ok(())
}

// used ADDRESS
fn write_used<A: Allocator + Copy>(ip: Ip, out: &mut Vec<u8, A>) -> Result<(), Memory>
    ensures { AppendsText result out.old.items out.new.items (used_text ip) }
{
    write_line(b"used", &[Token::Address(&ip)], out)
}

fn write_all_used<A: Allocator + Copy>(ips: &[Ip], out: &mut Vec<u8, A>) -> Result<(), Memory>
    ensures { AppendsText result out.old.items out.new.items (flat_map used_text ips.now) }
{
    for ip in ips {
        write_used(*ip, out)?;
    }
    Ok(())
}

// The knowledge of addresses from earlier connections.
fn write_history<A: Allocator + Copy, B: Allocator>(
    timeline: &Timeline<B>,
    out: &mut Vec<u8, A>,
) -> Result<(), Memory>
    ensures { AppendsText result out.old.items out.new.items (history_text timeline.now.history) }
{
    write_rtts(timeline.rtts(), out)?;
    write_all_used(timeline.used_addresses(), out)
}

fn write_outcome<A: Allocator + Copy>(
    told: (Ip, Outcome),
    out: &mut Vec<u8, A>,
) -> Result<(), Memory>
    ensures { AppendsText result out.old.items out.new.items (outcome_text told) }
{
    let mark = match told.1 {
        Outcome::Ok(_) => b"ok".as_slice(),
        Outcome::Fail(_) => b"fail".as_slice(),
    };
    let tokens = [
        Token::Address(&told.0),
        Token::Word(mark),
        Token::Number(told.1.duration()),
    ];
    write_line(b"connect", &tokens, out)
}

fn write_outcomes<A: Allocator + Copy>(
    outcomes: &[(Ip, Outcome)],
    out: &mut Vec<u8, A>,
) -> Result<(), Memory>
    ensures { AppendsText result out.old.items out.new.items (flat_map outcome_text outcomes.now) }
{
    for told in outcomes {
        write_outcome(*told, out)?;
    }
    Ok(())
}

fn write_pause<A: Allocator + Copy>(pause: (u64, u64), out: &mut Vec<u8, A>) -> Result<(), Memory>
    ensures { AppendsText result out.old.items out.new.items (pause_text pause) }
{
    write_line(
        b"pause",
        &[Token::Number(pause.0), Token::Number(pause.1)],
        out,
    )
}

fn write_pauses<A: Allocator + Copy>(
    pauses: &[(u64, u64)],
    out: &mut Vec<u8, A>,
) -> Result<(), Memory>
    ensures { AppendsText result out.old.items out.new.items (flat_map pause_text pauses.now) }
{
    for pause in pauses {
        write_pause(*pause, out)?;
    }
    Ok(())
}

fn write_told<A: Allocator + Copy, B: Allocator>(
    timeline: &Timeline<B>,
    out: &mut Vec<u8, A>,
) -> Result<(), Memory>
    ensures { AppendsText result out.old.items out.new.items (told_text timeline.now) }
{
    write_outcomes(timeline.outcomes(), out)?;
    write_pauses(timeline.pauses(), out)
}

fn write_told_and_known<A: Allocator + Copy, B: Allocator>(
    timeline: &Timeline<B>,
    out: &mut Vec<u8, A>,
) -> Result<(), Memory>
    ensures { AppendsText result out.old.items out.new.items
        (history_text timeline.now.history ++ told_text timeline.now) }
{
    write_history(timeline, out)?;
    write_told(timeline, out)
}

fn write_events<A: Allocator + Copy, B: Allocator>(
    timeline: &Timeline<B>,
    out: &mut Vec<u8, A>,
) -> Result<(), Memory>
    ensures { AppendsText result out.old.items out.new.items
        (answers_text timeline.now ++ (history_text timeline.now.history ++ told_text timeline.now)) }
{
    write_answers(timeline, out)?;
    write_told_and_known(timeline, out)
}

// Everything after the settings.
fn write_rest<A: Allocator + Copy, B: Allocator>(
    timeline: &Timeline<B>,
    out: &mut Vec<u8, A>,
) -> Result<(), Memory>
    ensures { AppendsText result out.old.items out.new.items
        (selection_text timeline.now
        ++ (answers_text timeline.now ++ (history_text timeline.now.history ++ told_text timeline.now))) }
{
    write_selection(timeline, out)?;
    write_events(timeline, out)
}

fn write_lines<A: Allocator + Copy, B: Allocator>(
    timeline: &Timeline<B>,
    out: &mut Vec<u8, A>,
) -> Result<(), Memory>
    ensures { AppendsText result out.old.items out.new.items
        (top_text timeline.now
        ++ (selection_text timeline.now
        ++ (answers_text timeline.now ++ (history_text timeline.now.history ++ told_text timeline.now)))) }
{
    write_top(timeline, out)?;
    write_rest(timeline, out)
}

fn write_whole<A: Allocator + Copy, B: Allocator>(
    timeline: &Timeline<B>,
    out: &mut Vec<u8, A>,
) -> Result<(), Memory>
    ensures { AppendsText result out.old.items out.new.items (timeline_text timeline.now) }
{
    write_lines(timeline, out)?;
    write_line(b"end", &[], out)
}

/// Appends the text of a timeline: `race 2` if it has a floor, a round trip time or an address used before, otherwise
/// `race 1`; its four settings, and the floor if there is one; all rows of its policy table, with prefixes in IPv6
/// form; the host's sources and its routes, those for IPv4 in IPv4 form; the answers; the round trip times, the
/// addresses used before, the outcomes and the pauses, in the order given; and `end`. On `Memory` the vector is
/// unchanged.
pub fn write_timeline<A: Allocator + Copy, B: Allocator>(
    timeline: &Timeline<B>,
    out: &mut Vec<u8, A>,
) -> Result<(), Memory>
    ensures ok { OnOk result (out.new.items ≡ out.old.items ++ timeline_text timeline.now) }
    ensures err { OnErr result (out.new.items ≡ out.old.items) }
{
    let kept = out.len();
    let written = write_whole(timeline, out);
    if written.is_err() {
        out.truncate(kept);
    }
    written
}
