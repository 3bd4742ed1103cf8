//! A round as a JSON object.
ghost use Rattle.std.specs.Prelude.{◌≡◌, ◌++◌, IfOk, OnOk};
ghost use Rattle.std.specs.List.{flat_map};
ghost use Rattle.std.specs.Option.{unwrap_or};
ghost use Rattle.he_course.specs.Course.{lost};
ghost use Rattle.he_probing.specs.Json.{address_json, at_json, client_json, connection_json, end_json, fastest_json, head_json};
ghost use Rattle.he_probing.specs.Json.{millis_json, next_json};
ghost use Rattle.he_probing.specs.Json.{object_text, port_json, row_json, rows_json, source_json, tail_json, verdict_json};
ghost use Rattle.he_probing.specs.Json.{verdict_name};

use crate::counting::count_connected;
use crate::fastest::Fastest;
use crate::request::RoundRequest;
use crate::round::Round;
use crate::rows::AddressRow;
use crate::shown::{Piece, family_name, millis_of, write_moment, write_result, write_words};
use crate::verdict::Verdict;
use he_addr::{Family, Ip, Memory};
use he_print::{Part, write_parts, write_string};
use he_record::Moment;
use std::alloc::Global;

/// The round as one object in a line:
///
/// ```text
/// {"at":"2026-10-13T08:15:02.731Z","host":"www.example.com","port":443,"addresses":[{"address":"2001:db8::1",
/// "family":"IPv6","source":null,"outcome":"refused","ms":1},..],"connected":1,"verdict":"IPv6 broken",
/// "client":{"address":"198.51.100.1","ms":252,"lost_ms":250},"fastest":{"address":"198.51.100.1","ms":2}}
/// ```
///
/// `at` is null without a time, `client` without a connection, `fastest` if no address connects.
///
/// # Errors
///
/// `Memory` if an allocation fails.
#[tactic(auto, using(std::proofs::lemmas::List::append_assoc))]
pub fn object(alloc: Global, request: &RoundRequest<'_>, round: &Round) -> Result<Vec<u8>, Memory>
    ensures { IfOk result (λ text. text.items ≡ object_text request.now round.now) }
{
    let mut out = Vec::new(alloc);
    write_head(request, round.at, &mut out)?;
    write_rows(request.timeout, &round.rows, &mut out)?;
    write_tail(round, &mut out)?;
    Ok(out)
}

#[tactic(auto, using(std::proofs::lemmas::List::append_assoc))]
fn write_head(
    request: &RoundRequest<'_>,
    at: Option<Moment>,
    out: &mut Vec<u8>,
) -> Result<(), Memory>
    ensures { OnOk result (out.new.items ≡ out.old.items ++ head_json request.now at) }
{
    write_words(b"{\"at\":", out)?;
    write_at(at, out)?;
    write_words(b",\"host\":", out)?;
    write_string(request.connect.host.as_bytes(), out)?;
    write_port(request.connect.port, out)
}

fn write_port(port: u16, out: &mut Vec<u8>) -> Result<(), Memory>
    ensures { OnOk result (out.new.items ≡ out.old.items ++ port_json port) }
{
    let parts: [Piece; 3] = [
        Part::Words(b",\"port\":"),
        Part::Number(u64::from(port)),
        Part::Words(b",\"addresses\":["),
    ];
    write_parts(&parts, out)
}

#[tactic(auto, using(std::proofs::lemmas::List::append_assoc))]
fn write_at(at: Option<Moment>, out: &mut Vec<u8>) -> Result<(), Memory>
    ensures { OnOk result (out.new.items ≡ out.old.items ++ at_json at) }
{
    match at {
        Some(at) => {
            write_words(b"\"", out)?;
            write_moment(at, out)?;
            write_words(b"\"", out)
        }
        None => write_words(b"null", out),
    }
}

// The rows, with a comma between each two.
#[tactic(auto, using(std::proofs::lemmas::List::append_assoc))]
fn write_rows(timeout: u64, rows: &[AddressRow], out: &mut Vec<u8>) -> Result<(), Memory>
    ensures { OnOk result (out.new.items ≡ out.old.items ++ rows_json timeout rows.now) }
{
    match rows.split_first() {
        Some((row, more)) => {
            write_row(timeout, row, out)?;
            write_more(timeout, more, out)
        }
        None => Ok(()),
    }
}

// The rows, each with a comma before it.
fn write_more(timeout: u64, rows: &[AddressRow], out: &mut Vec<u8>) -> Result<(), Memory>
    ensures { OnOk result (out.new.items ≡ out.old.items ++ flat_map (next_json timeout) rows.now) }
{
    for row in rows {
        write_next(timeout, row, out)?;
    }
    Ok(())
}

#[tactic(auto, using(std::proofs::lemmas::List::append_assoc))]
fn write_next(timeout: u64, row: &AddressRow, out: &mut Vec<u8>) -> Result<(), Memory>
    ensures { OnOk result (out.new.items ≡ out.old.items ++ next_json timeout row.now) }
{
    write_words(b",", out)?;
    write_row(timeout, row, out)
}

#[tactic(auto, using(std::proofs::lemmas::List::append_assoc))]
fn write_row(timeout: u64, row: &AddressRow, out: &mut Vec<u8>) -> Result<(), Memory>
    ensures { OnOk result (out.new.items ≡ out.old.items ++ row_json timeout row.now) }
{
    write_address(row.ip, out)?;
    write_source(row.source, out)?;
    write_end(timeout, row, out)
}

#[tactic(auto, using(std::proofs::lemmas::List::append_assoc))]
fn write_end(timeout: u64, row: &AddressRow, out: &mut Vec<u8>) -> Result<(), Memory>
    ensures { OnOk result (out.new.items ≡ out.old.items ++ end_json timeout row.now) }
{
    write_words(b",\"outcome\":\"", out)?;
    write_result(row, out)?;
    write_millis(millis_of(timeout, row), out)
}

fn write_address(ip: Ip, out: &mut Vec<u8>) -> Result<(), Memory>
    ensures { OnOk result (out.new.items ≡ out.old.items ++ address_json ip) }
{
    let parts: [Piece; 5] = [
        Part::Words(b"{\"address\":\""),
        Part::Ip(ip),
        Part::Words(b"\",\"family\":\""),
        Part::Words(family_name(ip.family())),
        Part::Words(b"\",\"source\":"),
    ];
    write_parts(&parts, out)
}

fn write_millis(millis: u64, out: &mut Vec<u8>) -> Result<(), Memory>
    ensures { OnOk result (out.new.items ≡ out.old.items ++ millis_json millis) }
{
    let parts: [Piece; 3] = [
        Part::Words(b"\",\"ms\":"),
        Part::Number(millis),
        Part::Words(b"}"),
    ];
    write_parts(&parts, out)
}

fn write_source(source: Option<Ip>, out: &mut Vec<u8>) -> Result<(), Memory>
    ensures { OnOk result (out.new.items ≡ out.old.items ++ source_json source) }
{
    match source {
        Some(ip) => {
            let parts: [Piece; 3] = [Part::Words(b"\""), Part::Ip(ip), Part::Words(b"\"")];
            write_parts(&parts, out)
        }
        None => write_words(b"null", out),
    }
}

#[tactic(auto, using(std::proofs::lemmas::List::append_assoc))]
fn write_tail(round: &Round, out: &mut Vec<u8>) -> Result<(), Memory>
    ensures { OnOk result (out.new.items ≡ out.old.items ++ tail_json round.now) }
{
    write_verdict(count_connected(&round.rows), round.verdict, out)?;
    write_client(round, out)?;
    write_words(b",\"fastest\":", out)?;
    write_fastest(round.fastest, out)?;
    write_words(b"}\n", out)
}

fn write_verdict(connected: usize, verdict: Verdict, out: &mut Vec<u8>) -> Result<(), Memory>
    ensures { OnOk result (out.new.items ≡ out.old.items ++ verdict_json connected verdict) }
{
    let parts: [Piece; 5] = [
        Part::Words(b"],\"connected\":"),
        Part::Number(connected as u64),
        Part::Words(b",\"verdict\":\""),
        Part::Words(verdict_name(verdict)),
        Part::Words(b"\",\"client\":"),
    ];
    write_parts(&parts, out)
}

fn write_client(round: &Round, out: &mut Vec<u8>) -> Result<(), Memory>
    ensures { OnOk result (out.new.items ≡ out.old.items ++ client_json round.now) }
{
    match round.course.ended.winner {
        Some(winner) => write_connection(winner.ip, round.course.end(), lost_by(round), out),
        None => write_words(b"null", out),
    }
}

fn write_connection(ip: Ip, end: u64, lost: u64, out: &mut Vec<u8>) -> Result<(), Memory>
    ensures { OnOk result (out.new.items ≡ out.old.items ++ connection_json ip end lost) }
{
    let parts: [Piece; 7] = [
        Part::Words(b"{\"address\":\""),
        Part::Ip(ip),
        Part::Words(b"\",\"ms\":"),
        Part::Number(end),
        Part::Words(b",\"lost_ms\":"),
        Part::Number(lost),
        Part::Words(b"}"),
    ];
    write_parts(&parts, out)
}

// The milliseconds that a client loses.
fn lost_by(round: &Round) -> u64
    ensures { result ≡ unwrap_or (lost round.now.course) 0 }
{
    match round.course.lost() {
        Some(lost) => lost,
        None => 0,
    }
}

fn write_fastest(fastest: Option<Fastest>, out: &mut Vec<u8>) -> Result<(), Memory>
    ensures { OnOk result (out.new.items ≡ out.old.items ++ fastest_json fastest) }
{
    match fastest {
        Some(fastest) => {
            let parts: [Piece; 5] = [
                Part::Words(b"{\"address\":\""),
                Part::Ip(fastest.ip),
                Part::Words(b"\",\"ms\":"),
                Part::Number(fastest.ticks),
                Part::Words(b"}"),
            ];
            write_parts(&parts, out)
        }
        None => write_words(b"null", out),
    }
}

fn verdict_name(verdict: Verdict) -> &'static [u8]
    ensures { result.now ≡ verdict_name verdict }
{
    match verdict {
        Verdict::NothingConnects => b"nothing connects",
        Verdict::Broken(Family::V6, _, _) => b"IPv6 broken",
        Verdict::Broken(Family::V4, _, _) => b"IPv4 broken",
        Verdict::SomeFail(_, _) => b"some fail",
        Verdict::AllFine => b"all fine",
    }
}
