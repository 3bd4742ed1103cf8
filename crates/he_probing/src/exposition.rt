//! A round as metrics.

use crate::counting::count_connected;
use crate::request::RoundRequest;
use crate::round::Round;
use crate::rows::AddressRow;
use crate::shown::{Piece, family_name, write_result, write_words};
use he_addr::{Ip, Memory};
use he_live::Reason;
use he_print::{Part, write_parts, write_string};
use he_timeline::Outcome;
use std::alloc::Global;

/// The round as an exposition of OpenMetrics, which a text-file collector of Prometheus takes too. Times are seconds.
///
/// # Errors
///
/// `Memory` if an allocation fails.
pub fn metrics(
    alloc: Global,
    request: &RoundRequest<'_>,
    round: &Round,
) -> Result<Vec<u8>, Memory> {
    let labels = labels_of(alloc, request)?;
    let mut text = Vec::new(alloc);
    write_up(&labels, &round.rows, &mut text)?;
    write_addresses(&labels, &round.rows, &mut text)?;
    write_counts(&labels, &round.rows, &mut text)?;
    write_client(&labels, round, &mut text)?;
    write_words(b"# EOF\n", &mut text)?;
    Ok(text)
}

// `{host="www.example.com",port="443"`, to which more labels may be added.
fn labels_of(alloc: Global, request: &RoundRequest<'_>) -> Result<Vec<u8>, Memory> {
    let mut text = Vec::new(alloc);
    write_words(b"{host=", &mut text)?;
    write_string(request.connect.host.as_bytes(), &mut text)?;
    let parts: [Piece; 3] = [
        Part::Words(b",port=\""),
        Part::Number(u64::from(request.connect.port)),
        Part::Words(b"\""),
    ];
    write_parts(&parts, &mut text)?;
    Ok(text)
}

// The lines before a metric's samples.
fn write_help(name: &[u8], help: &[u8], text: &mut Vec<u8>) -> Result<(), Memory> {
    write_words(b"# TYPE ", text)?;
    write_words(name, text)?;
    write_words(b" gauge\n# HELP ", text)?;
    write_words(name, text)?;
    write_words(b" ", text)?;
    write_words(help, text)?;
    write_words(b"\n", text)
}

fn write_up(labels: &[u8], rows: &[AddressRow], text: &mut Vec<u8>) -> Result<(), Memory> {
    write_help(
        b"he_probe_up",
        b"Whether an address of the host connects.",
        text,
    )?;
    write_words(b"he_probe_up", text)?;
    write_words(labels, text)?;
    write_words(up_value(rows), text)
}

fn up_value(rows: &[AddressRow]) -> &'static [u8] {
    if count_connected(rows) > 0 {
        b"} 1\n"
    } else {
        b"} 0\n"
    }
}

fn write_addresses(labels: &[u8], rows: &[AddressRow], text: &mut Vec<u8>) -> Result<(), Memory> {
    write_help(
        b"he_probe_address_seconds",
        b"Time until the address connected or failed.",
        text,
    )?;
    write_each(labels, rows, text)
}

fn write_each(labels: &[u8], rows: &[AddressRow], text: &mut Vec<u8>) -> Result<(), Memory> {
    for row in rows {
        write_address(labels, row, text)?;
    }
    Ok(())
}

// The line of an address that connected or failed.
fn write_address(labels: &[u8], row: &AddressRow, text: &mut Vec<u8>) -> Result<(), Memory> {
    match row.outcome {
        Some(outcome) => write_result_of(labels, row, outcome.duration(), text),
        None => Ok(()),
    }
}

fn write_result_of(
    labels: &[u8],
    row: &AddressRow,
    millis: u64,
    text: &mut Vec<u8>,
) -> Result<(), Memory> {
    write_words(b"he_probe_address_seconds", text)?;
    write_words(labels, text)?;
    write_ip_labels(row.ip, text)?;
    write_result(row, text)?;
    write_words(b"\"} ", text)?;
    write_seconds(millis, text)?;
    write_words(b"\n", text)
}

fn write_ip_labels(ip: Ip, text: &mut Vec<u8>) -> Result<(), Memory> {
    let parts: [Piece; 5] = [
        Part::Words(b",address=\""),
        Part::Ip(ip),
        Part::Words(b"\",family=\""),
        Part::Words(family_name(ip.family())),
        Part::Words(b"\",outcome=\""),
    ];
    write_parts(&parts, text)
}

// Milliseconds as seconds, as `0.252`.
fn write_seconds(millis: u64, text: &mut Vec<u8>) -> Result<(), Memory> {
    let parts: [Piece; 5] = [
        Part::Number(millis / 1_000),
        Part::Words(b"."),
        Part::Number(millis / 100 % 10),
        Part::Number(millis / 10 % 10),
        Part::Number(millis % 10),
    ];
    write_parts(&parts, text)
}

// The number of addresses of each family and result that occur.
fn write_counts(labels: &[u8], rows: &[AddressRow], text: &mut Vec<u8>) -> Result<(), Memory> {
    write_help(
        b"he_probe_addresses",
        b"Addresses by family and outcome.",
        text,
    )?;
    write_kinds(labels, rows, text)
}

// A line for each row that is not alike one before it.
fn write_kinds(labels: &[u8], rows: &[AddressRow], text: &mut Vec<u8>) -> Result<(), Memory> {
    for (place, row) in rows.iter().enumerate() {
        if !rows.iter().take(place).any(|other| is_alike(row, other)) {
            write_count(labels, rows, row, text)?;
        }
    }
    Ok(())
}

fn write_count(
    labels: &[u8],
    rows: &[AddressRow],
    row: &AddressRow,
    text: &mut Vec<u8>,
) -> Result<(), Memory> {
    write_words(b"he_probe_addresses", text)?;
    write_words(labels, text)?;
    write_words(b",family=\"", text)?;
    write_words(family_name(row.ip.family()), text)?;
    write_words(b"\",outcome=\"", text)?;
    write_result(row, text)?;
    write_value(count_alike(rows, row), text)
}

fn write_value(count: usize, text: &mut Vec<u8>) -> Result<(), Memory> {
    let parts: [Piece; 3] = [
        Part::Words(b"\"} "),
        Part::Number(count as u64),
        Part::Words(b"\n"),
    ];
    write_parts(&parts, text)
}

fn count_alike(rows: &[AddressRow], row: &AddressRow) -> usize {
    rows.iter().filter(|other| is_alike(row, other)).count()
}

// Whether the rows are of one family and have one result in words.
fn is_alike(row: &AddressRow, other: &AddressRow) -> bool {
    row.ip.family() == other.ip.family() && has_result_of(row, other)
}

fn has_result_of(row: &AddressRow, other: &AddressRow) -> bool {
    match (row.outcome, other.outcome) {
        (None, None) | (Some(Outcome::Ok(_)), Some(Outcome::Ok(_))) => true,
        (Some(Outcome::Fail(_)), Some(Outcome::Fail(_))) => is_reason(row.reason, other.reason),
        _ => false,
    }
}

// Whether the reasons have the same words.
fn is_reason(one: Reason, other: Reason) -> bool {
    one.words() == other.words() && number_of(one) == number_of(other)
}

fn number_of(reason: Reason) -> u32 {
    match reason {
        Reason::Other(number) => number,
        _ => 0,
    }
}

// The time that a client takes, and the time that it loses, if it connects.
fn write_client(labels: &[u8], round: &Round, text: &mut Vec<u8>) -> Result<(), Memory> {
    match round.course.lost() {
        Some(lost) => write_times(labels, round.course.end(), lost, text),
        None => Ok(()),
    }
}

fn write_times(labels: &[u8], end: u64, lost: u64, text: &mut Vec<u8>) -> Result<(), Memory> {
    write_sample(
        labels,
        b"he_probe_client_seconds",
        b"Time until a client by RFC 8305 has its connection.",
        end,
        text,
    )?;
    write_sample(
        labels,
        b"he_probe_client_lost_seconds",
        b"Time that a client by RFC 8305 loses before it tries the address that connects.",
        lost,
        text,
    )
}

// A metric with one sample, a time.
fn write_sample(
    labels: &[u8],
    name: &[u8],
    help: &[u8],
    millis: u64,
    text: &mut Vec<u8>,
) -> Result<(), Memory> {
    write_help(name, help, text)?;
    write_words(name, text)?;
    write_words(labels, text)?;
    write_words(b"} ", text)?;
    write_seconds(millis, text)?;
    write_words(b"\n", text)
}
