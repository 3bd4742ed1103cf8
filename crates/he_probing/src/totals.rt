//! The counts of several rounds, by address.

use crate::columns::{Cells, ip_cell, number_cell, word_cell, write_columns};
use crate::recorded::is_failed_attempt;
use crate::rows::AddressRow;
use he_addr::{Ip, Memory};
use he_timeline::Outcome;
use std::alloc::Global;

/// The lines of the counts of rows: for each address the tries, the connections, the failures and the attempts without
/// an answer, and the least, the median and the greatest milliseconds of its connections. Of two in the middle the
/// median is the lesser.
///
/// # Errors
///
/// `Memory` if an allocation fails.
pub fn totals_table(alloc: Global, rows: &[AddressRow]) -> Result<Vec<u8>, Memory> {
    let ips = addresses_in(alloc, rows)?;
    let cells = all_cells(alloc, rows, &ips)?;
    let mut text = Vec::new(alloc);
    write_columns(alloc, 1, &cells, &mut text)?;
    Ok(text)
}

// The cells of each of these addresses, below the headings.
fn all_cells(alloc: Global, rows: &[AddressRow], ips: &[Ip]) -> Result<Vec<Cells>, Memory> {
    let mut cells = Vec::new(alloc);
    cells.push(heading_cells(alloc)?)?;
    for ip in ips {
        cells.push(cells_of(alloc, rows, *ip)?)?;
    }
    Ok(cells)
}

fn heading_cells(alloc: Global) -> Result<Cells, Memory> {
    let mut cells = Vec::new(alloc);
    cells.push(word_cell(alloc, b"address")?)?;
    cells.push(word_cell(alloc, b"tries")?)?;
    cells.push(word_cell(alloc, b"connected")?)?;
    cells.push(word_cell(alloc, b"failed")?)?;
    cells.push(word_cell(alloc, b"no answer")?)?;
    cells.push(word_cell(alloc, b"min")?)?;
    cells.push(word_cell(alloc, b"median")?)?;
    cells.push(word_cell(alloc, b"max")?)?;
    Ok(cells)
}

// The addresses of the rows, each once, in the order in which they come first.
fn addresses_in(alloc: Global, rows: &[AddressRow]) -> Result<Vec<Ip>, Memory> {
    let mut ips = Vec::new(alloc);
    for row in rows {
        if !has_ip(row.ip, &ips) {
            ips.push(row.ip)?;
        }
    }
    Ok(ips)
}

fn has_ip(ip: Ip, ips: &[Ip]) -> bool {
    ips.iter().any(|other| *other == ip)
}

fn cells_of(alloc: Global, rows: &[AddressRow], ip: Ip) -> Result<Cells, Memory> {
    let times = times_of(alloc, rows, ip)?;
    let last = times.len().saturating_sub(1);
    let mut cells = Vec::new(alloc);
    cells.push(ip_cell(alloc, ip)?)?;
    cells.push(number_cell(alloc, count_tries(rows, ip) as u64)?)?;
    cells.push(number_cell(alloc, count_connections(rows, ip) as u64)?)?;
    cells.push(number_cell(alloc, count_failures(rows, ip) as u64)?)?;
    cells.push(number_cell(alloc, count_silent(rows, ip) as u64)?)?;
    cells.push(time_cell(alloc, times.first().copied())?)?;
    cells.push(time_cell(alloc, times.get(last / 2).copied())?)?;
    cells.push(time_cell(alloc, times.get(last).copied())?)?;
    Ok(cells)
}

fn time_cell(alloc: Global, time: Option<u64>) -> Result<Vec<u8>, Memory> {
    match time {
        Some(millis) => number_cell(alloc, millis),
        None => word_cell(alloc, b"-"),
    }
}

// The milliseconds of the connections to the address, the least first.
fn times_of(alloc: Global, rows: &[AddressRow], ip: Ip) -> Result<Vec<u64>, Memory> {
    let mut times = Vec::new(alloc);
    for row in rows {
        add_time(row, ip, &mut times)?;
    }
    times.sort()?;
    Ok(times)
}

fn add_time(row: &AddressRow, ip: Ip, times: &mut Vec<u64>) -> Result<(), Memory> {
    match row.outcome {
        Some(Outcome::Ok(millis)) if is_at(row, ip) => {
            times.push(millis)?;
            Ok(())
        }
        _ => Ok(()),
    }
}

fn is_at(row: &AddressRow, ip: Ip) -> bool {
    row.ip == ip
}

fn count_tries(rows: &[AddressRow], ip: Ip) -> usize {
    rows.iter().filter(|row| is_at(row, ip)).count()
}

fn count_connections(rows: &[AddressRow], ip: Ip) -> usize {
    rows.iter()
        .filter(|row| is_at(row, ip) && row.has_connected())
        .count()
}

fn count_failures(rows: &[AddressRow], ip: Ip) -> usize {
    rows.iter()
        .filter(|row| is_at(row, ip) && is_failed_attempt(row))
        .count()
}

fn count_silent(rows: &[AddressRow], ip: Ip) -> usize {
    rows.iter()
        .filter(|row| is_at(row, ip) && row.outcome.is_none())
        .count()
}
