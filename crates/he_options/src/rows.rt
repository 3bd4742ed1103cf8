//! The rows of a comparison: `--set attempt=100,150` makes one of `attempt=100`, and one of `attempt=150`.
ghost use Rattle.std.specs.Prelude.{◌≡◌, ◌++◌, ◌∷◌, [], IfOk, OnOk, codes, length, map, string_bytes};
ghost use Rattle.std.specs.List.{after_first, before_first};
ghost use Rattle.clap.specs.Matches.{found_of};
ghost use Rattle.he_options.specs.Rows.{AreRows, is_equals, labels_of, list_of, number_at, numbers_in, row_count};
ghost use Rattle.he_options.specs.Rows.{text_in};
ghost use Rattle.he_options.specs.Words.{values_of};

use crate::arguments::values_of;
use crate::refusal::{OptionFault, Refusal};
use crate::settings::changes_in;
use clap::ArgMatches;
use he_addr::Memory;
use he_timeline::Changes;
use std::alloc::Global;

// The most numbers that a list has.
const MOST_ROWS: usize = 64;

/// The settings of each row, and the words for them.
#[derive(Drop)]
pub struct Rows {
    pub changes: Vec<Changes>,
    pub labels: Vec<String>,
}

/// The rows of a comparison: the recorded settings, and the settings that the line gives, one row for each number of
/// a list.
///
/// # Errors
///
/// `Option` where a text is no setting, a number is out of its range, or two names have lists or one is too long;
/// `Memory`.
pub fn rows_of(alloc: Global, matches: &ArgMatches<'_>) -> Result<Rows, Refusal>
    ensures changes { IfOk result (λ rows. AreRows (values_of (found_of matches.now) (codes "set"))
        rows.changes.items) }
    ensures labels { IfOk result (λ rows. map string_bytes rows.labels.items
        ≡ labels_of (values_of (found_of matches.now) (codes "set"))) }
{
    let texts = values_of(matches, "set");
    let mut changes = Vec::new(alloc);
    let mut labels = Vec::new(alloc);
    push(Changes::none(), &mut changes)?;
    push(String::from_str(alloc, "as recorded")?, &mut labels)?;
    for row in 0..row_count(texts)? {
        let made = texts_in(alloc, row, texts)?;
        let words = words_of(alloc, made.as_slice())?;
        push(changes_in(words.as_slice(), None)?, &mut changes)?;
        push(words.join(alloc, " ")?, &mut labels)?;
    }
    Ok(Rows { changes, labels })
}

fn push<T: Drop>(item: T, items: &mut Vec<T>) -> Result<(), Memory>
    ensures { OnOk result (items.new.items ≡ items.old.items ++ item ∷ []) }
{
    items.push(item)?;
    Ok(())
}

// How many rows the texts make: one of them may have several numbers.
fn row_count(texts: &[&str]) -> Result<usize, OptionFault>
    ensures { IfOk result (λ count. count ≡ row_count (map (λ text. text.now) texts.now)) }
{
    let mut rows = 0;
    for text in texts {
        let count = number_count(list_of(text));
        if count > 1 && rows > 1 || count > MOST_ROWS {
            return Err(OptionFault::Lists);
        }
        rows = rows.max(count);
    }
    Ok(rows)
}

// The texts of a row.
fn texts_in(alloc: Global, row: usize, texts: &[&str]) -> Result<Vec<String>, Memory>
    ensures { IfOk result (λ made. map string_bytes made.items
        ≡ map (text_in row) (map (λ text. text.now) texts.now)) }
{
    let mut made = Vec::new(alloc);
    for text in texts {
        made.push(text_in(alloc, row, text)?)?;
    }
    Ok(made)
}

fn words_of(alloc: Global, texts: &[String]) -> Result<Vec<&str>, Memory>
    ensures { IfOk result (λ words. map (λ word. word.now) words.items ≡ map string_bytes texts.now) }
{
    let mut words = Vec::new(alloc);
    for text in texts {
        words.push(text.as_str())?;
    }
    Ok(words)
}

// The text of a row: `attempt=150` in row 1 of `attempt=100,150`.
fn text_in(alloc: Global, row: usize, text: &str) -> Result<String, Memory>
    ensures { IfOk result (λ made. string_bytes made ≡ text_in row text.now) }
{
    let mut made = String::from_str(alloc, name_of(text))?;
    made.push('=')?;
    made.push_str(number_at(row, list_of(text)))?;
    Ok(made)
}

fn name_of(text: &str) -> &str
    ensures { result.now ≡ before_first is_equals text.now }
{
    match text.split_once('=') {
        Some((name, _)) => name,
        None => text,
    }
}

fn list_of(text: &str) -> &str
    ensures { result.now ≡ list_of text.now }
{
    match text.split_once('=') {
        Some((_, list)) => list,
        None => "",
    }
}

fn number_count(list: &str) -> usize
    ensures { result ≡ length (numbers_in list.now) }
{
    list.split(',').count()
}

fn number_at(row: usize, list: &str) -> &str
    ensures { result.now ≡ number_at row list.now }
{
    list.split(',').nth(row).unwrap_or(list)
}
