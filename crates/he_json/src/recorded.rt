// The members that a race's record adds to an object.

ghost use Rattle.std.specs.Prelude.{◌≡◌, ◌++◌, ◌∷◌, [], map, IfOk, OnOk};
ghost use Rattle.std.specs.List.{flat_map};
ghost use Rattle.he_record.specs.Left.{parts_of, said_of, target_shown};
ghost use Rattle.he_record.specs.Words.{family_spelling};
ghost use Rattle.he_json.specs.Json.{parted};
ghost use Rattle.he_json.specs.Recorded.{array_text, attempt_text, client_text, end_text, listing_text, listings_text, lookup_text, nat64_text, object_texts, opening_text, recorded_text, result_text, server_text, target_text, time_text, untried_text};

use crate::members::{write_address, write_words};
use he_addr::{Family, Ip, Memory, write_number, write_source};
use he_print::write_string;
use he_record::nat64::Nat64Prefix;
use he_record::{AttemptReason, ClientEnd, LookupReason, Moment, Record, RecordLine, ServerReason};
use std::alloc::Allocator;

// A member with an array of objects, for some lines of a record.
#[derive(Clone, Copy)]
pub(crate) enum Listing {
    Lookups,
    Prefixes,
    Servers,
    Outcomes,
}

fn write_target<A: Allocator + Copy>(
    target: Option<(&[u8], u16)>,
    text: &mut Vec<u8, A>,
) -> Result<(), Memory>
    ensures { OnOk result (text.new.items ≡ text.old.items ++ target_text (target_shown target.entry)) }
{
    let Some(target) = target else {
        return Ok(());
    };
    write_words(b",\"host\":", text)?;
    write_string(target.0, text)?;
    write_words(b",\"port\":", text)?;
    write_number(target.1 as u64, text)
}

fn write_time<A: Allocator + Copy>(at: Option<Moment>, text: &mut Vec<u8, A>) -> Result<(), Memory>
    ensures { OnOk result (text.new.items ≡ text.old.items ++ time_text at) }
{
    let Some(moment) = at else {
        return Ok(());
    };
    write_words(b",\"at\":", text)?;
    write_string(&moment.text(), text)
}

fn write_client<A: Allocator + Copy>(from: Option<Ip>, text: &mut Vec<u8, A>) -> Result<(), Memory>
    ensures { OnOk result (text.new.items ≡ text.old.items ++ client_text from) }
{
    let Some(ip) = from else {
        return Ok(());
    };
    write_words(b",\"from\":", text)?;
    write_address(ip, text)
}

fn write_result<A: Allocator + Copy>(
    end: Option<ClientEnd>,
    text: &mut Vec<u8, A>,
) -> Result<(), Memory>
    ensures { OnOk result (text.new.items ≡ text.old.items ++ result_text end) }
{
    match end {
        Some(end) => write_end(end, text),
        None => Ok(()),
    }
}

fn write_end<A: Allocator + Copy>(end: ClientEnd, text: &mut Vec<u8, A>) -> Result<(), Memory>
    ensures { OnOk result (text.new.items ≡ text.old.items ++ end_text end) }
{
    write_words(b",\"client\":{\"end\":", text)?;
    write_string(end.word().spelling().as_bytes(), text)?;
    write_words(b",\"ms\":", text)?;
    write_number(end.ticks(), text)?;
    write_words(b"}", text)
}

fn family_word(family: Family) -> &'static [u8]
    ensures { result.now ≡ family_spelling family }
{
    match family {
        Family::V6 => b"aaaa",
        Family::V4 => b"a",
    }
}

fn write_lookup<A: Allocator + Copy>(
    family: Family,
    reason: LookupReason,
    text: &mut Vec<u8, A>,
) -> Result<(), Memory>
    ensures { OnOk result (text.new.items ≡ text.old.items ++ lookup_text family reason) }
{
    write_words(b"{\"family\":", text)?;
    write_string(family_word(family), text)?;
    write_words(b",\"reason\":", text)?;
    write_string(reason.spelling().as_bytes(), text)?;
    write_words(b"}", text)
}

fn write_prefix_of<A: Allocator + Copy>(
    prefix: Nat64Prefix,
    text: &mut Vec<u8, A>,
) -> Result<(), Memory>
    ensures { OnOk result (text.new.items ≡ text.old.items ++ nat64_text (parts_of prefix)) }
{
    write_words(b"\"", text)?;
    write_source(Ip::V6(prefix.bits), prefix.len, text)?;
    write_words(b"\"", text)
}

fn write_server<A: Allocator + Copy>(
    ip: Ip,
    reason: ServerReason,
    ticks: u64,
    text: &mut Vec<u8, A>,
) -> Result<(), Memory>
    ensures { OnOk result (text.new.items ≡ text.old.items ++ server_text ip reason ticks) }
{
    write_words(b"{\"address\":", text)?;
    write_address(ip, text)?;
    write_words(b",\"reason\":", text)?;
    write_string(reason.spelling().as_bytes(), text)?;
    write_words(b",\"ms\":", text)?;
    write_number(ticks, text)?;
    write_words(b"}", text)
}

fn write_attempt<A: Allocator + Copy>(
    ip: Ip,
    reason: AttemptReason,
    text: &mut Vec<u8, A>,
) -> Result<(), Memory>
    ensures { OnOk result (text.new.items ≡ text.old.items ++ attempt_text ip reason) }
{
    write_words(b"{\"address\":", text)?;
    write_address(ip, text)?;
    write_words(b",\"reason\":", text)?;
    write_string(reason.spelling().as_bytes(), text)?;
    write_words(b"}", text)
}

fn write_untried<A: Allocator + Copy>(ip: Ip, text: &mut Vec<u8, A>) -> Result<(), Memory>
    ensures { OnOk result (text.new.items ≡ text.old.items ++ untried_text ip) }
{
    write_words(b"{\"address\":", text)?;
    write_address(ip, text)?;
    write_words(b",\"untried\":true}", text)
}

fn opening(listing: Listing) -> &'static [u8]
    ensures { result.now ≡ opening_text listing }
{
    match listing {
        Listing::Lookups => b",\"lookups\":[",
        Listing::Prefixes => b",\"nat64\":[",
        Listing::Servers => b",\"servers\":[",
        Listing::Outcomes => b",\"outcomes\":[",
    }
}

// Adds the object of the line, if it has one in the listing.
fn push_object<A: Allocator + Copy>(
    alloc: A,
    listing: Listing,
    line: RecordLine<'_>,
    objects: &mut Vec<Vec<u8, A>, A>,
) -> Result<(), Memory>
    ensures { OnOk result (map (λ o. o.items) objects.new.items ≡ map (λ o. o.items) objects.old.items
        ++ object_texts listing (said_of line.entry)) }
{
    let mut object = Vec::new(alloc);
    match (listing, line) {
        (Listing::Lookups, RecordLine::Lookup(family, reason)) => {
            write_lookup(family, reason, &mut object)?;
        }
        (Listing::Prefixes, RecordLine::Nat64(prefix)) => write_prefix_of(prefix, &mut object)?,
        (Listing::Servers, RecordLine::Server(ip, reason, ticks)) => {
            write_server(ip, reason, ticks, &mut object)?;
        }
        (Listing::Outcomes, RecordLine::Attempt(ip, reason)) => {
            write_attempt(ip, reason, &mut object)?;
        }
        (Listing::Outcomes, RecordLine::Untried(ip)) => write_untried(ip, &mut object)?,
        _ => return Ok(()),
    }
    objects.push(object)?;
    Ok(())
}

fn objects_of<A: Allocator + Copy>(
    alloc: A,
    listing: Listing,
    lines: &[RecordLine<'_>],
) -> Result<Vec<Vec<u8, A>, A>, Memory>
    ensures { IfOk result (λ objects. map (λ o. o.items) objects.items ≡ flat_map (object_texts listing) (map said_of
        lines.now)) }
{
    let mut objects = Vec::new(alloc);
    for line in lines {
        push_object(alloc, listing, *line, &mut objects)?;
    }
    Ok(objects)
}

// The texts, with a comma between each two.
fn write_parted<A: Allocator + Copy>(
    objects: &[Vec<u8, A>],
    text: &mut Vec<u8, A>,
) -> Result<(), Memory>
    ensures { OnOk result (text.new.items ≡ text.old.items ++ parted [] (map (λ o. o.items) objects.now)) }
{
    let mut gap: &[u8] = b"";
    for object in objects {
        write_words(gap, text)?;
        write_words(object, text)?;
        gap = b",";
    }
    Ok(())
}

fn write_array<A: Allocator + Copy>(
    opening: &[u8],
    objects: &[Vec<u8, A>],
    text: &mut Vec<u8, A>,
) -> Result<(), Memory>
    ensures { OnOk result (text.new.items ≡ text.old.items ++ array_text opening.now (map (λ o. o.items)
        objects.now)) }
{
    if objects.is_empty() {
        return Ok(());
    }
    write_words(opening, text)?;
    write_parted(objects, text)?;
    write_words(b"]", text)
}

fn write_listing<A: Allocator + Copy, C: Allocator>(
    listing: Listing,
    recorded: &Record<'_, C>,
    text: &mut Vec<u8, A>,
) -> Result<(), Memory>
    ensures { OnOk result (text.new.items ≡ text.old.items ++ listing_text listing recorded.now) }
{
    let objects = objects_of(*text.allocator(), listing, recorded.lines())?;
    write_array(opening(listing), &objects, text)
}

fn write_listings<A: Allocator + Copy, C: Allocator>(
    recorded: &Record<'_, C>,
    text: &mut Vec<u8, A>,
) -> Result<(), Memory>
    ensures { OnOk result (text.new.items ≡ text.old.items ++ listings_text recorded.now) }
{
    write_listing(Listing::Lookups, recorded, text)?;
    write_listing(Listing::Prefixes, recorded, text)?;
    write_listing(Listing::Servers, recorded, text)?;
    write_listing(Listing::Outcomes, recorded, text)
}

// The members of the record; none if it has no lines.
pub(crate) fn write_recorded<A: Allocator + Copy, C: Allocator>(
    recorded: &Record<'_, C>,
    text: &mut Vec<u8, A>,
) -> Result<(), Memory>
    ensures { OnOk result (text.new.items ≡ text.old.items ++ recorded_text recorded.now) }
{
    write_target(recorded.to(), text)?;
    write_time(recorded.at(), text)?;
    write_client(recorded.from(), text)?;
    write_result(recorded.end(), text)?;
    write_listings(recorded, text)
}
