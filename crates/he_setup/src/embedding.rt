//! The set-up of a race that also reaches IPv4 hosts through the network's NAT64 (RFC 8305 section 7).
ghost use Rattle.std.specs.Prelude.{◌≡◌, [], IfOk, not, true};
ghost use Rattle.he_addr.specs.Ip.{is_v6};
ghost use Rattle.he_setup.specs.Embedding.{MayEmbed, are_v4, is_embedded, is_of_machine, takes_six};
ghost use Rattle.he_setup.specs.Races.{IsSetUp, KnowsHost, only_six};
ghost use Rattle.he_setup.specs.Start.{Starts};

use crate::families::tell_unasked;
use crate::fault::ConnectFault;
use crate::request::{ConnectRequest, Families, Lines};
use crate::setup::{Setup, set_up};
use crate::start::start_race;
use he_addr::{Family, Ip};
use he_kernel::families::can_use;
use he_kernel::sockets::{ROOT_SERVER_V4, ROOT_SERVER_V6};
use std::alloc::{AllocGlobal, Global};
use std::io::Write;
use std::mem::drop;
use std::net::Net;
use std::rt::Files;

/// As [`set_up`]; on a machine with only IPv6, maybe of a race that embeds IPv4 hosts. Prints which family is not
/// queried, if steps or an explanation are requested.
///
/// # Errors
///
/// Those of [`set_up`].
pub fn set_up_any<'a, R, F>(
    rt: &R,
    alloc: Global,
    request: &ConnectRequest<'a>,
    faults: &mut F,
) -> Result<Setup<'a>, ConnectFault>
where
    R: Files + Net + AllocGlobal,
    F: Write,
    ensures setup { IfOk result (IsSetUp request.now) }
    ensures known { IfOk result KnowsHost }
    ensures embeds { IfOk result (λ setup. MayEmbed setup.embeds request.now) }
{
    let setup = set_up(rt, alloc, request, faults)?;
    let embeds = embeds(rt, &setup)?;
    if request.tells_steps || request.explains {
        tell_unasked(request.families, setup.request.families, embeds, faults);
    }
    if embeds {
        embedding_of(alloc, setup)
    } else {
        Ok(setup)
    }
}

// Whether the race embeds IPv4 hosts. Of known addresses the kernel is asked for each, so one of this machine or of a
// VPN is not embedded (RFC 8305 section 7.3). It is asked only for what can decide.
fn embeds<R: Files + Net + AllocGlobal>(rt: &R, setup: &Setup<'_>) -> Result<bool, ConnectFault>
    ensures { IfOk result (λ embeds. MayEmbed embeds setup.now.request) }
{
    let ConnectRequest {
        families,
        lines,
        ..
    } = setup.request;
    if !takes_six(families) || !is_of_machine(lines) {
        return Ok(false);
    }
    let only_v4 = lists_only_v4(setup);
    let has_four = !only_v4 || can_reach_four(rt, setup)?;
    let has_six = !has_four && has_way(rt, setup, &[ROOT_SERVER_V6]);
    Ok(is_embedded(families, only_v4, has_four, has_six))
}

// Whether all known addresses are of IPv4.
fn lists_only_v4(setup: &Setup<'_>) -> bool {
    match &setup.known {
        Some(known) => are_v4(known),
        None => true,
    }
}

// Whether this machine has IPv4: the kernel has a way to one of the known addresses, or to the IPv4 internet while it
// forbids them; or, if none is known, this machine can use IPv4.
fn can_reach_four<R: Files + Net + AllocGlobal>(
    rt: &R,
    setup: &Setup<'_>,
) -> Result<bool, ConnectFault> {
    match &setup.known {
        Some(known) => Ok(has_way(rt, setup, known) || has_way(rt, setup, &[ROOT_SERVER_V4])),
        None => Ok(can_use(rt, &setup.asked, Family::V4)?),
    }
}

// The choice by the requested families; by whether all known addresses are of IPv4; by whether this machine has IPv4;
// and by whether the kernel has a way to the IPv6 internet.
fn is_embedded(wanted: Families, only_v4: bool, has_four: bool, has_six: bool) -> bool
    ensures choice { result ≡ is_embedded wanted only_v4 has_four has_six }
    ensures wanted { result ≡ true → takes_six wanted ≡ true }
{
    takes_six(wanted) && only_v4 && !has_four && has_six
}

// The set-up of a race that embeds: only IPv6 is tried, and this machine's lines come with the addresses.
fn embedding_of<'a>(alloc: Global, setup: Setup<'a>) -> Result<Setup<'a>, ConnectFault>
    ensures request { IfOk result (λ made. made.request ≡ record setup.entry.request { families = only_six }) }
    ensures starts { IfOk result (λ made. Starts [] setup.entry.request.settings only_six made.start) }
    ensures to { IfOk result (λ made. made.to ≡ setup.entry.to) }
    ensures known { IfOk result (λ made. made.known ≡ setup.entry.known) }
    ensures embeds { IfOk result (λ made. made.embeds ≡ true) }
{
    let Setup {
        request,
        start,
        to,
        known,
        asked,
        ..
    } = setup;
    drop(start);
    let tried = Families::Only(Family::V6);
    Ok(Setup {
        start: start_race(alloc, request.settings, tried, &[])?,
        request: request.with_families(tried),
        to,
        known,
        brings_lines: true,
        embeds: true,
        asked,
    })
}

fn takes_six(wanted: Families) -> bool
    ensures { result ≡ takes_six wanted }
{
    match wanted {
        Families::Only(Family::V4) => false,
        _ => true,
    }
}

fn is_of_machine(lines: Lines<'_>) -> bool
    ensures { result ≡ is_of_machine lines.entry }
{
    match lines {
        Lines::Machine => true,
        _ => false,
    }
}

fn are_v4(ips: &[Ip]) -> bool
    ensures { result ≡ are_v4 ips.now }
{
    ips.iter().all(|ip| is_v4(*ip))
}

fn is_v4(ip: Ip) -> bool
    ensures { result ≡ not (is_v6 ip) }
{
    match ip {
        Ip::V4(_) => true,
        Ip::V6(_) => false,
    }
}

fn has_way<R: Net>(rt: &R, setup: &Setup<'_>, ips: &[Ip]) -> bool {
    ips.iter().any(|ip| setup.asked.way(rt, *ip, setup.to.scope).from.is_some())
}
