//! Runs the race of a requested connection on real sockets.
ghost use Rattle.std.specs.Prelude.{◌≡◌, IfOk};
ghost use Rattle.he_inputs.specs.Recorded.{IsRecordedAs};
ghost use Rattle.he_recording.specs.Recorded.{recorded_text};
ghost use Rattle.he_setup.specs.Races.{KnowsHost};
ghost use Rattle.he_connect.specs.Races.{IsRun, RunsFrom};
ghost use Rattle.he_connect.specs.Recorded.{AreTextsOf, IsExplained};

use crate::answering::RaceAnswers;
use crate::kernel::write_other_sources;
use crate::lookups::look_up;
use crate::telling::Telling;
use crate::tried::write_tried;
use he_course::Course;
use he_live::{Dialed, ResolvingRequest, Steps, attempt_failures, resolving_race_on};
use he_record::nat64::Nat64Prefix;
use he_record::{Moment, Record};
use he_recording::laws::recorded_reads_back;
use he_recording::{ServerFailure, Target, moment_now, record_of, write_recorded};
use he_resolver::SystemResolver;
use he_settings::NamesFault;
use he_setup::families::{excluded, write_excluded, write_unusable};
use he_setup::translated::write_translated;
use he_setup::{
    ConnectFault, ConnectRequest, FamilyFaults, KnownFacts, Lines, LookupFaults, Nat64, OwnMachine,
    Setup, facts_for, is_by_nat64, nat64_prefixes, set_up_any, write_untranslated,
};
use he_story::write_story;
use he_timeline::Timeline;
use he_turns::Raced;
use std::alloc::{AllocGlobal, Global};
use std::io::Write;
use std::mem::drop;
use std::net::Net;
use std::random::RandomSource;
use std::rt::Files;
use std::sync::Wait;
use std::thread::Threads;
use std::time::Clock;
use tokio::runtime::LocalRuntime;

/// A race run for a connection.
#[derive(Drop)]
pub struct FinishedRace {
    /// The text of its record: record lines, and the race.
    pub text: Vec<u8>,
    /// Its story, if requested.
    pub story: Vec<u8>,
    /// Report lines other than the story: other sources, embedded IPv4 hosts and, if nothing connected, the addresses
    /// tried.
    pub told: Vec<u8>,
    /// Why there was no address to connect to, if a look-up found none.
    pub nameless: Option<NamesFault>,
    /// The winner's connection, if the race was won.
    pub connection: Option<Dialed>,
}

/// Looks up the host's addresses and races them at once, by RFC 8305. Each step is printed to `faults` as it happens,
/// if requested; a failed write there is ignored.
///
/// # Errors
///
/// Those of [`ConnectFault`].
pub fn race<R, F>(
    rt: &R,
    alloc: Global,
    request: &ConnectRequest<'_>,
    faults: &mut F,
) -> Result<FinishedRace, ConnectFault>
where
    F: Write,
    R: Threads + Wait + Clock + RandomSource + AllocGlobal + Net + Files + Sync,
    R: SystemResolver + Copy + Send + 'static,
    ensures { IfOk result (λ run. IsRun request.now run.text.items run.story.items run.connection) }
{
    let setup = set_up_any(rt, alloc, request, faults)?;
    let run = run_from(rt, alloc, &setup, faults);
    drop(setup);
    run
}

// Runs the race of the set-up.
fn run_from<R, F>(
    rt: &R,
    alloc: Global,
    setup: &Setup<'_>,
    faults: &mut F,
) -> Result<FinishedRace, ConnectFault>
where
    F: Write,
    R: Threads + Wait + Clock + RandomSource + AllocGlobal + Net + Files + Sync,
    R: SystemResolver + Copy + Send + 'static,
    ensures race { KnowsHost setup.now → IfOk result (λ run. RunsFrom setup.now.embeds setup.now.request
        setup.now.start setup.now.to run.text.items run.story.items run.connection) }
{
    let mut runtime = LocalRuntime::new(rt)?;
    let handle = runtime.handle().clone()?;
    let why = LookupFaults::new(alloc)?;
    let steps = Steps::new(alloc)?;
    let telling = Telling::new(alloc, faults, &setup.request);
    let lookups = look_up(rt, alloc, &handle, setup)?;
    let machine = OwnMachine::of_setup(rt, setup)?;
    let source = RaceAnswers::new(alloc, lookups, machine, why.share()?, &telling)?;
    let request = ResolvingRequest {
        timeline: &setup.start,
        source,
        to: setup.to,
    };
    let at = moment_now(rt);
    let raced = resolving_race_on(rt, alloc, &mut runtime, request, &steps, &telling)?;
    let servers = why.servers(alloc)?;
    let nat64 = why.take_nat64();
    let prefixes = nat64_prefixes(alloc, nat64.as_ref())?;
    let notes = RaceNotes {
        at,
        why: why.families(),
        servers: &servers,
        steps: &steps,
        nat64: nat64.as_ref(),
        prefixes: &prefixes,
        by_nat64: is_by_nat64(setup, nat64.as_ref()),
    };
    end_with(rt, alloc, setup, notes, raced)
}

// The results of the race.
fn end_with<R: Files + Net + AllocGlobal>(
    rt: &R,
    alloc: Global,
    setup: &Setup<'_>,
    notes: RaceNotes<'_>,
    raced: Raced<Dialed>,
) -> Result<FinishedRace, ConnectFault>
    ensures texts { IfOk result (λ run. AreTextsOf notes.entry.by_nat64 setup.now.request raced.recorded
        raced.transcript run.text.items run.story.items) }
    ensures winner { IfOk result (λ run. run.connection ≡ raced.winner) }
{
    let texts = texts_of(rt, alloc, setup, notes, &raced);
    let Raced {
        transcript,
        recorded,
        winner,
    } = raced;
    drop(transcript);
    drop(recorded);
    let RaceTexts { text, story, told } = texts?;
    Ok(FinishedRace {
        text,
        story,
        told,
        nameless: notes.why.nameless(setup.request.families),
        connection: winner,
    })
}

fn texts_of<R: Files + Net + AllocGlobal>(
    rt: &R,
    alloc: Global,
    setup: &Setup<'_>,
    notes: RaceNotes<'_>,
    raced: &Raced<Dialed>,
) -> Result<RaceTexts, ConnectFault>
    ensures { IfOk result (λ texts. AreTextsOf notes.entry.by_nat64 setup.now.request raced.now.recorded
        raced.now.transcript texts.text.items texts.story.items) }
{
    let told = told_of(rt, alloc, setup, notes, raced)?;
    let recorded = write_race(alloc, &setup.request, notes, raced)?;
    let RecordTexts { text, story } = recorded;
    Ok(RaceTexts { text, story, told })
}

// The report of the race, without the story.
fn told_of<R: Files + Net + AllocGlobal>(
    rt: &R,
    alloc: Global,
    setup: &Setup<'_>,
    notes: RaceNotes<'_>,
    raced: &Raced<Dialed>,
) -> Result<Vec<u8>, ConnectFault> {
    let RaceNotes {
        why,
        steps,
        nat64,
        ..
    } = notes;
    let request = &setup.request;
    let attempts = raced.transcript.attempts();
    let mut told = Vec::new(alloc);
    if request.tells_steps || request.explains {
        write_translated(nat64, attempts, &mut told)?;
    }
    if request.tells_steps || request.lines == Lines::Machine {
        write_other_sources(rt, &setup.asked, setup.to.scope, raced, &mut told)?;
    }
    if raced.winner.is_some() || why.nameless(request.families).is_some() {
        return Ok(told);
    }
    match (nat64, excluded(request)) {
        (Some(nat64), _) if attempts.is_empty() && nat64.is_answered() => {
            write_untranslated(alloc, setup, nat64, &mut told)?
        }
        (None, Some(family)) => write_excluded(request.host, family, &mut told)?,
        _ => {
            write_tried(alloc, request, raced, steps, why, &mut told)?;
            write_unusable(rt, &setup.asked, attempts, steps, &mut told)?;
        }
    }
    Ok(told)
}

// The text of the race with its record, and its story.
fn write_race(
    alloc: Global,
    request: &ConnectRequest<'_>,
    notes: RaceNotes<'_>,
    raced: &Raced<Dialed>,
) -> Result<RecordTexts, ConnectFault>
    ensures { IfOk result (λ texts. AreTextsOf notes.entry.by_nat64 request.now raced.now.recorded
        raced.now.transcript texts.text.items texts.story.items) }
{
    let attempts = attempt_failures(alloc, raced.transcript.attempts(), notes.steps)?;
    let target = target_of(request);
    let known = KnownFacts {
        at: notes.at,
        why: notes.why,
        nat64: notes.prefixes,
        servers: notes.servers,
        attempts: &attempts,
    };
    let recorded = &raced.recorded;
    let facts = facts_for(notes.by_nat64, target, request.families, recorded, known);
    let record = record_of(alloc, &facts)?;
    let texts = write_texts(alloc, request.explains, &record, recorded);
    drop(record);
    texts
}

// The request, as a record has it.
fn target_of<'a>(request: &ConnectRequest<'a>) -> Target<'a>
    ensures host { result.host.now ≡ request.now.host.now }
    ensures port { result.port ≡ request.now.port }
{
    Target {
        host: request.host.as_bytes(),
        port: request.port,
    }
}

// The text of a race with its record, and its story, if requested.
fn write_texts(
    alloc: Global,
    explains: bool,
    told: &Record<'_>,
    recorded: &Timeline,
) -> Result<RecordTexts, ConnectFault>
    ensures text { IfOk result (λ texts. texts.text.items ≡ recorded_text told.now recorded.now) }
    ensures reads { IsRecordedAs (recorded_text told.now recorded.now) told.now recorded.now }
    ensures story { IfOk result (λ texts. IsExplained explains told.now recorded.now texts.story.items) }
{
    recorded_reads_back(told, recorded);
    let mut text = Vec::new(alloc);
    write_recorded(told, recorded, &mut text)?;
    let story = explain(alloc, explains, told, recorded)?;
    Ok(RecordTexts { text, story })
}

// The story of a race with its record, if requested.
fn explain(
    alloc: Global,
    is_asked: bool,
    told: &Record<'_>,
    recorded: &Timeline,
) -> Result<Vec<u8>, ConnectFault>
    ensures { IfOk result (λ story. IsExplained is_asked told.now recorded.now story.items) }
{
    if !is_asked {
        return Ok(Vec::new(alloc));
    }
    let course = Course::of(alloc, recorded, 1, 1)?;
    let mut story = Vec::new(alloc);
    write_story(alloc, None, &course, told, &mut story)?;
    Ok(story)
}

// The notes of a race that has ended.
#[derive(Clone, Copy)]
struct RaceNotes<'n> {
    // The time of tick 0.
    at: Option<Moment>,
    why: FamilyFaults,
    servers: &'n [ServerFailure],
    steps: &'n Steps,
    // The network's NAT64, as far as it is known, if its prefixes were looked up.
    nat64: Option<&'n Nat64>,
    // Its prefixes, as a record has them.
    prefixes: &'n [Nat64Prefix],
    // Whether the IPv4 addresses are reached through it.
    by_nat64: bool,
}

// The text and the story of a race.
#[derive(Drop)]
struct RecordTexts {
    text: Vec<u8>,
    story: Vec<u8>,
}

// The texts of a race.
#[derive(Drop)]
struct RaceTexts {
    text: Vec<u8>,
    story: Vec<u8>,
    told: Vec<u8>,
}
