//! Runs a race of an input on real sockets and records it.
ghost use Rattle.std.specs.Prelude.{◌≡◌, [], IfErr, IfOk};
ghost use Rattle.he_stream.specs.Input.{Gives, GivesSoFar};
ghost use Rattle.he_stream.specs.Output.{PutsPart, PutsWhole};
ghost use Rattle.he_live.specs.Live.{IsLiveText, IsOwnRace, IsOwnRecord, IsRunFault, KeepsReport, Lives};
ghost use Rattle.he_live.specs.Reading.{IsTold};

use crate::dialed::Dialed;
use crate::failures::{FailedAttempt, failed_attempts};
use crate::fault::LiveFault;
use crate::racing::live_race;
use crate::recorded::attempt_failures;
use crate::steps::Steps;
use he_inputs::take_one_race;
use he_plan::Outcome3;
use he_record::Moment;
use he_recording::{AttemptFailure, Facts, moment_now, text_of};
use he_stream::{InputStream, OutputStream, write_whole};
use he_timeline::{Changes, Timeline};
use he_turns::Raced;
use he_write::write_transcript;
use std::alloc::{AllocGlobal, Global};
use std::mem::drop;
use std::net::Net;
use std::random::RandomSource;
use std::sync::Wait;
use std::time::Clock;

/// The results of a live race beside its output.
#[derive(Drop)]
pub struct LiveReport {
    /// The record: a timeline text that replays to the transcript, as in the output after the transcript, with record
    /// lines: the time of tick 0, and why each failed attempt failed. Empty if no race was run.
    pub record: Vec<u8>,
    /// The failed attempts, by place, each with its reason.
    pub failed: Vec<FailedAttempt>,
}

impl LiveReport {
    /// The report of no race. It allocates nothing.
    pub fn new(alloc: Global) -> LiveReport
        ensures record { result.record.items ≡ [] }
        ensures failed { result.failed.items ≡ [] }
    {
        LiveReport {
            record: Vec::new(alloc),
            failed: Vec::new(alloc),
        }
    }
}

/// Reads one race to the end of the input, runs it with the changed settings on real sockets at the port
/// ([`live_race`]), and writes its transcript and then its record, a timeline that replays to this transcript.
/// Returns how the race ended.
///
/// The input is read step by step to its end, or to a fault that no later bytes can mend. Only the race's settings,
/// policy, host, answers and history are used. The whole output is made before its first byte is written: after
/// `Write` a first part was written, after any other fault nothing. It is flushed at the end. If the race was run,
/// even if it could not be written, `report` has its record and its failed attempts; otherwise it is unchanged.
///
/// # Errors
///
/// - `Text` if the input is not a timeline text, in whichever race.
/// - `Read` if a step of the input failed before a fault of the text was found, or the limit of 4,294,967,296 steps
///   was reached.
/// - `OneRace` if the input has no fault, but no race or more than one.
/// - `Runtime`, `Files` and `Memory` as for `live_race`, and `Memory` if an allocation fails.
/// - `Write` if a step of the output failed or took no byte, the flush failed, or the limit of 4,294,967,296 steps
///   was reached.
pub fn live<R, I, O>(
    rt: &R,
    alloc: Global,
    input: &mut I,
    output: &mut O,
    port: u16,
    changes: Changes,
    report: &mut LiveReport,
) -> Result<Outcome3, LiveFault>
where
    R: Wait + Clock + RandomSource + AllocGlobal + Net,
    I: InputStream,
    O: OutputStream,
    ensures done { Lives (Gives I.remaining I.takes input.old input.new)
        (GivesSoFar I.remaining I.takes input.old input.new)
        (PutsWhole O.contents O.puts O.flushes output.old output.new)
        (PutsPart O.contents O.puts O.flushes output.old output.new) (output.new ≡ output.old) changes report.new
        result }
    ensures quiet { KeepsReport report.old report.new result }
{
    let timeline = take_one_race(alloc, input)?.with_changes(changes);
    let run = run_race(rt, alloc, &timeline, port);
    drop(timeline);
    let run = run?;
    *report = run.report;
    match write_whole(output, run.text.as_slice()) {
        Ok(()) => Ok(run.ended),
        Err(_) => Err(LiveFault::Write),
    }
}

// A race that was run: the output's text, the report, and the result.
#[derive(Drop)]
struct LiveOutput {
    text: Vec<u8>,
    report: LiveReport,
    ended: Outcome3,
}

fn run_race<R>(
    rt: &R,
    alloc: Global,
    timeline: &Timeline,
    port: u16,
) -> Result<LiveOutput, LiveFault>
where
    R: Wait + Clock + RandomSource + AllocGlobal + Net,
    ensures run { IfOk result (λ run. IsLiveText timeline.now run.text.items run.report run.ended) }
    ensures fault { IfErr result IsRunFault }
{
    let steps = Steps::new(alloc)?;
    let at = moment_now(rt);
    let raced = live_race(rt, alloc, timeline, port, &steps)?;
    let run = tell_race(alloc, &raced, &steps, at);
    drop(raced);
    run
}

fn tell_race(
    alloc: Global,
    raced: &Raced<Dialed>,
    steps: &Steps,
    at: Option<Moment>,
) -> Result<LiveOutput, LiveFault>
    ensures text { IfOk result (IsTold raced.now.transcript raced.now.recorded) }
    ensures fault { IfErr result IsRunFault }
{
    let record = own_record(alloc, raced, steps, at)?;
    let mut text = Vec::new(alloc);
    write_transcript(&raced.transcript, &mut text)?;
    text.extend_from_slice(&record)?;
    Ok(LiveOutput {
        text,
        report: LiveReport {
            record,
            failed: failed_attempts(alloc, raced.transcript.attempts(), steps)?,
        },
        ended: raced.transcript.result(),
    })
}

// The text of the race with its record.
fn own_record(
    alloc: Global,
    raced: &Raced<Dialed>,
    steps: &Steps,
    at: Option<Moment>,
) -> Result<Vec<u8>, LiveFault>
    ensures text { IfOk result (λ text. IsOwnRecord raced.now.recorded raced.now.transcript text.items) }
    ensures fault { IfErr result IsRunFault }
{
    let attempts = attempt_failures(alloc, raced.transcript.attempts(), steps)?;
    let facts = own_facts(at, &attempts);
    let text = text_of(alloc, &facts, &raced.recorded)?;
    Ok(text)
}

fn own_facts<'f>(at: Option<Moment>, attempts: &'f [AttemptFailure]) -> Facts<'f>
    ensures own { IsOwnRace result }
    ensures attempts { result.attempts ≡ attempts.entry }
{
    Facts {
        attempts,
        ..Facts::at(at)
    }
}
