// The object of a race with its record, from the text of both.
ghost use Rattle.std.specs.Prelude.{◌≡◌, [], ◌∷◌, List, None, false, IfOk};
ghost use Rattle.he_course.specs.Course.{IsRecordedCourse};
ghost use Rattle.he_inputs.specs.Inputs.{HasRaces};
ghost use Rattle.he_inputs.specs.Recorded.{IsRecordedAs};
ghost use Rattle.he_record.specs.Given.{untried_given};
ghost use Rattle.he_record.specs.Said.{Said};
ghost use Rattle.he_timeline.specs.Race.{Race};
ghost use Rattle.he_command.specs.Objects.{IsRaceObject, ShowsMade};

use he_addr::Ip;
use he_course::Course;
use he_inputs::{NotOneRace, StreamFault, read_one_race, record_of};
use he_json::write_explanation_json;
use he_record::Record;
use he_stream::OutputStream;
use he_tasks::Session;
use he_tasks::reports::report;
use he_tasks::session::put_all;
use he_timeline::Timeline;
use std::alloc::Global;
use std::io::Write;

// Writes a text to the output, or prints why there is none, and returns the exit status.
pub(crate) fn show_text<R, O: OutputStream, F: Write>(
    session: &mut Session<'_, '_, R, O, F>,
    made: Result<Vec<u8>, StreamFault>,
) -> u8
    ensures { ShowsMade O.OutputStream made session.old.output session.new.output result }
{
    match made {
        Ok(text) => put_all(session, &text, false),
        Err(fault) => report(fault, &mut session.faults),
    }
}

// The object of a race with its record, from the text of both.
pub(crate) fn race_object(alloc: Global, text: &[u8]) -> Result<Vec<u8>, StreamFault>
    ensures { IfOk result (λ object. IsRaceObject text.now object.items) }
{
    let race = race_in(alloc, text)?;
    let recorded = record_in(alloc, text)?;
    let untried = untried_in(alloc, &recorded)?;
    let course = course_of(alloc, &race, &untried)?;
    let mut object = Vec::new(alloc);
    match write_explanation_json(alloc, &course, &recorded, None, &mut object) {
        Ok(()) => Ok(object),
        Err(_) => Err(StreamFault::Memory),
    }
}

// The record lines of the text of a race.
pub(crate) fn record_in(alloc: Global, text: &[u8]) -> Result<Record<'_>, StreamFault>
    ensures { (said : List Said) (race : Race) → IsRecordedAs text.now said race
        → IfOk result (λ found. found ≡ said) }
{
    match record_of(alloc, text) {
        Ok(recorded) => Ok(recorded),
        Err(_) => Err(StreamFault::Memory),
    }
}

// The addresses that no client tried.
pub(crate) fn untried_in(alloc: Global, recorded: &Record<'_>) -> Result<Vec<Ip>, StreamFault>
    ensures { IfOk result (λ ips. ips.items ≡ untried_given recorded.now) }
{
    match recorded.untried(alloc) {
        Ok(ips) => Ok(ips),
        Err(_) => Err(StreamFault::Memory),
    }
}

pub(crate) fn course_of(
    alloc: Global,
    race: &Timeline,
    untried: &[Ip],
) -> Result<Course<Global>, StreamFault>
    ensures { IfOk result (IsRecordedCourse race.now untried.now 1 1) }
{
    match Course::recorded(alloc, race, untried, 1, 1) {
        Ok(course) => Ok(course),
        Err(_) => Err(StreamFault::Memory),
    }
}

// The one race of a text.
pub(crate) fn race_in(alloc: Global, text: &[u8]) -> Result<Timeline, StreamFault>
    ensures { IfOk result (λ race. HasRaces text.now false (race ∷ []) None) }
{
    read_one_race(alloc, text, false).map_err(fault_of)
}

fn fault_of(fault: NotOneRace) -> StreamFault {
    match fault {
        NotOneRace::Fault(fault) => StreamFault::from(fault),
        NotOneRace::Count => StreamFault::Read,
        NotOneRace::Memory => StreamFault::Memory,
    }
}
