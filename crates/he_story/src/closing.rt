// The last lines of a story: missing answers, how long an answer waited for an attempt, and how the race would have
// ended with a floor.

ghost use Rattle.std.specs.Prelude.{◌≡◌, ◌++◌, OnOk};
ghost use Rattle.he_story.specs.Lines.{told};
ghost use Rattle.he_story.specs.Story.{answer_facts, answered_by, closing_facts, first_of, gap_facts, seen_facts, sooner_facts};

use crate::recorded::unseen_reason;
use crate::story::Story;
use he_addr::{Family, Memory};
use he_course::{Course, Ended, Seen};
use he_plan::Line;
use he_print::Part;
use he_record::Record;
use he_statements::Said;
use he_statements::words::{name_of, version_of};
use he_timeline::limits::MIN_FLOOR;
use std::alloc::Allocator;

// The first attempt at an address of the family.
fn first_of(family: Family, lines: &[Line]) -> Option<Line>
    ensures { result ≡ first_of family lines.now }
{
    for line in lines {
        if line.ip.family() == family {
            return Some(*line);
        }
    }
    None
}

impl<A: Allocator> Story<A> {
    // How long an answer, seen at this tick, waited for the first attempt at one of its addresses.
    fn tell_gap(&mut self, family: Family, seen: u64, first: Option<Line>) -> Result<(), Memory>
        ensures { OnOk result (told self.new ≡ told self.old ++ gap_facts family seen first) }
    {
        match first {
            Some(line) if seen < line.tick => {
                let version = Part::Words(version_of(family));
                let passed = Part::Number(line.tick - seen);
                self.tell(Said::Passed(family), &[version, passed])
            }
            Some(_) => Ok(()),
            None => self.tell(Said::Untried(family), &[Part::Words(name_of(family))]),
        }
    }

    // An answer that is seen, in a race that ended at `end`.
    fn tell_seen(
        &mut self,
        family: Family,
        end: u64,
        lines: &[Line],
        seen: Seen,
    ) -> Result<(), Memory>
        ensures { OnOk result (told self.new ≡ told self.old ++ seen_facts family end lines.now seen) }
    {
        if end < seen.tick {
            let name = Part::Words(name_of(family));
            return self.tell(Said::AfterEnd(family), &[name, Part::Number(seen.tick)]);
        }
        if seen.usable == 0 {
            return Ok(());
        }
        self.tell_gap(family, seen.tick, first_of(family, lines))
    }

    // The answer of a family, as a race saw it that ended at `end`.
    fn tell_answered(
        &mut self,
        family: Family,
        end: u64,
        lines: &[Line],
        seen: Option<Seen>,
    ) -> Result<(), Memory>
        ensures { OnOk result (told self.new ≡ told self.old ++ answered_by end lines.now family seen) }
    {
        match seen {
            Some(seen) => self.tell_seen(family, end, lines, seen),
            None => self.tell(Said::NoAnswer(family), &[Part::Words(name_of(family))]),
        }
    }

    fn tell_answer<B: Allocator, C: Allocator>(
        &mut self,
        course: &Course<B>,
        recorded: &Record<'_, C>,
        family: Family,
    ) -> Result<(), Memory>
        ensures { OnOk result (told self.new ≡ told self.old ++ answer_facts recorded.now course.now family) }
    {
        let (end, seen) = (course.end(), course.answer(family));
        self.tell_answered(family, end, course.transcript.attempts(), seen)?;
        self.tell_why(unseen_reason(recorded, end, family, seen))
    }

    // The answers, the name servers that were given up, and the addresses that no client tried.
    pub(crate) fn tell_closing<B: Allocator, C: Allocator>(
        &mut self,
        course: &Course<B>,
        recorded: &Record<'_, C>,
    ) -> Result<(), Memory>
        ensures { OnOk result (told self.new ≡ told self.old ++ closing_facts recorded.now course.now) }
    {
        self.tell_answer(course, recorded, Family::V6)?;
        self.tell_answer(course, recorded, Family::V4)?;
        self.tell_notes(recorded.lines())
    }

    // How the race would have ended with the least floor, if that is sooner.
    pub(crate) fn tell_sooner(&mut self, sooner: Option<Ended>) -> Result<(), Memory>
        ensures { OnOk result (told self.new ≡ told self.old ++ sooner_facts sooner) }
    {
        let Some(ended) = sooner else {
            return Ok(());
        };
        self.tell(Said::WithFloor, &[Part::Number(MIN_FLOOR)])?;
        self.tell_ending(ended)
    }
}
