// The time that a race lost, and where its time went.

ghost use Rattle.std.specs.Prelude.{◌≡◌, ◌==◌, ◌||◌, ◌++◌, length, IfOk, OnOk};
ghost use Rattle.std.specs.List.{flat_map};
ghost use Rattle.he_story.specs.Lines.{told};
ghost use Rattle.he_story.specs.Slow.{are_names_slow};
ghost use Rattle.he_story.specs.Lost.{charge_facts, charge_of, charges_of, each_facts, lost_facts, more_facts, names_facts, nothing_facts, rest_facts, share_facts, ticks_of, times_facts, verdict_facts};

use crate::ends::end_said;
use crate::story::Story;
use he_addr::{Ip, Memory};
use he_course::{Course, Times};
use he_plan::Line;
use he_print::Part;
use he_record::Record;
use he_statements::Said;
use he_statements::words::end_word;
use std::alloc::Allocator;

/// The most attempts on which a story names lost time.
pub const MAX_NAMED: usize = 3;

/// The most milliseconds of a race that its names take without a word on them in its story's first line.
pub const SLOW_NAMES: u64 = 100;

// An attempt that owns ticks of its race (he_course): the word for its end, its address, and the number of its ticks.
#[derive(Clone, Copy)]
pub(crate) struct Charge {
    pub(crate) end: Said,
    pub(crate) ip: Ip,
    pub(crate) ticks: u64,
}

// How many ticks the attempt of this place owns.
fn ticks_of<B: Allocator>(course: &Course<B>, place: usize) -> u64
    ensures { result ≡ ticks_of course.now place }
{
    match course.account.tried.get(place) {
        Some(ticks) => *ticks,
        None => 0,
    }
}

// The attempt of a line, if it owns ticks.
fn charge_of<B: Allocator, C: Allocator>(
    course: &Course<B>,
    recorded: &Record<'_, C>,
    line: Line,
) -> Option<Charge>
    ensures { result ≡ charge_of recorded.now course.now line }
{
    let ticks = ticks_of(course, line.place);
    if ticks == 0 {
        return None;
    }
    Some(Charge {
        end: end_said(recorded, course.delay, line),
        ip: line.ip,
        ticks,
    })
}

// The attempts that own ticks, by place.
fn charges<A: Allocator, B: Allocator, C: Allocator>(
    alloc: A,
    course: &Course<B>,
    recorded: &Record<'_, C>,
    lines: &[Line],
) -> Result<Vec<Charge, A>, Memory>
    ensures { IfOk result (λ found. found.items ≡ charges_of recorded.now course.now lines.now) }
{
    let mut found = Vec::new(alloc);
    for line in lines {
        if let Some(charge) = charge_of(course, recorded, *line) {
            found.push(charge)?;
        }
    }
    Ok(found)
}

fn separator(is_first: bool) -> &'static [u8] {
    if is_first { b":" } else { b"," }
}

// Whether the names took most of a race, and more than that.
pub(crate) fn are_names_slow(times: Times) -> bool
    ensures { result ≡ are_names_slow times }
{
    times.names > SLOW_NAMES && times.all.saturating_sub(times.names) < times.names
}

// Whether a story leaves out that nothing was lost: the names were slow, or no attempt was made.
fn is_said_by_itself(times: Times, lines: &[Line]) -> bool
    ensures { result ≡ (are_names_slow times || length lines.now == 0) }
{
    are_names_slow(times) || lines.is_empty()
}

impl<A: Allocator> Story<A> {
    fn tell_nothing(&mut self, is_slow: bool) -> Result<(), Memory>
        ensures { OnOk result (told self.new ≡ told self.old ++ nothing_facts is_slow) }
    {
        if is_slow {
            Ok(())
        } else {
            self.tell(Said::NothingLost, &[])
        }
    }

    // The names, where they took most of the race, with the name servers that were given up.
    fn tell_names<B: Allocator>(
        &mut self,
        recorded: &Record<'_, B>,
        attempts: usize,
        times: Times,
    ) -> Result<(), Memory>
        ensures { OnOk result (told self.new ≡ told self.old ++ names_facts recorded.now attempts times) }
    {
        if attempts == 0 || !are_names_slow(times) {
            return Ok(());
        }
        let (names, all) = (Part::Number(times.names), Part::Number(times.all));
        self.tell(Said::NamesSlow, &[names, all])?;
        self.tell_servers(recorded.lines())
    }

    // The ticks of an attempt, out of all that were lost.
    fn tell_charge(
        &mut self,
        separator: &'static [u8],
        lost: u64,
        charge: Charge,
    ) -> Result<(), Memory>
        ensures { OnOk result (told self.new ≡ told self.old ++ charge_facts lost charge) }
    {
        let ip = Part::Ip(charge.ip);
        let end = Part::Says(charge.end, end_word(charge.end));
        if charge.ticks == lost {
            return self.tell(Said::LostOn, &[ip, end]);
        }
        let ticks = Part::Number(charge.ticks);
        self.tell(Said::LostPart, &[Part::Words(separator), ticks, ip, end])
    }

    fn tell_first(&mut self, lost: u64, charges: &[Charge]) -> Result<(), Memory>
        ensures { OnOk result (told self.new ≡ told self.old ++ flat_map (charge_facts lost) charges.now) }
    {
        for (place, charge) in charges.iter().enumerate() {
            self.tell_charge(separator(place == 0), lost, *charge)?;
        }
        Ok(())
    }

    fn tell_more(&mut self, count: usize) -> Result<(), Memory>
        ensures { OnOk result (told self.new ≡ told self.old ++ more_facts count) }
    {
        if count == 0 {
            return Ok(());
        }
        self.tell(Said::More, &[Part::Number(count as u64)])
    }

    // The first attempts, and the number of further ones.
    fn tell_charges(&mut self, lost: u64, charges: &[Charge]) -> Result<(), Memory>
        ensures { OnOk result (told self.new ≡ told self.old ++ each_facts lost charges.now) }
    {
        let named = &charges[..MAX_NAMED.min(charges.len())];
        self.tell_first(lost, named)?;
        self.tell_more(charges.len().saturating_sub(MAX_NAMED))
    }

    // The ticks of nobody, out of all that were lost.
    fn tell_rest(&mut self, lost: u64, nobody: u64) -> Result<(), Memory>
        ensures { OnOk result (told self.new ≡ told self.old ++ rest_facts lost nobody) }
    {
        if nobody == 0 {
            return Ok(());
        }
        if nobody == lost {
            return self.tell(Said::LostAlone, &[]);
        }
        self.tell(Said::LostRest, &[Part::Number(nobody)])
    }

    // The time that was lost, with the attempts that own some of it.
    fn tell_lost<B: Allocator>(
        &mut self,
        course: &Course<B>,
        charges: &[Charge],
    ) -> Result<(), Memory>
        ensures { OnOk result (told self.new ≡ told self.old ++ lost_facts charges.now course.now) }
    {
        let lost = course.account.lost;
        if lost == 0 {
            return self.tell_nothing(is_said_by_itself(
                course.times(),
                course.transcript.attempts(),
            ));
        }
        self.tell(Said::Lost, &[Part::Number(lost)])?;
        self.tell_charges(lost, charges)?;
        self.tell_rest(lost, course.account.nobody)
    }

    fn tell_share(&mut self, said: Said, ticks: u64) -> Result<(), Memory>
        ensures { OnOk result (told self.new ≡ told self.old ++ share_facts said ticks) }
    {
        if ticks == 0 {
            return Ok(());
        }
        self.tell(said, &[Part::Number(ticks)])
    }

    // Where the time of the race went.
    fn tell_times(&mut self, times: Times) -> Result<(), Memory>
        ensures { OnOk result (told self.new ≡ told self.old ++ times_facts times) }
    {
        let names = Part::Number(times.names);
        let lost = Part::Number(times.lost);
        let connecting = Part::Number(times.connecting);
        self.tell(Said::TimeWent, &[names, lost, connecting])?;
        self.tell_share(Said::MachineTook, times.machine)?;
        self.tell_share(Said::UnknownTook, times.unknown)
    }
}

impl<A: Allocator + Copy> Story<A> {
    pub(crate) fn tell_verdict<B: Allocator, C: Allocator>(
        &mut self,
        alloc: A,
        course: &Course<B>,
        recorded: &Record<'_, C>,
    ) -> Result<(), Memory>
        ensures { OnOk result (told self.new ≡ told self.old ++ verdict_facts recorded.now course.now) }
    {
        let (times, attempts) = (course.times(), course.transcript.attempts());
        let charges = charges(alloc, course, recorded, attempts)?;
        self.tell_lost(course, &charges)?;
        self.tell_names(recorded, attempts.len(), times)?;
        self.tell_check(alloc, course, recorded, &charges)?;
        self.tell_times(times)
    }
}
