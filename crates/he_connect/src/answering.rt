//! The source of answers for a connection's race, on any machine.
ghost use Rattle.std.specs.Prelude.{◌≡◌, IfOk};
ghost use Rattle.he_connect.specs.Origins.{AreSound, AreSoundLookups, lookups_origins, origins_of};

use crate::embedded::EmbeddedAnswers;
use crate::lookups::RaceLookups;
use futures::task::{Context, Poll};
use he_addr::{Family, Memory};
use he_setup::{HostAnswers, LookupFaults, LookupWatcher, OwnMachine};
use he_turns::{Answer, AnswerSource};
use std::alloc::{AllocGlobal, Global};
use std::net::Net;
use std::random::RandomSource;
use std::rt::Files;
use std::time::Clock;

/// A race's answers: the host's own addresses; or, on a machine with only IPv6, maybe those by its network's NAT64.
#[derive(Drop)]
pub enum RaceAnswers<'h, R, W: LookupWatcher> {
    Host(HostAnswers<'h, R, W>),
    Embedded(EmbeddedAnswers<'h, R, W>),
}

impl<'h, R, W> RaceAnswers<'h, R, W>
where
    R: Net + RandomSource + Clock + Files + AllocGlobal,
    W: LookupWatcher + Copy,
{
    /// The answers of the look-ups, which note in `why` what they learn; with `machine`, those of the host have this
    /// machine's lines.
    ///
    /// # Errors
    ///
    /// `Memory` if there are too many handles.
    pub fn new(
        alloc: Global,
        lookups: RaceLookups<'h, R>,
        machine: Option<OwnMachine<'h, R>>,
        why: LookupFaults,
        watcher: W,
    ) -> Result<RaceAnswers<'h, R, W>, Memory>
        ensures origins { IfOk result (λ answers. origins_of answers ≡ lookups_origins lookups.entry) }
        ensures sound { AreSoundLookups lookups.entry → IfOk result AreSound }
    {
        match lookups {
            RaceLookups::Host(lookup) => {
                let answers = HostAnswers::new(alloc, lookup, machine, why, watcher)?;
                Ok(RaceAnswers::Host(answers))
            }
            RaceLookups::Embedded(lookups) => {
                let answers = EmbeddedAnswers::new(alloc, lookups, machine, why, watcher)?;
                Ok(RaceAnswers::Embedded(answers))
            }
        }
    }
}

impl<'h, R, W> AnswerSource for RaceAnswers<'h, R, W>
where
    R: Net + RandomSource + Clock + Files + AllocGlobal,
    W: LookupWatcher,
{
    ghost use Rattle.he_connect.specs.Origins.{HearsRace, answers_needs};

    ghost needs = { λ answers family. answers_needs answers family };

    ghost hears = { λ old family _ told new. HearsRace old family told new };

    fn poll_answer(&mut self, family: Family, now: u64, cx: &mut Context<'_>) -> Poll<Answer> {
        match self {
            RaceAnswers::Host(answers) => answers.poll_host(family, now, cx),
            RaceAnswers::Embedded(answers) => answers.poll_embedded(family, now, cx),
        }
    }
}
