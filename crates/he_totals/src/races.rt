//! The races of inputs, each with the settings of one or more rows.
ghost use Rattle.std.specs.Prelude.{◌≡◌, ◌<◌, [], ◌∷◌, length, map, slice_get, string_bytes, Some, IfOk, OnOk};
ghost use Rattle.he_course.specs.Accounts.{end_of};
ghost use Rattle.he_course.specs.Amounts.{times_of};
ghost use Rattle.he_stream.specs.Input.{Gives, GivesSoFar};
ghost use Rattle.he_totals.specs.Hosts.{at_hosts};
ghost use Rattle.he_totals.specs.Steps.{AddsRace, AddsRuns};
ghost use Rattle.he_totals.specs.Summed.{Adds, HasSummed};
ghost use Rattle.he_totals.specs.Tries.{AreRanked};

use crate::adding::add_next;
use crate::hosts::Hosts;
use crate::kept::{Kept, Place};
use crate::tallies::{Tallies, Tally};
use bumpalo::Bump;
use he_addr::{Ip, Memory};
use he_course::Account;
use he_inputs::{RaceStream, StreamFault};
use he_plan::{Transcript, transcript_of};
use he_record::Record;
use he_stream::InputStream;
use he_timeline::{Changes, Timeline};
use std::alloc::Allocator;
use std::marker::Model;

// The initial size of the arena, which holds a race and its transcripts while the race is added. The next race reuses
// the arena's memory.
const ARENA_BYTES: usize = 65_536;

/// The records of the races of inputs; each race runs with the settings of each row. There is a [`Kept`] for each
/// race and row, a tally for each address to which an attempt was made, and one for each name server that did not
/// answer.
#[derive(Drop)]
pub struct Races<A: Allocator> {
    alloc: A,
    settings: Vec<Changes, A>,
    kept: Vec<Kept, A>,
    tallies: Tallies<A>,
    // The name servers that did not answer.
    servers: Tallies<A>,
    hosts: Hosts<A>,
}

impl<A: Allocator> Model for Races<A> {
    ghost use Rattle.he_totals.specs.Summed.{Sums};

    ghost Value = { Sums };

    ghost view = { λ s. record {
      settings = s.settings.items;
      kept = s.kept.items;
      tallies = s.tallies;
      servers = s.servers;
      hosts = s.hosts;
    } };
}

impl<A: Allocator + Copy> Races<A> {
    /// No races yet; each one added runs with the settings of these rows.
    pub fn new(alloc: A, settings: Vec<Changes, A>) -> Races<A>
        ensures settings { result.settings ≡ settings.items }
        ensures none { HasSummed result [] }
    {
        Races {
            alloc,
            settings,
            kept: Vec::new(alloc),
            tallies: Tallies::none(alloc),
            servers: Tallies::none(alloc),
            hosts: Hosts::none(alloc),
        }
    }

    /// Reads an input of timelines to its end, and adds its races as those of the file at this place. The stream
    /// starts again with this input, and reuses its memory.
    ///
    /// Holds no more than the stream does, and one race with its transcripts.
    ///
    /// # Errors
    ///
    /// The races before a fault of the input are added.
    ///
    /// - `Text` if the input is no timeline text: its first fault, with its line counted over the whole input from 1.
    ///   The input is not read further if nothing that follows mends it.
    /// - `Read` if a step of the input failed before a fault of the text was found, or the bound of 4,294,967,296
    ///   steps was reached.
    /// - `Memory` if an allocation was refused. The contents are then unspecified; they may be dropped.
    pub fn add<I: InputStream>(
        &mut self,
        file: usize,
        stream: &mut RaceStream<A>,
        input: &mut I,
    ) -> Result<(), StreamFault>
        ensures { Adds file (Gives I.remaining I.takes input.old input.new)
            (GivesSoFar I.remaining I.takes input.old input.new) self.old self.new result }
    {
        stream.restart();
        let mut arena = Bump::try_with_capacity(self.alloc, ARENA_BYTES)?;
        while add_next(&arena, file, stream, input, self)? {
            // If the arena can't be reset, it grows; that is no fault.
            let _ = arena.reset();
        }
        Ok(())
    }

    /// Adds a race with its record lines, which runs with the settings of each row. The arena holds its transcripts.
    ///
    /// # Errors
    ///
    /// `Memory` if an allocation was refused. The contents are then unspecified.
    pub fn add_race<B: Allocator + Copy, C: Allocator, D: Allocator>(
        &mut self,
        arena: B,
        place: Place,
        told: &Record<'_, D>,
        race: &Timeline<C>,
    ) -> Result<(), Memory>
        ensures { OnOk result (AddsRace told.now race.now place self.old self.new) }
    {
        let untried = told.untried(arena)?;
        for row in 0..self.settings.len() {
            let changed = race.copy(arena)?.with_changes(self.settings_of(row));
            let transcript = transcript_of(arena, &changed)?;
            let account = Account::of(arena, &changed, &transcript, untried.as_slice())?;
            self.add_run((row, place), told, &changed, &transcript, &account)?;
        }
        Ok(())
    }

    fn settings_of(&self, row: usize) -> Changes
        requires { row < length self.now.settings }
        ensures { slice_get self.now.settings row ≡ Some result }
    {
        self.settings[row]
    }

    // Adds a race that runs with the settings of a row, by its transcript and its account.
    fn add_run<B: Allocator, C: Allocator, D: Allocator, E: Allocator>(
        &mut self,
        at: (usize, Place),
        told: &Record<'_, D>,
        race: &Timeline<B>,
        transcript: &Transcript<C>,
        account: &Account<E>,
    ) -> Result<(), Memory>
        requires { length account.now.tried.items ≡ length transcript.now.lines }
        ensures { OnOk result (AddsRuns (record {
          row = at.0;
          place = at.1;
          said = told.now;
          race = race.now;
          report = transcript.now;
          charges = account.now.tried.items;
          times = times_of (end_of transcript.now) account.now;
        } ∷ []) self.old self.new) }
    {
        self.kept
            .push(Kept::of(at, told, race, transcript, account))?;
        self.hosts.add_host(told, transcript.attempts())?;
        self.servers.add_servers(told)?;
        self.tallies.add(told, race, transcript.attempts(), account.tried.as_slice())
    }

    /// The records, in the order in which the races were added, and for one race in the order of the rows.
    pub fn kept(&self) -> &[Kept]
        ensures { result.now ≡ self.now.kept }
    {
        self.kept.as_slice()
    }

    /// The hosts, and the addresses that their races tried.
    pub fn tried_hosts(&self) -> &Hosts<A>
        ensures { result.now ≡ self.now.hosts }
    {
        &self.hosts
    }

    /// The hosts and ports that races were for, as `www.example.com 443`, each once, in the order in which they first
    /// came; `no host` for races whose records have none.
    ///
    /// # Errors
    ///
    /// `Memory` if an allocation was refused.
    pub fn hosts(&self) -> Result<Vec<String<A>, A>, Memory>
        ensures { IfOk result (λ names. map string_bytes names.items ≡ self.now.hosts.names) }
    {
        self.hosts.names(self.alloc)
    }

    /// The records, each with the place of its host among [`hosts`](Races::hosts) in place of that of its file.
    ///
    /// # Errors
    ///
    /// `Memory` if an allocation was refused.
    pub fn kept_by_host(&self) -> Result<Vec<Kept, A>, Memory>
        ensures { IfOk result (λ kept. kept.items ≡ at_hosts self.now.hosts.places self.now.kept) }
    {
        self.hosts.places_of(self.alloc, self.kept.as_slice())
    }

    /// The ten name servers that most often did not answer.
    ///
    /// # Errors
    ///
    /// `Memory` if an allocation was refused.
    pub fn failing_servers(&self) -> Result<Vec<(Ip, Tally), A>, Memory>
        ensures { IfOk result (λ told. AreRanked self.now.servers told.items) }
    {
        self.servers.ranked(self.alloc)
    }

    /// The ten addresses with the most lost time.
    ///
    /// # Errors
    ///
    /// `Memory` if an allocation was refused.
    pub fn failing(&self) -> Result<Vec<(Ip, Tally), A>, Memory>
        ensures { IfOk result (λ told. AreRanked self.now.tallies told.items) }
    {
        self.tallies.ranked(self.alloc)
    }
}
