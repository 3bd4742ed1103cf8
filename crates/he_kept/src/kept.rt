//! The answers that races share, and the questions that name servers are being asked.
ghost use Rattle.std.specs.Prelude.{IfOk, IfSome, List};
ghost use Rattle.he_kept.specs.Answers.{IsAbout, IsOfHost, Serves};
ghost use Rattle.he_kept.specs.Past.{Explains, IsOfPast};
ghost use Rattle.he_kept.specs.declared.answer.KeptAnswer.{KeptAnswer};

use crate::answer::{KeptAnswer, KeptHost, Question};
use crate::table::KeptTable;
use he_addr::{Family, Memory};
use std::alloc::Global;
use std::cell::RefCell;
use std::io;
use std::mem::drop;
use std::time::{Clock, Instant};
use tokio::sync::Notify;

/// The answers that all races share, and the questions that they are asking.
#[derive(Drop)]
pub struct KeptAnswers {
    alloc: Global,
    // The start from which seconds are counted.
    start: Instant,
    table: RefCell<KeptTable>,
    asked: RefCell<Vec<Question>>,
    /// Fires when a race that asks has its answer, or goes away.
    pub answered: Notify,
}

/// Marks that a race asks name servers for a family of a host, until this is dropped.
pub struct Asking<'h> {
    kept: &'h KeptAnswers,
    question: Question,
}

impl Drop for Asking<'_> {
    fn drop(self) {
        let Self { kept, question } = self;
        kept.remove(&question);
        drop(question);
    }
}

impl KeptAnswers {
    /// An empty store.
    ///
    /// # Errors
    ///
    /// The clock's errors; `OutOfMemory`.
    pub fn new<R: Clock>(rt: &R, alloc: Global) -> io::Result<KeptAnswers> {
        let table = match KeptTable::new(alloc) {
            Ok(table) => table,
            Err(Memory) => return Err(io::ErrorKind::OutOfMemory.into()),
        };
        Ok(KeptAnswers {
            alloc,
            start: Instant::now(rt)?,
            table: RefCell::new(table),
            asked: RefCell::new(Vec::new(alloc)),
            answered: Notify::new(alloc)?,
        })
    }

    /// The present second, by a clock that never goes back. None if the clock fails.
    pub fn second<R: Clock>(&self, rt: &R) -> Option<u64> {
        let now = Instant::now(rt).ok()?;
        Some(now.saturating_duration_since(self.start).as_secs())
    }

    /// The answer kept for the family of the host, if it is valid at this second. None also if an allocation fails.
    pub fn known_of(&self, now: u64, host: &str, family: Family) -> Option<KeptAnswer>
        ensures { IfSome result (λ answer. Serves answer now host.now family) }
    {
        let table = self.table.try_borrow().ok()?;
        known_in(self.alloc, &table, now, host, family)
    }

    /// The answers kept for the host and valid at this second, if there is one for each family that is tried. `only`
    /// is the only family that is tried.
    pub fn known(&self, now: u64, host: &str, only: Option<Family>) -> Option<KeptHost>
        ensures { IfSome result (λ known. IsOfHost only known now host.now) }
    {
        match only {
            None => Some(KeptHost {
                six: Some(self.known_of(now, host, Family::V6)?),
                four: Some(self.known_of(now, host, Family::V4)?),
            }),
            Some(Family::V6) => Some(KeptHost {
                six: Some(self.known_of(now, host, Family::V6)?),
                four: None,
            }),
            Some(Family::V4) => Some(KeptHost {
                six: None,
                four: Some(self.known_of(now, host, Family::V4)?),
            }),
        }
    }

    /// Keeps an answer. If an allocation fails, it is not kept.
    pub fn keep(&self, answer: KeptAnswer) {
        if let Ok(mut table) = self.table.try_borrow_mut() {
            let _ = table.keep(answer);
        } else {
            drop(answer);
        }
    }

    /// The question of a race that is asking name servers for the family of the host, if there is one. None also if
    /// an allocation fails.
    pub fn asked(&self, host: &str, family: Family) -> Option<Question>
        ensures { IfSome result (λ question. IsAbout question host.now family) }
    {
        let asked = self.asked.try_borrow().ok()?;
        asked_in(self.alloc, &asked, host, family)
    }

    /// Notes that a race asks for the family of the host.
    ///
    /// # Errors
    ///
    /// `Memory` if an allocation failed: nothing is noted.
    pub fn ask(&self, host: &str, family: Family) -> Result<Asking<'_>, Memory>
        ensures { IfOk result (λ asking. IsAbout asking.question host.now family) }
    {
        let question = Question::of(self.alloc, host, family)?;
        let noted = Question::of(self.alloc, host, family)?;
        let Ok(mut asked) = self.asked.try_borrow_mut() else {
            return Err(Memory);
        };
        asked.push(noted)?;
        Ok(Asking {
            kept: self,
            question,
        })
    }

    // Notes that the race has its answer, or goes away, and wakes those that wait.
    fn remove(&self, question: &Question) {
        if let Ok(mut asked) = self.asked.try_borrow_mut() {
            remove_in(&mut asked, question);
        }
        self.answered.notify_waiters();
    }
}

fn known_in(
    alloc: Global,
    table: &KeptTable,
    now: u64,
    host: &str,
    family: Family,
) -> Option<KeptAnswer>
    ensures serves { IfSome result (λ answer. Serves answer now host.now family) }
    ensures law { (past : List KeptAnswer) → Explains past table.now
        → IfSome result (IsOfPast past now host.now family) }
{
    match table.answer(now, host, family) {
        Ok(Some(kept)) => kept.copied(alloc).ok(),
        _ => None,
    }
}

fn asked_in(alloc: Global, asked: &[Question], host: &str, family: Family) -> Option<Question>
    ensures { IfSome result (λ question. IsAbout question host.now family) }
{
    let found = asked.iter().find(|question| question.is_of(host, family))?;
    Question::of(alloc, found.host.as_str(), found.family).ok()
}

fn remove_in(asked: &mut Vec<Question>, question: &Question) {
    let place = asked
        .iter()
        .position(|other| other.is_of(&question.host, question.family));
    if let Some(place) = place {
        drop(asked.swap_remove(place));
    }
}
