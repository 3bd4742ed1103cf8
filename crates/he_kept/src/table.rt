//! The table of kept answers.
ghost use Rattle.he_kept.specs.Own.{IsOwn};

use crate::answer::{KeptAnswer, Lifetime};
use he_addr::{Family, Memory};
use he_cache::AnswerCache;
use std::alloc::Global;

/// The answers kept, each for the host and family that it contains.
#[derive(Drop)]
pub struct KeptTable {
    alloc: Global,
    cache: AnswerCache<KeptAnswer>,
    ghost own: { IsOwn cache },
}

impl KeptTable {
    ghost use Rattle.std.specs.Prelude.{◌≡◌, ◌∷◌, ◌≢◌, List, [], IfOk, IfSome, OnErr, OnOk, Some, false, string_bytes};
    ghost use Rattle.std.specs.Option.{option_copied};
    ghost use Rattle.he_cache.specs.Keeping.{answer_at, has_room, is_same, kept_of, seconds_for};
    ghost use Rattle.he_kept.specs.Past.{Explains, WasKept};
    ghost use Rattle.he_kept.specs.Answers.{Serves};
    ghost use Rattle.he_kept.specs.declared.answer.KeptAnswer.{KeptAnswer};

    /// An empty table.
    ///
    /// # Errors
    ///
    /// `Memory` if an allocation failed.
    pub fn new(alloc: Global) -> Result<KeptTable, Memory>
        ensures { IfOk result (Explains []) }
    {
        Ok(KeptTable {
            alloc,
            cache: AnswerCache::new(alloc)?,
        })
    }

    /// The answer kept last for this family of the host, if it is valid at this second.
    ///
    /// # Errors
    ///
    /// `Memory` if an allocation failed.
    pub fn answer(
        &self,
        now: u64,
        host: &str,
        family: Family,
    ) -> Result<Option<&KeptAnswer>, Memory>
        ensures law { (past : List KeptAnswer) → Explains past self.now
            → IfOk result (λ found. IfSome found (λ answer. WasKept past now host.now family answer.now)) }
        ensures serves { IfOk result (λ found. IfSome found (λ answer. Serves answer.now now host.now family)) }
        ensures last { IfOk result (λ found. option_copied found ≡ answer_at now (kept_of self.now.cache host.now family)) }
    {
        self.cache.answer(now, host, family)
    }

    /// Keeps an answer, and replaces an earlier one for its host and family. The answers of other hosts are
    /// unchanged; but if their number is at its maximum, the host that was kept longest ago is forgotten.
    ///
    /// # Errors
    ///
    /// `Memory` if an allocation failed; nothing has changed.
    pub fn keep(&mut self, answer: KeptAnswer) -> Result<(), Memory>
        ensures past { (past : List KeptAnswer) → Explains past self.old → Explains (answer ∷ past) self.new }
        ensures kept { OnOk result (kept_of self.new.cache (string_bytes answer.question.host) answer.question.family
            ≡ Some (record { answer = answer; at = answer.life.at; seconds = seconds_for answer.life.ttl })) }
        ensures room { has_room self.old.cache answer.question.family → (other : _)
            → is_same (string_bytes answer.question.host) other ≡ false
            → kept_of self.new.cache other answer.question.family ≡ kept_of self.old.cache other answer.question.family }
        ensures other_family { (other : _) → other ≢ answer.question.family → (host : _)
            → kept_of self.new.cache host other ≡ kept_of self.old.cache host other }
        ensures same { OnErr result (self.new ≡ self.old) }
    {
        let host = String::from_str(self.alloc, answer.question.host.as_str())?;
        let Lifetime { at, ttl } = answer.life;
        let family = answer.question.family;
        self.cache.keep(at, host.as_str(), family, answer, ttl)
    }
}
