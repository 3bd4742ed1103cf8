//! The answers of both families for a name.

ghost use Rattle.std.specs.Prelude.{◌≡◌, ◌++◌, IfOk, OnOk};
ghost use Rattle.he_addr.specs.declared.ip.Family.TheVariants as families;
ghost use Rattle.he_names.specs.Answers.{Finds, IsFound, answer_of, answers_text, cleaned};

use crate::answers::{clean_of, write_answer};
use he_addr::{Family, Ip, Memory};
use std::alloc::{Allocator, Global};
use std::marker::Model;

/// The addresses of a name, at least one: for each family its addresses, each once and at most 256, and the tick at
/// which they came.
#[derive(Drop)]
pub struct Found<A: Allocator = Global> {
    v6_tick: u64,
    v6: Vec<Ip, A>,
    v4_tick: u64,
    v4: Vec<Ip, A>,
}

impl<A: Allocator> Model for Found<A> {
    ghost use Rattle.he_names.specs.Answers.{Answers, IsFound};

    ghost Value = { Answers };

    ghost view = { λ f. record { v6_tick = f.v6_tick; v6 = f.v6.items; v4_tick = f.v4_tick; v4 = f.v4.items } };

    ghost invariant = { λ f. IsFound (record { v6_tick = f.v6_tick; v6 = f.v6.items; v4_tick = f.v4_tick; v4 = f.v4.items }) };
}

impl<A: Allocator + Copy> Found<A> {
    /// The answers that came at these ticks, each cleaned; None if neither family has an address.
    ///
    /// # Errors
    ///
    /// [`Memory`] if an allocation failed.
    pub fn new(
        alloc: A,
        v6_tick: u64,
        v6: &[Ip],
        v4_tick: u64,
        v4: &[Ip],
    ) -> Result<Option<Found<A>>, Memory>
        ensures { IfOk result (Finds (record {
          v6_tick = v6_tick;
          v6 = cleaned families.V6 v6.now;
          v4_tick = v4_tick;
          v4 = cleaned families.V4 v4.now;
        })) }
    {
        let v6 = clean_of(alloc, Family::V6, v6)?;
        let v4 = clean_of(alloc, Family::V4, v4)?;
        if v6.is_empty() && v4.is_empty() {
            return Ok(None);
        }
        Ok(Some(Found {
            v6_tick,
            v6,
            v4_tick,
            v4,
        }))
    }

    /// The family's answer: the tick at which it came, and its addresses.
    pub fn answer(&self, family: Family) -> (u64, &[Ip])
        ensures answer { (result.0, result.1.now) ≡ answer_of family self.now }
        ensures found { IsFound self.now }
    {
        match family {
            Family::V6 => (self.v6_tick, self.v6.as_slice()),
            Family::V4 => (self.v4_tick, self.v4.as_slice()),
        }
    }

    /// Appends both answers as lines of a timeline, that of IPv6 first.
    ///
    /// # Errors
    ///
    /// [`Memory`] if an allocation failed; a part may have been appended.
    pub fn write(&self, out: &mut Vec<u8, A>) -> Result<(), Memory>
        ensures text { OnOk result (out.new.items ≡ out.old.items ++ answers_text self.now) }
        ensures found { IsFound self.now }
    {
        write_answer(b"aaaa", self.v6_tick, &self.v6, out)?;
        write_answer(b"a", self.v4_tick, &self.v4, out)
    }
}
