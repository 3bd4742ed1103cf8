// The kernel's answers in one race, so that each destination is looked up once.
//
// Proved: an answer is for its destination and interface. No contract has the system's answers.

ghost use Rattle.std.specs.Prelude.{◌≡◌, IfOk, IfSome, find, true};
ghost use Rattle.he_kernel.specs.Asked.{is_for};

use crate::remarks::write_unasked;
use crate::sockets::try_source;
use crate::ways::Way;
use he_addr::{Ip, Memory};
use std::alloc::{AllocGlobal, Global};
use std::cell::Cell;
use std::io;
use std::net::Net;
use std::rc::Rc;

/// The kernel's answers for the destinations of one race, for all its holders. Don't keep it for another race: routes
/// change.
#[derive(Drop)]
pub struct AskedWays {
    answers: Rc<Cell<Option<Vec<Answered>>>>,
}

/// An answer of the kernel.
#[derive(Clone, Copy, Debug, PartialEq, Eq)]
pub struct Answered {
    /// The interface to a link-local destination.
    pub scope: u32,
    pub way: Way,
}

impl Answered {
    // Whether it is for the destination, over the interface.
    fn is_for(self, to: Ip, scope: u32) -> bool
        ensures { result ≡ is_for to scope self }
    {
        self.way.to == to && self.scope == scope
    }
}

impl AskedWays {
    /// No answers.
    ///
    /// # Errors
    ///
    /// `Memory` if an allocation fails.
    pub fn new(alloc: Global) -> Result<AskedWays, Memory> {
        Ok(AskedWays {
            answers: Rc::new(alloc, Cell::new(Some(Vec::new(alloc))))?,
        })
    }

    /// Another handle to these answers.
    ///
    /// # Errors
    ///
    /// `Memory` if there are too many handles.
    pub fn share(&self) -> Result<AskedWays, Memory> {
        Ok(AskedWays {
            answers: self.answers.clone()?,
        })
    }

    /// The way to a destination: the kernel's earlier answer in this race, or a new one. A link-local IPv6
    /// destination is reached over the interface `scope`. If the kernel can't be asked, there is no way.
    pub fn way<R: Net>(&self, rt: &R, to: Ip, scope: u32) -> Way
        ensures { result.to ≡ to }
    {
        self.ask(rt, to, scope).unwrap_or(Way { to, from: None })
    }

    /// As [`way`](AskedWays::way); appends a remark if the kernel can't be asked.
    ///
    /// # Errors
    ///
    /// [`Memory`] if an allocation fails.
    pub fn way_or_remark<R: Net + AllocGlobal>(
        &self,
        rt: &R,
        to: Ip,
        scope: u32,
        remarks: &mut Vec<u8>,
    ) -> Result<Way, Memory>
        ensures { IfOk result (λ way. way.to ≡ to) }
    {
        match self.ask(rt, to, scope) {
            Ok(way) => Ok(way),
            Err(error) => {
                write_unasked(rt.alloc(), to, error, remarks)?;
                Ok(Way { to, from: None })
            }
        }
    }

    // The way, or why the kernel can't be asked, which is not kept.
    fn ask<R: Net>(&self, rt: &R, to: Ip, scope: u32) -> io::Result<Way>
        ensures { IfOk result (λ way. way.to ≡ to) }
    {
        if let Some(kept) = self.kept(to, scope) {
            return Ok(Way {
                to,
                from: kept.way.from,
            });
        }
        let way = Way {
            to,
            from: try_source(rt, to, scope)?,
        };
        self.keep(Answered { scope, way });
        Ok(way)
    }

    fn kept(&self, to: Ip, scope: u32) -> Option<Answered>
        ensures { IfSome result (λ kept. is_for to scope kept ≡ true) }
    {
        let answers = self.answers.take();
        let kept = match &answers {
            Some(answers) => find_answer(answers, to, scope),
            None => None,
        };
        self.answers.set(answers);
        kept
    }

    // If the allocation fails, the kernel is asked again next time.
    fn keep(&self, answer: Answered) {
        let mut answers = self.answers.take();
        if let Some(answers) = &mut answers {
            let _ = answers.push(answer);
        }
        self.answers.set(answers);
    }
}

// The answer for the destination over the interface.
fn find_answer(answers: &[Answered], to: Ip, scope: u32) -> Option<Answered>
    ensures first { result ≡ find (is_for to scope) answers.now }
    ensures own { IfSome result (λ answer. is_for to scope answer ≡ true) }
{
    for answer in answers {
        if answer.is_for(to, scope) {
            return Some(*answer);
        }
    }
    None
}
