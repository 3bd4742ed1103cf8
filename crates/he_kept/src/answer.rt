//! Questions to name servers, and their answers.
ghost use Rattle.std.specs.Prelude.{◌≡◌, ◌++◌, IfOk, IsTrue, OnOk, string_bytes};
ghost use Rattle.he_kept.specs.Answers.{IsAbout, IsCopy, IsCopied, answer_of, fault_in, ips_in};

use he_addr::{Family, Ip, Memory};
use he_settings::NamesFault;
use std::alloc::Global;

/// A question: a family of a host's addresses.
#[derive(Drop)]
pub struct Question {
    pub host: String,
    pub family: Family,
}

impl Question {
    /// The question for this family of the host.
    ///
    /// # Errors
    ///
    /// `Memory` if an allocation failed.
    pub fn of(alloc: Global, host: &str, family: Family) -> Result<Question, Memory>
        ensures { IfOk result (λ question. (string_bytes question.host ≡ host.now) × (question.family ≡ family)) }
    {
        Ok(Question {
            host: String::from_str(alloc, host)?,
            family,
        })
    }

    /// Whether the question is for that family of the host. Hosts are compared without regard to the case of ASCII
    /// letters (RFC 4343).
    pub fn is_of(&self, host: &str, family: Family) -> bool
        ensures { IsTrue result → IsAbout self.now host.now family }
    {
        self.family == family && self.host.eq_ignore_ascii_case(host)
    }
}

/// The second in which an answer was kept, and its TTL.
#[derive(Clone, Copy, Debug, PartialEq, Eq)]
pub struct Lifetime {
    /// The second in which it was kept.
    pub at: u64,
    /// The name server's TTL, in seconds; None if there is none, as when the name doesn't exist.
    pub ttl: Option<u32>,
}

/// An answer of name servers: the addresses, or why there are none.
#[derive(Drop)]
pub struct KeptAnswer {
    pub question: Question,
    pub told: Result<Vec<Ip>, NamesFault>,
    pub life: Lifetime,
}

impl KeptAnswer {
    /// A copy of the answer.
    ///
    /// # Errors
    ///
    /// `Memory` if an allocation failed.
    pub fn copied(&self, alloc: Global) -> Result<KeptAnswer, Memory>
        ensures { IfOk result (IsCopy self.now) }
    {
        Ok(KeptAnswer {
            question: Question::of(alloc, self.question.host.as_str(), self.question.family)?,
            told: copy_of(alloc, &self.told)?,
            life: self.life,
        })
    }

    /// The addresses, or why there are none.
    pub fn into_told(self) -> Result<Vec<Ip>, NamesFault>
        ensures { result ≡ self.told }
    {
        self.told
    }
}

/// A copy of the addresses, or of the reason that there are none.
///
/// # Errors
///
/// `Memory` if an allocation failed.
pub fn copy_of(
    alloc: Global,
    told: &Result<Vec<Ip>, NamesFault>,
) -> Result<Result<Vec<Ip>, NamesFault>, Memory>
    ensures { IfOk result (IsCopied told.now) }
{
    Ok(match told {
        Ok(ips) => Ok(Vec::from_slice(alloc, ips)?),
        Err(fault) => Err(*fault),
    })
}

/// The answers kept for a host: one for each family that is tried.
#[derive(Drop)]
pub struct KeptHost {
    pub six: Option<KeptAnswer>,
    pub four: Option<KeptAnswer>,
}

impl KeptHost {
    /// The host's addresses, those of IPv6 first.
    ///
    /// # Errors
    ///
    /// `Memory` if an allocation failed.
    pub fn ips(&self, alloc: Global) -> Result<Vec<Ip>, Memory>
        ensures { IfOk result (λ ips. ips.items ≡ ips_in self.now.six ++ ips_in self.now.four) }
    {
        let mut ips = Vec::new(alloc);
        add_ips(&self.six, &mut ips)?;
        add_ips(&self.four, &mut ips)?;
        Ok(ips)
    }

    /// Why the family has no address, if that is its answer.
    pub fn fault(&self, family: Family) -> Option<NamesFault>
        ensures { result ≡ fault_in (answer_of self.now family) }
    {
        let answer = match family {
            Family::V6 => &self.six,
            Family::V4 => &self.four,
        };
        if let Some(answer) = answer
            && let Err(fault) = &answer.told
        {
            return Some(*fault);
        }
        None
    }
}

fn add_ips(answer: &Option<KeptAnswer>, ips: &mut Vec<Ip>) -> Result<(), Memory>
    ensures { OnOk result (ips.new.items ≡ ips.old.items ++ ips_in answer.now) }
{
    if let Some(answer) = answer
        && let Ok(kept) = &answer.told
    {
        ips.extend_from_slice(kept)?;
    }
    Ok(())
}
