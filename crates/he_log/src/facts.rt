//! The facts of a session that its end doesn't have.

use crate::lost::Lost;
use he_addr::{Ip, Memory, write_ip};
use std::alloc::Global;
use std::cell::Cell;
use std::mem::drop;
use std::net::SocketAddr;

/// The log's facts of a session's race.
#[derive(Drop)]
pub struct Facts {
    /// When the race began, as from `stamp_now`.
    pub began: Option<String>,
    /// The path of its record in the records' directory.
    pub record: Option<String>,
    /// The tick at which its first attempt started.
    pub names: Option<u64>,
    /// Why it has no winner, if it ended without one.
    pub lost: Option<Lost>,
    /// The tick at which it was given up, if it was.
    pub given_up: Option<u64>,
    /// The addresses that were tried, if it has no winner.
    pub tried: Vec<Ip>,
    /// The IPv4 hosts that the winner's address or those that were tried reach through a NAT64.
    pub hosts: Vec<Ip>,
}

impl Facts {
    /// No facts.
    pub fn none(alloc: Global) -> Facts {
        Facts {
            began: None,
            record: None,
            names: None,
            lost: None,
            given_up: None,
            tried: Vec::new(alloc),
            hosts: Vec::new(alloc),
        }
    }

    // Appends what was tried, or why there was nothing to try.
    fn write_tried(&self, out: &mut Vec<u8>) -> Result<(), Memory> {
        if self.lost == Some(Lost::Forbidden) {
            return Ok(());
        }
        let mut parting: &[u8] = b": ";
        for ip in &self.tried {
            out.extend_from_slice(parting)?;
            write_ip(*ip, out)?;
            parting = b", ";
        }
        match self.lost.and_then(Lost::nameless) {
            Some(why) if self.tried.is_empty() => {
                out.extend_from_slice(b": ")?;
                out.extend_from_slice(why.as_bytes())?;
                Ok(())
            }
            _ => Ok(()),
        }
    }
}

#[derive(Drop)]
struct Noted {
    client: SocketAddr,
    facts: Facts,
}

/// The facts of the sessions in progress, by client.
#[derive(Drop)]
pub struct SessionFacts {
    alloc: Global,
    noted: Cell<Vec<Noted>>,
}

impl SessionFacts {
    /// No sessions.
    pub fn new(alloc: Global) -> SessionFacts {
        SessionFacts {
            alloc,
            noted: Cell::new(Vec::new(alloc)),
        }
    }

    /// Records the facts of this client's session. They are lost if an allocation fails.
    pub fn note(&self, client: SocketAddr, facts: Facts) {
        let mut noted = self.noted.replace(Vec::new(self.alloc));
        let _ = noted.push(Noted { client, facts });
        self.noted.set(noted);
    }

    /// Appends what the lost race of this client tried, or why there was nothing to try: `: 2001:db8::1,
    /// 198.51.100.1`, `: no such name`. Nothing if the client may not reach its target.
    ///
    /// # Errors
    ///
    /// `Memory` if an allocation fails; part of it may have been appended.
    pub fn write_tried(&self, client: SocketAddr, out: &mut Vec<u8>) -> Result<(), Memory> {
        let noted = self.noted.replace(Vec::new(self.alloc));
        let written = match noted.iter().position(|one| one.client == client) {
            Some(place) => noted[place].facts.write_tried(out),
            None => Ok(()),
        };
        self.noted.set(noted);
        written
    }

    /// Takes the facts of this client's session, which has ended.
    pub fn take(&self, client: SocketAddr) -> Facts {
        let mut noted = self.noted.replace(Vec::new(self.alloc));
        let place = noted.iter().position(|one| one.client == client);
        let found = match place {
            Some(place) => Some(noted.swap_remove(place)),
            None => None,
        };
        self.noted.set(noted);
        match found {
            Some(Noted { client: _, facts }) => facts,
            None => Facts::none(self.alloc),
        }
    }
}
