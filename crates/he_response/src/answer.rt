// How far a response has come.

ghost use Rattle.std.specs.Prelude.{◌≤◌, length};

use crate::part::{Part, begun};
use crate::response::{ReadResponse, Response, read_response};
use he_addr::Memory;
use he_body::Body;
use std::alloc::Global;
use std::io;

/// The most octets of a head.
pub const MOST_HEAD: usize = 16_384;

/// How far a response has come, and what the client gets of it.
#[derive(Drop)]
pub struct Answer {
    alloc: Global,
    // Whether the request was HEAD.
    to_head: bool,
    part: Part,
    // The octets of a head that is not whole yet.
    come: Vec<u8>,
    // The octets for the client, of which the first ones are given.
    out: Vec<u8>,
    given: usize,
    ghost within: { given ≤ length out.items },
}

impl Answer {
    ghost use Rattle.std.specs.Prelude.{◌≡◌, ◌<◌, [], IfOk, Ok, OnErr, false, take, true};
    ghost use Rattle.he_response.specs.Answers.{GoesOn, IsOver, Stands, held};
    ghost use Rattle.he_response.specs.Responses.{Reads};

    /// The response that begins, which may be one to HEAD.
    pub fn new(alloc: Global, to_head: bool) -> Answer
        ensures { Stands to_head [] [] result }
    {
        Answer {
            alloc,
            to_head,
            part: Part::Head,
            come: Vec::new(alloc),
            out: Vec::new(alloc),
            given: 0,
        }
    }

    /// The part that comes next.
    pub fn part(&self) -> Part
        ensures { result ≡ self.now.part }
    {
        self.part
    }

    /// Whether there are octets for the client.
    pub fn holds(&self) -> bool
        ensures some { result ≡ true → held self.now ≡ [] → ⊥ }
        ensures none { result ≡ false → held self.now ≡ [] }
    {
        self.given < self.out.len()
    }

    /// Moves octets for the client into the room: how many.
    pub fn give(&mut self, room: &mut [u8]) -> usize
        ensures within { result ≤ length room.new }
        ensures goes { GoesOn [] (take result room.new) self.old self.new }
        ensures part { self.new.part ≡ self.old.part }
        ensures none { result ≡ 0 → 0 < length room.old → held self.old ≡ [] }
    {
        let count = room.len().min(self.out.len() - self.given);
        room[..count].copy_from_slice(&self.out[self.given..self.given + count]);
        self.given += count;
        count
    }

    /// Takes octets of a head, which come next.
    ///
    /// # Errors
    ///
    /// If it has more octets than a head may, or an allocation failed.
    pub fn hear(&mut self, octets: &[u8]) -> io::Result<()>
        requires { self.old.part ≡ Part.Head }
        ensures { GoesOn octets.now [] self.old self.new }
    {
        if self.come.len() >= MOST_HEAD {
            self.part = Part::Broken;
            return Err(io::ErrorKind::InvalidData.into());
        }
        match self.come.extend_from_slice(octets) {
            Ok(()) => Ok(()),
            Err(_) => {
                self.part = Part::Broken;
                Err(io::ErrorKind::OutOfMemory.into())
            }
        }
    }

    /// Takes the head that has come, if it is whole: whether it is.
    ///
    /// # Errors
    ///
    /// If the octets begin with none that is returned, or an allocation failed.
    pub fn take_head(&mut self) -> io::Result<bool>
        requires head { self.old.part ≡ Part.Head }
        requires none { held self.old ≡ [] }
        ensures goes { GoesOn [] [] self.old self.new }
        ensures part { result ≡ Ok false → self.new.part ≡ Part.Head }
    {
        match read_response(self.alloc, &self.come, self.to_head) {
            Ok(ReadResponse::Whole(response)) => self.take_response(response),
            Ok(ReadResponse::Partial) => Ok(false),
            Ok(ReadResponse::Refused) => self.break_off(io::ErrorKind::InvalidData),
            Err(Memory) => self.break_off(io::ErrorKind::OutOfMemory),
        }
    }

    // Ends it, for this reason.
    fn break_off(&mut self, kind: io::ErrorKind) -> io::Result<bool>
        requires { self.old.part ≡ Part.Head }
        ensures goes { GoesOn [] [] self.old self.new }
        ensures broken { result ≡ Ok false → ⊥ }
    {
        self.part = Part::Broken;
        Err(kind.into())
    }

    fn take_response(&mut self, response: Response) -> io::Result<bool>
        requires head { self.old.part ≡ Part.Head }
        requires none { held self.old ≡ [] }
        requires reads { Reads self.old.to_head self.old.come.items (ReadResponse.Whole response) }
        ensures goes { GoesOn [] [] self.old self.new }
        ensures whole { result ≡ Ok false → ⊥ }
    {
        if response.is_final {
            self.begin(response)
        } else {
            self.pass(response)
        }
    }

    // Passes on an interim response.
    fn pass(&mut self, response: Response) -> io::Result<bool>
        requires head { self.old.part ≡ Part.Head }
        requires none { held self.old ≡ [] }
        requires reads { Reads self.old.to_head self.old.come.items (ReadResponse.Whole response) }
        requires interim { response.is_final ≡ false }
        ensures goes { GoesOn [] [] self.old self.new }
        ensures whole { result ≡ Ok false → ⊥ }
    {
        let Response { head, len, .. } = response;
        match Vec::from_slice(self.alloc, &self.come[len..]) {
            Ok(rest) => {
                self.come = rest;
                self.out = head;
                self.given = 0;
                Ok(true)
            }
            Err(_) => self.break_off(io::ErrorKind::OutOfMemory),
        }
    }

    // Begins the body of the final response, of which octets may have come with the head.
    fn begin(&mut self, response: Response) -> io::Result<bool>
        requires head { self.old.part ≡ Part.Head }
        requires none { held self.old ≡ [] }
        requires reads { Reads self.old.to_head self.old.come.items (ReadResponse.Whole response) }
        requires last { response.is_final ≡ true }
        ensures goes { GoesOn [] [] self.old self.new }
        ensures whole { result ≡ Ok false → ⊥ }
    {
        let Response {
            head: mut out,
            framing,
            len,
            ..
        } = response;
        let rest = &self.come[len..];
        let Some((part, count)) = begun(framing, rest) else {
            return self.break_off(io::ErrorKind::InvalidData);
        };
        match out.extend_from_slice(&rest[..count]) {
            Ok(()) => {
                self.part = part;
                self.come = Vec::new(self.alloc);
                self.out = out;
                self.given = 0;
                Ok(true)
            }
            Err(_) => self.break_off(io::ErrorKind::OutOfMemory),
        }
    }

    /// Counts octets of the body, which come next: how many are of it.
    ///
    /// # Errors
    ///
    /// If no such body begins with what came.
    pub fn count(&mut self, body: Body, octets: &[u8]) -> io::Result<usize>
        requires part { self.old.part ≡ Part.Body body }
        requires none { held self.old ≡ [] }
        ensures within { IfOk result (λ count. count ≤ length octets.now) }
        ensures taken { IfOk result (λ count. GoesOn octets.now (take count octets.now) self.old self.new) }
        ensures never { OnErr result (GoesOn octets.now [] self.old self.new) }
        ensures over { result ≡ Ok 0 → 0 < length octets.now → IsOver self.new }
    {
        let mut body = body;
        let taken = body.take(octets);
        self.part = Part::Body(body);
        match taken {
            Ok(count) => Ok(count),
            Err(_) => Err(io::ErrorKind::InvalidData.into()),
        }
    }
}
