//! A reader over memory.
ghost use Rattle.std.specs.Prelude.{◌≡◌, ◌⊎◌, ◌<◌, ◌≤◌, [], None, Some, IsTrue, IfOk, OnErr, length, drop, true, false};
ghost use Rattle.std.specs.Io.{ReadsAtMost};
ghost use Rattle.std.specs.Io.KnownBytes.{ReadConsumes};
ghost use Rattle.stream_fakes.specs.Fakes.{Source, next_count, given_count};

use std::io::{Error, ErrorKind, Read, Result};
use std::marker::Model;

/// A reader that gives the bytes of a slice in pieces.
#[derive(Drop)]
pub struct FakeReader<'a> {
    bytes: &'a [u8],
    at: usize,
    step: usize,
    is_broken: bool,
    interrupted: Option<u64>,
    reads: u64,
}

impl<'a> Model for FakeReader<'a> {
    ghost Value = { Source };

    ghost view = { λ r. record {
      left = drop r.at r.bytes.now;
      step = r.step;
      is_broken = r.is_broken;
      interrupted = r.interrupted;
      reads = r.reads;
    } };

    ghost invariant = { λ r. (r.at ≤ length r.bytes.now) × (0 < r.step) };
}

impl<'a> FakeReader<'a> {
    /// A reader that gives `bytes`, at most `step` in one read, and then ends.
    pub fn new(bytes: &'a [u8], step: usize) -> FakeReader<'a>
        requires { 0 < step }
        ensures { result ≡ record {
          left = bytes.entry.now;
          step = step;
          is_broken = false;
          interrupted = None;
          reads = 0;
        } }
    {
        FakeReader {
            bytes,
            at: 0,
            step,
            is_broken: false,
            interrupted: None,
            reads: 0,
        }
    }

    /// The reader breaks instead of ending: each read after the last byte fails.
    pub fn broken(mut self) -> FakeReader<'a>
        ensures { result ≡ record self.entry { is_broken = true } }
    {
        self.is_broken = true;
        self
    }

    /// The read of this number, counted from 0, returns `Interrupted` and gives nothing.
    pub fn interrupted_at(mut self, read: u64) -> FakeReader<'a>
        ensures { result ≡ record self.entry { interrupted = Some read } }
    {
        self.interrupted = Some(read);
        self
    }

    /// The number of reads, failed ones included.
    pub fn reads(&self) -> u64
        ensures { result ≡ self.now.reads }
    {
        self.reads
    }
}

impl Read for FakeReader<'_> {
    ghost remaining = { λ source. Some source.left };

    fn read(&mut self, buf: &mut [u8]) -> Result<usize>
        ensures bound { ReadsAtMost result buf.new }
        ensures bytes { ReadConsumes (Some self.old.left) (Some self.new.left) result buf.new }

        ensures ok { IfOk result (λ n. (n ≡ given_count self.old (length buf.old))
            × (self.new ≡ record self.old { left = drop n self.old.left; reads = next_count self.old.reads })) }
        ensures err { OnErr result (self.new ≡ record self.old { reads = next_count self.old.reads }) }
        ensures fault { OnErr result ((self.old.interrupted ≡ Some self.old.reads)
            ⊎ ((self.old.left ≡ []) × IsTrue self.old.is_broken)) }
    {
        let read = self.reads;
        self.reads = read.saturating_add(1);
        if self.interrupted == Some(read) {
            return Err(Error::from(ErrorKind::Interrupted));
        }
        let left = &self.bytes[self.at..];
        if self.is_broken && left.is_empty() {
            return Err(Error::from(ErrorKind::Other));
        }
        let count = self.step.min(buf.len()).min(left.len());
        buf[..count].copy_from_slice(&left[..count]);
        self.at += count;
        Ok(count)
    }
}
