//! A writer over memory.
ghost use Rattle.std.specs.Prelude.{◌≡◌, ◌⊎◌, ◌<◌, ◌^◌, ◌-◌, ◌++◌, [], None, Some, IsTrue, IfOk, OnErr, OnOk, length, take, true, false};
ghost use Rattle.std.specs.Io.{WritesAtMost};
ghost use Rattle.std.specs.Io.KnownBytes.{Keeps, WriteAppends};
ghost use Rattle.stream_fakes.specs.Fakes.{Sink, next_count, taken_count};

use std::alloc::Global;
use std::io::{Error, ErrorKind, Result, Write};
use std::marker::Model;

/// A writer that keeps what it takes.
#[derive(Drop)]
pub struct FakeWriter {
    held: Vec<u8>,
    most: usize,
    step: usize,
    takes_none: bool,
    flush_fails: bool,
    interrupted: Option<u64>,
    calls: u64,
    flushes: u64,
}

impl Model for FakeWriter {
    ghost Value = { Sink };

    ghost view = { λ w. record {
      held = w.held.items;
      most = w.most;
      step = w.step;
      takes_none = w.takes_none;
      flush_fails = w.flush_fails;
      interrupted = w.interrupted;
      calls = w.calls;
      flushes = w.flushes;
    } };

    ghost invariant = { λ w. 0 < w.step };
}

impl FakeWriter {
    /// A writer that takes all that it is given.
    pub fn new(alloc: Global) -> FakeWriter
        ensures { result ≡ record {
          held = [];
          most = 2 ^ 64 - 1;
          step = 2 ^ 64 - 1;
          takes_none = false;
          flush_fails = false;
          interrupted = None;
          calls = 0;
          flushes = 0;
        } }
    {
        FakeWriter {
            held: Vec::new(alloc),
            most: usize::MAX,
            step: usize::MAX,
            takes_none: false,
            flush_fails: false,
            interrupted: None,
            calls: 0,
            flushes: 0,
        }
    }

    /// The writer takes at most `most` bytes in all. After them a write fails.
    pub fn with_room(mut self, most: usize) -> FakeWriter
        ensures { result ≡ record self { most = most } }
    {
        self.most = most;
        self
    }

    /// The writer takes at most `step` bytes in one write.
    pub fn with_step(mut self, step: usize) -> FakeWriter
        requires { 0 < step }
        ensures { result ≡ record self { step = step } }
    {
        self.step = step;
        self
    }

    /// A write after the last byte that it takes returns 0, and does not fail.
    pub fn taking_none(mut self) -> FakeWriter
        ensures { result ≡ record self { takes_none = true } }
    {
        self.takes_none = true;
        self
    }

    /// Each flush fails.
    pub fn failing_flush(mut self) -> FakeWriter
        ensures { result ≡ record self { flush_fails = true } }
    {
        self.flush_fails = true;
        self
    }

    /// The call of this number returns `Interrupted` and does nothing. Writes and flushes are counted together, from
    /// 0.
    pub fn interrupted_at(mut self, call: u64) -> FakeWriter
        ensures { result ≡ record self { interrupted = Some call } }
    {
        self.interrupted = Some(call);
        self
    }

    /// The bytes that were written.
    pub fn held(&self) -> &[u8]
        ensures { result.now ≡ self.now.held }
    {
        self.held.as_slice()
    }

    /// The number of writes and flushes, failed ones included.
    pub fn calls(&self) -> u64
        ensures { result ≡ self.now.calls }
    {
        self.calls
    }

    /// The number of flushes that succeeded.
    pub fn flushes(&self) -> u64
        ensures { result ≡ self.now.flushes }
    {
        self.flushes
    }

    // Counts the call, and fails if it is the one to be interrupted.
    fn count_call(&mut self) -> Result<()>
        ensures counted { self.new ≡ record self.old { calls = next_count self.old.calls } }
        ensures err { OnErr result (self.old.interrupted ≡ Some self.old.calls) }
    {
        let call = self.calls;
        self.calls = call.saturating_add(1);
        if self.interrupted == Some(call) {
            return Err(Error::from(ErrorKind::Interrupted));
        }
        Ok(())
    }
}

impl Write for FakeWriter {
    ghost contents = { λ sink. Some sink.held };

    fn write(&mut self, buf: &[u8]) -> Result<usize>
        ensures bound { WritesAtMost result buf.now }
        ensures bytes { WriteAppends (Some self.old.held) (Some self.new.held) result buf.now }

        ensures ok { IfOk result (λ n. (n ≡ taken_count self.old (length buf.now))
            × (self.new ≡ record self.old { held = self.old.held ++ take n buf.now; calls = next_count self.old.calls })) }
        ensures err { OnErr result (self.new ≡ record self.old { calls = next_count self.old.calls }) }
    {
        self.count_call()?;
        let room = self.most.saturating_sub(self.held.len());
        let count = self.step.min(buf.len()).min(room);
        if count == 0 && !buf.is_empty() && !self.takes_none {
            return Err(Error::from(ErrorKind::Other));
        }
        self.held.extend_from_slice(&buf[..count])?;
        Ok(count)
    }

    fn flush(&mut self) -> Result<()>
        ensures bytes { Keeps (Some self.old.held) (Some self.new.held) }

        ensures ok { OnOk result (self.new ≡ record self.old {
          calls = next_count self.old.calls;
          flushes = next_count self.old.flushes;
        }) }
        ensures err { OnErr result (self.new ≡ record self.old { calls = next_count self.old.calls }) }
        ensures fault { OnErr result ((self.old.interrupted ≡ Some self.old.calls) ⊎ IsTrue self.old.flush_fails) }
    {
        self.count_call()?;
        if self.flush_fails {
            return Err(Error::from(ErrorKind::Other));
        }
        self.flushes = self.flushes.saturating_add(1);
        Ok(())
    }
}
