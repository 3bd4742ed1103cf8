//! The events of a look-up, as they happen.

use he_asking::LookupEvent;
use he_live::Quiet;

/// Gets the events of a look-up, each time after the race has polled it.
pub trait LookupWatcher: Drop {
    /// Takes the events since the last call, at the race's tick.
    fn tell_lookup(&self, events: &[LookupEvent], tick: u64);

    /// Takes lines about files of this machine that can't be read, and destinations that the kernel can't be asked
    /// for.
    fn tell_remarks(&self, remarks: &[u8]);

    /// Takes the race's tick at which the prefixes of the network's NAT64 are asked for.
    fn tell_prefixes_asked(&self, tick: u64);
}

impl LookupWatcher for Quiet {
    fn tell_lookup(&self, _events: &[LookupEvent], _tick: u64) {}

    fn tell_remarks(&self, _remarks: &[u8]) {}

    fn tell_prefixes_asked(&self, _tick: u64) {}
}
