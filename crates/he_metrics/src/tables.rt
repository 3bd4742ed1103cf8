//! Counts by a cause.
ghost use Rattle.std.specs.Prelude.{◌≡◌};
ghost use Rattle.he_metrics.specs.Counting.{ends_with, looked_up_with, losses_with, refused_with, wins_with};

use crate::events::{End, Lookup, Loss, Refusal};
use he_addr::Family;

/// Ended sessions by [`End`].
#[derive(Clone, Copy)]
pub struct Ends {
    pub closed: u64,
    pub client_broke: u64,
    pub server_broke: u64,
    pub idle: u64,
    pub client_left: u64,
    pub displaced: u64,
    pub too_late: u64,
    pub refused: u64,
    pub no_response: u64,
    pub page: u64,
    pub unknown_protocol: u64,
    pub no_memory: u64,
}

impl Ends {
    /// No session.
    pub const NONE: Ends = Ends {
        closed: 0,
        client_broke: 0,
        server_broke: 0,
        idle: 0,
        client_left: 0,
        displaced: 0,
        too_late: 0,
        refused: 0,
        no_response: 0,
        page: 0,
        unknown_protocol: 0,
        no_memory: 0,
    };

    /// Adds a session that ended so.
    pub fn add(&mut self, end: End)
        ensures { self.new ≡ ends_with self.old end }
    {
        match end {
            End::Closed => self.closed = self.closed.saturating_add(1),
            End::ClientBroke => self.client_broke = self.client_broke.saturating_add(1),
            End::ServerBroke => self.server_broke = self.server_broke.saturating_add(1),
            End::Idle => self.idle = self.idle.saturating_add(1),
            End::ClientLeft => self.client_left = self.client_left.saturating_add(1),
            End::Displaced => self.displaced = self.displaced.saturating_add(1),
            End::TooLate => self.too_late = self.too_late.saturating_add(1),
            End::Refused => self.refused = self.refused.saturating_add(1),
            End::NoResponse => self.no_response = self.no_response.saturating_add(1),
            End::Page => self.page = self.page.saturating_add(1),
            End::UnknownProtocol => {
                self.unknown_protocol = self.unknown_protocol.saturating_add(1);
            }
            End::NoMemory => self.no_memory = self.no_memory.saturating_add(1),
        }
    }
}

/// Clients that were not served, by [`Refusal`].
#[derive(Clone, Copy)]
pub struct Refusals {
    pub turned_away: u64,
    pub too_many: u64,
}

impl Refusals {
    /// No client.
    pub const NONE: Refusals = Refusals {
        turned_away: 0,
        too_many: 0,
    };

    /// Adds a client that was refused so.
    pub fn add(&mut self, why: Refusal)
        ensures { self.new ≡ refused_with self.old why }
    {
        match why {
            Refusal::TurnedAway => self.turned_away = self.turned_away.saturating_add(1),
            Refusal::TooMany => self.too_many = self.too_many.saturating_add(1),
        }
    }
}

/// Races that connected, by the family of the address.
#[derive(Clone, Copy)]
pub struct Wins {
    pub by_v6: u64,
    pub by_v4: u64,
}

impl Wins {
    /// No race.
    pub const NONE: Wins = Wins { by_v6: 0, by_v4: 0 };

    /// Adds a race that connected by this family.
    pub fn add(&mut self, family: Family)
        ensures { self.new ≡ wins_with self.old family }
    {
        match family {
            Family::V6 => self.by_v6 = self.by_v6.saturating_add(1),
            Family::V4 => self.by_v4 = self.by_v4.saturating_add(1),
        }
    }
}

/// Races that did not connect, by [`Loss`].
#[derive(Clone, Copy)]
pub struct Losses {
    pub client_left: u64,
    pub forbidden: u64,
    pub all_failed: u64,
    pub timed_out: u64,
    pub unreachable: u64,
    pub no_network: u64,
    pub no_descriptor: u64,
    pub not_a_name: u64,
    pub no_such_name: u64,
    pub no_address: u64,
    pub no_answer: u64,
    pub dns_refused: u64,
    pub dns_failed: u64,
    pub proxy_failed: u64,
}

impl Losses {
    /// No race.
    pub const NONE: Losses = Losses {
        client_left: 0,
        forbidden: 0,
        all_failed: 0,
        timed_out: 0,
        unreachable: 0,
        no_network: 0,
        no_descriptor: 0,
        not_a_name: 0,
        no_such_name: 0,
        no_address: 0,
        no_answer: 0,
        dns_refused: 0,
        dns_failed: 0,
        proxy_failed: 0,
    };

    /// Adds a race that was lost so.
    pub fn add(&mut self, why: Loss)
        ensures { self.new ≡ losses_with self.old why }
    {
        match why {
            Loss::ClientLeft => self.client_left = self.client_left.saturating_add(1),
            Loss::Forbidden => self.forbidden = self.forbidden.saturating_add(1),
            Loss::AllFailed => self.all_failed = self.all_failed.saturating_add(1),
            Loss::TimedOut => self.timed_out = self.timed_out.saturating_add(1),
            Loss::Unreachable => self.unreachable = self.unreachable.saturating_add(1),
            Loss::NoNetwork => self.no_network = self.no_network.saturating_add(1),
            Loss::NoDescriptor => self.no_descriptor = self.no_descriptor.saturating_add(1),
            Loss::NotAName => self.not_a_name = self.not_a_name.saturating_add(1),
            Loss::NoSuchName => self.no_such_name = self.no_such_name.saturating_add(1),
            Loss::NoAddress => self.no_address = self.no_address.saturating_add(1),
            Loss::NoAnswer => self.no_answer = self.no_answer.saturating_add(1),
            Loss::DnsRefused => self.dns_refused = self.dns_refused.saturating_add(1),
            Loss::DnsFailed => self.dns_failed = self.dns_failed.saturating_add(1),
            Loss::ProxyFailed => self.proxy_failed = self.proxy_failed.saturating_add(1),
        }
    }
}

/// The look-ups of races, by [`Lookup`].
#[derive(Clone, Copy)]
pub struct Lookups {
    pub asked: u64,
    pub shared: u64,
    pub kept: u64,
}

impl Lookups {
    /// No look-up.
    pub const NONE: Lookups = Lookups {
        asked: 0,
        shared: 0,
        kept: 0,
    };

    /// Adds a look-up that was answered so.
    pub fn add(&mut self, how: Lookup)
        ensures { self.new ≡ looked_up_with self.old how }
    {
        match how {
            Lookup::Asked => self.asked = self.asked.saturating_add(1),
            Lookup::Shared => self.shared = self.shared.saturating_add(1),
            Lookup::Kept => self.kept = self.kept.saturating_add(1),
        }
    }
}
