//! Clients that are not served, which the log names once a minute and network.

use he_addr::Ip;
use std::alloc::Global;
use std::cell::Cell;

/// The seconds for which a network is not named again after a client of it was refused.
pub const TURNED_AWAY_SECONDS: u64 = 60;

// The most networks that are remembered.
const MOST: usize = 256;

// The networks: a /24 of IPv4, a /64 of IPv6 (RFC 4291 section 2.5.1).
const NETWORK_V4: u32 = 0xffff_ff00;

const NETWORK_V6: u128 = 0xffff_ffff_ffff_ffff_0000_0000_0000_0000;

#[derive(Clone, Copy)]
struct Named {
    network: Ip,
    second: u64,
}

/// The networks of refused clients.
#[derive(Drop)]
pub struct TurnedAway {
    alloc: Global,
    named: Cell<Vec<Named>>,
}

impl TurnedAway {
    /// No networks.
    pub fn new(alloc: Global) -> TurnedAway {
        TurnedAway {
            alloc,
            named: Cell::new(Vec::new(alloc)),
        }
    }

    /// Whether the client's network is to be named in this second: it was not named in the last minute, and not too
    /// many others were.
    pub fn is_news(&self, client: Ip, second: u64) -> bool {
        let network = network_of(client);
        let mut named = self.named.replace(Vec::new(self.alloc));
        named.retain(|one| second.saturating_sub(one.second) < TURNED_AWAY_SECONDS);
        let is_news = named.len() < MOST && !has_network(&named, network);
        if is_news {
            let _ = named.push(Named { network, second });
        }
        self.named.set(named);
        is_news
    }
}

fn has_network(named: &[Named], network: Ip) -> bool {
    named.iter().any(|one| one.network == network)
}

fn network_of(client: Ip) -> Ip {
    match client {
        Ip::V4(number) => Ip::V4(number & NETWORK_V4),
        Ip::V6(number) => Ip::V6(number & NETWORK_V6),
    }
}
