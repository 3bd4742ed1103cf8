//! The state that all sessions of a proxy share, beside the event loop and the log.

use he_access::reach::Place;
use he_clients::{Beginning, PerAddress, Running};
use he_history::{KnownAddresses, Recent, Records};
use he_kept::KeptAnswers;
use he_log::{SessionFacts, TurnedAway};
use he_loop::Prefixes;
use he_metrics::Metrics;
use he_users::Users;
use std::cell::Cell;
use std::net::SocketAddr;

/// The state that all sessions of a proxy share, beside the event loop and the log.
#[derive(Drop)]
pub struct ProxyState {
    /// The places that the proxy listens at.
    pub own: Vec<Place>,
    /// Who may use the proxy.
    pub users: Users,
    pub answers: KeptAnswers,
    pub known: KnownAddresses,
    /// The NAT64 prefixes that were discovered.
    pub prefixes: Prefixes,
    pub records: Option<Records>,
    pub recent: Recent,
    pub beginning: Beginning,
    pub running: Running,
    /// The sessions of each client's address.
    pub per_address: PerAddress,
    /// The log's facts of sessions, beside their ends.
    pub facts: SessionFacts,
    /// The counts of all sessions.
    pub metrics: Metrics,
    pub turned_away: TurnedAway,
    /// The networks of clients with too many sessions.
    pub too_many: TurnedAway,
    /// The last client that left during its race.
    pub left: Cell<Option<SocketAddr>>,
}
