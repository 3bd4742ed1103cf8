//! Tests of `he_sessions` on real sockets, of loopback alone: the answers to clients of SOCKS and of HTTP, the
//! targets for which races are begun, that early octets are relayed first, what a server gets of a request that is
//! forwarded, which clients are admitted by a proxy with users, how sessions end, and that all octets arrive. And of
//! `he_front`, `he_forward`, `he_response` and `he_body` on messages put together by hand.
#![tactic(auto)]

#[cfg(test)]
mod answers;
#[cfg(test)]
mod bodies;
#[cfg(test)]
mod forwards;
#[cfg(test)]
mod heads;
#[cfg(test)]
mod homes;
#[cfg(test)]
mod old_socks;
#[cfg(test)]
mod openings;
#[cfg(test)]
mod responses;
#[cfg(test)]
mod tunnels;
#[cfg(test)]
mod users;
