//! Tests of `he_dns` on messages put together by hand, of `he_cache` and `he_kept` on the lifetimes of answers, and of
//! `he_nat64` on the vectors of RFC 6052 section 2.4 and on networks as their name servers show them.
#![tactic(auto)]

#[cfg(test)]
mod caches;
#[cfg(test)]
mod kept;
#[cfg(test)]
mod messages;
#[cfg(test)]
mod prefixes;
