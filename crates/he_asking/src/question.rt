//! The question to a name server.

use he_addr::Family;
use he_dns::Name;

/// A query for the addresses of one family of a name.
#[derive(Clone, Copy)]
pub struct Question<'n> {
    pub name: &'n Name,
    pub family: Family,
}
