//! The input of a look-up.

use crate::choice::Choice;
use he_addr::Family;
use he_names::Environment;

/// The input of a look-up.
#[derive(Clone, Copy)]
pub struct Wanted<'a> {
    /// A name or an address.
    pub host: &'a str,
    /// The only family to look up; both if None.
    pub only: Option<Family>,
    /// Which resolver to ask.
    pub choice: Choice<'a>,
    /// The environment's changes of resolv.conf.
    pub environment: Environment<'a>,
}
