//! The request of a proxy.

use he_access::rules::Rule;
use he_addr::Prefix;
use he_log::LogOptions;
use he_names::Environment;
use he_settings::Choice;
use he_setup::{Families, Lines};
use he_timeline::Settings;
use std::net::SocketAddr;

/// The options of a proxy.
#[derive(Clone, Copy)]
pub struct ProxyRequest<'a> {
    /// The addresses to listen at. If empty: 127.0.0.1 and ::1 at port 1080, of which one is enough.
    pub listen: &'a [SocketAddr],
    /// The networks that clients may come from, beside this machine.
    pub allow: &'a [Prefix],
    /// Whether clients of other machines may also reach private addresses.
    pub allows_private: bool,
    /// The file of users, one of which each client must show to be; if None, no client must.
    pub users: Option<&'a str>,
    /// The rules for targets, of clients of this machine too: the first rule that fits decides.
    pub rules: &'a [Rule<'a>],
    pub families: Families,
    /// The settings of each race.
    pub settings: Settings,
    /// The origin of each race's `source`, `route` and `policy` lines.
    pub lines: Lines<'a>,
    /// Which name servers to ask for the addresses of hosts. The system's resolver is not called: with it, a name
    /// that is not in the hosts file has no address.
    pub resolver: Choice<'a>,
    /// The environment's changes of resolv.conf.
    pub environment: Environment<'a>,
    /// The directory of the races' records; if None, no race is recorded.
    pub record: Option<&'a str>,
    /// The limit of records, at least 1.
    pub record_most: u32,
    /// The history file; if None, the history lasts until the proxy ends.
    pub history: Option<&'a str>,
    pub log: LogOptions,
    /// The limit of sessions at once, at least 1.
    pub most: u32,
    /// The limit of sessions at once from one address, at least 1; if None, there is none.
    pub most_per_client: Option<u32>,
    /// Seconds, at least 1, after which a tunnel without traffic is closed; if None, no tunnel is.
    pub idle: Option<u32>,
}

impl<'a> ProxyRequest<'a> {
    // This request, with the text of its file of lines, if one was read.
    pub(crate) fn with_lines<'t>(&self, text: Option<&'t [u8]>) -> ProxyRequest<'t>
    where
        'a: 't,
    {
        let lines = match text {
            Some(text) => Lines::Text(text),
            None => self.lines,
        };
        ProxyRequest { lines, ..*self }
    }
}
