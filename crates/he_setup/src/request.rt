//! The request of a connection.
ghost use Rattle.std.specs.Prelude.{◌≡◌};
ghost use Rattle.he_setup.specs.Races.{only_of};

use he_addr::Family;
use he_names::Environment;
use he_settings::Choice;
use he_timeline::Settings;

/// The address families to try.
#[derive(Clone, Copy, Debug, PartialEq, Eq)]
pub enum Families {
    Both,
    Only(Family),
}

impl Families {
    /// The only family to try, if there is one.
    pub fn only(self) -> Option<Family>
        ensures { result ≡ only_of self }
    {
        match self {
            Families::Both => None,
            Families::Only(family) => Some(family),
        }
    }
}

/// The origin of a race's `source`, `route` and `policy` lines.
#[derive(Clone, Copy, Debug, PartialEq, Eq)]
pub enum Lines<'a> {
    /// This machine.
    Machine,
    /// The file at this path.
    File(&'a str),
    /// The text of such a file, with a complete last line.
    Text(&'a [u8]),
}

/// A request for a connection.
#[derive(Clone, Copy)]
pub struct ConnectRequest<'a> {
    /// A name or an address.
    pub host: &'a str,
    /// 1 to 65,535.
    pub port: u16,
    pub families: Families,
    /// The settings of the race.
    pub settings: Settings,
    pub lines: Lines<'a>,
    /// Which resolver to ask for the host's addresses.
    pub resolver: Choice<'a>,
    /// The environment's changes of resolv.conf.
    pub environment: Environment<'a>,
    /// Whether to explain the race.
    pub explains: bool,
    /// Whether to print each step as it happens.
    pub tells_steps: bool,
}

impl<'a> ConnectRequest<'a> {
    // This request, for these families.
    pub(crate) fn with_families(&self, families: Families) -> ConnectRequest<'a>
        ensures { result ≡ record self.now { families = families } }
    {
        ConnectRequest {
            host: self.host,
            port: self.port,
            families,
            settings: self.settings,
            lines: self.lines,
            resolver: self.resolver,
            environment: self.environment,
            explains: self.explains,
            tells_steps: self.tells_steps,
        }
    }
}
