//! The line's options for a race and a look-up, as `he_setup` and `he_settings` have them.
ghost use Rattle.std.specs.Prelude.{◌≡◌};
ghost use Rattle.he_command.specs.Connection.{choice_of, families_of, lines_of, race_of};

use he_addr::Family;
use he_names::Environment;
use he_options::Resolver;
use he_request::Connection;
use he_settings::Choice;
use he_setup::{ConnectRequest, Families, Lines};

// The race for a connection at this port, by a resolver configuration with this environment's changes.
pub(crate) fn race_of<'a, 'c>(
    connection: &Connection<'c>,
    port: u16,
    environment: Environment<'a>,
) -> ConnectRequest<'a>
where
    'c: 'a,
    ensures { result ≡ race_of connection.now port environment.entry }
{
    ConnectRequest {
        host: connection.host,
        port,
        families: families_of(connection.only),
        settings: connection.settings,
        lines: lines_of(connection.lines),
        resolver: choice_of(connection.resolver),
        environment,
        explains: connection.explains,
        tells_steps: connection.tells_steps,
    }
}

// The families to try.
pub(crate) fn families_of(only: Option<Family>) -> Families
    ensures { result ≡ families_of only }
{
    match only {
        Some(family) => Families::Only(family),
        None => Families::Both,
    }
}

// The origin of the races' lines.
pub(crate) fn lines_of<'a, 'c>(path: Option<&'c str>) -> Lines<'a>
where
    'c: 'a,
    ensures { result ≡ lines_of path.entry }
{
    match path {
        Some(path) => Lines::File(path),
        None => Lines::Machine,
    }
}

// The resolver to ask.
pub(crate) fn choice_of(resolver: Resolver<'_>) -> Choice<'_>
    ensures { result ≡ choice_of resolver.entry }
{
    match resolver {
        Resolver::Configured => Choice::Configured,
        Resolver::Server(server) => Choice::Server(server),
        Resolver::OnLink(server) => Choice::OnLink(server),
        Resolver::System => Choice::System,
    }
}
