// How important a line is.
ghost use Rattle.std.specs.Prelude.{◌≡◌, ◌++◌, OnOk};
ghost use Rattle.he_log.specs.Levels.{level_of, priority_of};

use he_addr::Memory;
use he_front::Ended;
use he_sessions::Winner;

// How important a line is.
#[derive(Clone, Copy, Debug, PartialEq, Eq)]
pub(crate) enum Level {
    // Something can't be kept.
    Error,
    // A client is refused, a race has no connection, or the proxy is short of something.
    Warning,
    Info,
}

impl Level {
    // That of the line of a session with this result.
    pub(crate) fn of_session(end: Option<Result<Winner, Ended>>) -> Level
        ensures { result ≡ level_of end }
    {
        match end {
            Some(Err(_)) => Level::Warning,
            _ => Level::Info,
        }
    }

    // Appends the priority before a line, as sd-daemon(3) has it.
    pub(crate) fn write(self, text: &mut Vec<u8>) -> Result<(), Memory>
        ensures { OnOk result (text.new.items ≡ text.old.items ++ priority_of self) }
    {
        text.extend_from_slice(match self {
            Level::Error => b"<3>",
            Level::Warning => b"<4>",
            Level::Info => b"<6>",
        })?;
        Ok(())
    }
}
