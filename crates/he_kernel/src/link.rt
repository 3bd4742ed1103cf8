// An interface of this machine.

/// The properties of an interface in `/sys/class/net`.
#[derive(Clone, Copy, Debug, PartialEq, Eq)]
pub struct Link {
    /// Its index, as in lines; 0 if it isn't known.
    pub number: u16,
    /// `IFF_UP` (1) of `flags`.
    pub up: bool,
    /// The value of `carrier`.
    pub carrier: bool,
    /// `IFF_LOOPBACK` (8) of `flags`.
    pub loopback: bool,
    /// Whether it encapsulates, by `type`.
    pub tunnel: bool,
}
