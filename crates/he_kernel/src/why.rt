// Why a machine leaves out an address or a route.

/// Why a line is left out.
#[derive(Clone, Copy, Debug, PartialEq, Eq)]
pub enum Why {
    /// It can't be parsed.
    Unclear,
    /// The address is tentative, or failed duplicate address detection.
    Unready,
    /// The address (unspecified, multicast or IPv4-mapped), its prefix length or its interface is not valid for a
    /// source.
    Unusable,
    /// The interface isn't known, is down or, for a route, has no carrier.
    Down,
    /// The route leads nowhere: unreachable, blackhole and similar.
    Unreachable,
    /// The route is an internal one of the kernel: to an address of this machine, to a network of the loopback
    /// interface, to multicast, or not in use.
    Internal,
    /// No connected route contains the address, so its interface isn't known.
    Unconnected,
    /// The machine already has this route.
    Again,
    /// The machine already has the address, or a route to the prefix over another interface with a metric that is not
    /// higher.
    Repeated,
    /// The limit of a race is reached.
    TooMany,
}
