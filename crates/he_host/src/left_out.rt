// The lines that a race leaves out, and why.

use he_kernel::why::Why;

/// The file of a line.
#[derive(Clone, Copy, Debug, PartialEq, Eq)]
pub enum File {
    /// `/proc/net/if_inet6`
    IfInet6,
    /// `/proc/net/fib_trie`
    FibTrie,
    /// `/proc/net/ipv6_route`
    Ipv6Route,
    /// `/proc/net/route`
    Ipv4Route,
}

/// A line that is left out; lines count from 1.
#[derive(Clone, Copy, Debug, PartialEq, Eq)]
pub struct LeftOut {
    pub file: File,
    pub line: u64,
    pub why: Why,
}
