// The sources and routes of the files' lines.

use crate::left_out::File;
use he_kernel::why::Why;
use he_select::{Route, Source};

/// A route with its metric: of two routes to a prefix the one with the lower metric is used.
#[derive(Clone, Copy, Debug, PartialEq, Eq)]
pub struct Metered {
    pub route: Route,
    pub metric: u64,
    /// An IPv4 route without a gateway: its addresses are on the link.
    pub connected: bool,
    /// Whether the interface has a carrier. Without one the route is not used; it only locates addresses.
    pub carrier: bool,
}

/// The source of a line, or why there is none; lines count from 1.
#[derive(Clone, Copy, Debug, PartialEq, Eq)]
pub struct FoundSource {
    pub file: File,
    pub line: u64,
    pub read: Result<Source, Why>,
}

/// The route of a line, or why there is none; lines count from 1.
#[derive(Clone, Copy, Debug, PartialEq, Eq)]
pub struct FoundRoute {
    pub file: File,
    pub line: u64,
    pub read: Result<Metered, Why>,
}
