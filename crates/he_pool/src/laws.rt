//! Laws of the limits. Each is the contract of a function that runs nothing.

pub use he_board::limits_of_workers;
