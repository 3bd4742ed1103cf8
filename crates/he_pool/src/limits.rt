//! The limits of a batch.

pub use he_board::{LEAST_WORKERS, MOST_WORKERS};
