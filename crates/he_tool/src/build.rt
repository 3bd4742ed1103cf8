//! The build of the program.

/// The text of `he --version`. `scripts/build` puts the commit and `proved` into the parentheses, in a copy that it
/// proves and builds. Any other build, as by `rt try`, has this text.
pub const VERSION: &str = "1.0.0 (not known to be proved)";
