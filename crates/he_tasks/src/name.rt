//! The names of files, for the system and for a terminal.

use crate::system::TaskSystem;
use he_options::STANDARD;
use std::fs;

/// The name of a file, and its form for a terminal.
#[derive(Clone, Copy)]
pub struct Name<'n> {
    pub(crate) path: &'n str,
    pub(crate) shown: &'n str,
}

impl<'n> Name<'n> {
    // Its path, if a regular file has it.
    pub(crate) fn regular_file<R: TaskSystem>(self, rt: &R) -> Option<&'n str> {
        match fs::metadata(rt, self.path) {
            Ok(found) if found.is_file() && self.path != STANDARD => Some(self.path),
            _ => None,
        }
    }
}
