//! Files that take their names only once they are whole.
//!
//! [`create_beside`] makes a new file next to the one that it will replace. [`NewName::keep`] gives it the name once
//! everything is written; [`NewName::discard`] removes it. So a reader of the name finds the old file or the whole
//! new one, even if the disk is full or the program is killed.
//!
//! It is proved that this code is safe and terminates. No contract covers the effects of the system; scripts/hostile
//! and scripts/network test them.
#![tactic(auto)]

pub mod new_file;

pub use new_file::{NewName, create_beside};
