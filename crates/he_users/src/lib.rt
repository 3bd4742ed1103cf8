//! The users of a proxy: their names and passwords, read from a file, and the question whether a client gave those of
//! one of them.
//!
//! [`read_users`] reads lines `NAME:PASSWORD`. [`Users::admits`] compares a name and a password with those of all
//! users, and [`Users::admits_basic`] those in a field of HTTP (RFC 7617).
//!
//! Proved, for all texts and octets:
//!
//! - [`read_users`]: the users are those of the lines, in order, if no line is wrong; otherwise the fault is that of
//!   the first wrong line, with its number (`specs/Lines`).
//! - [`Users::admits`]: true exactly if one user has this name and this password (`specs/Users`).
//! - [`Users::admits_basic`]: the name is returned exactly if the field has the scheme Basic and the Base64 text of
//!   the name and the password of a user, joined by a colon (`specs/Basic`).
//!
//! Not proved: the time of a comparison. By its form, it depends on the number of users and on the lengths of what
//! the client gave, and not on the octets of a password nor on which user has the name.
#![tactic(auto)]

pub mod basic;
pub mod fault;
pub mod lines;
pub mod users;

pub use fault::{LineFault, UsersFault};
pub use lines::read_users;
pub use users::{User, Users};
