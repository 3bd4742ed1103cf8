//! Users and their passwords.

ghost use Rattle.std.specs.Prelude.{◌≡◌, ◌==◌, ◌&&◌, [], slice_get};
ghost use Rattle.std.specs.Str.{bytes_eq};
ghost use Rattle.he_users.specs.Users.{admits, has_octet, is_open, is_user};

use std::alloc::Global;

/// A name and a password.
#[derive(Drop)]
pub struct User {
    pub(crate) name: Vec<u8>,
    pub(crate) password: Vec<u8>,
}

impl User {
    // Whether these are its name and its password. Both are compared, whatever the first comparison gives.
    fn is(&self, name: &[u8], password: &[u8]) -> bool
        ensures { result ≡ is_user name.now password.now self.now }
    {
        let has_name = is_same(name, &self.name);
        let has_password = is_same(password, &self.password);
        has_name & has_password
    }
}

/// The users of a proxy. With none, every client is served without a password.
#[derive(Drop)]
pub struct Users {
    pub(crate) users: Vec<User>,
}

impl Users {
    /// No users.
    pub fn none(alloc: Global) -> Users
        ensures { result.users.items ≡ [] }
    {
        Users {
            users: Vec::new(alloc),
        }
    }

    /// Whether there are no users, so that no client needs a password.
    pub fn is_open(&self) -> bool
        ensures { result ≡ is_open self.now }
    {
        self.users.is_empty()
    }

    /// Whether one of the users has this name and this password. Each user is compared, whatever the earlier
    /// comparisons gave.
    pub fn admits(&self, name: &[u8], password: &[u8]) -> bool
        ensures { result ≡ admits self.now name.now password.now }
    {
        let mut is_admitted = false;
        for user in &self.users {
            is_admitted |= user.is(name, password);
        }
        is_admitted
    }
}

// Whether a given text is this user's own. The number of steps is the length of the given text.
fn is_same(given: &[u8], own: &[u8]) -> bool
    ensures { result ≡ bytes_eq given.now own.now }
{
    let mut is_same = true;
    for (at, octet) in given.iter().enumerate() {
        is_same &= has_octet(own, at, *octet);
    }
    is_same & (given.len() == own.len())
}

// Whether the text has this octet at the place.
fn has_octet(text: &[u8], at: usize, octet: u8) -> bool
    ensures { result ≡ has_octet text.now at octet }
{
    match text.get(at) {
        Some(own) => octet == *own,
        None => false,
    }
}
