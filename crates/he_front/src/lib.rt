//! The requests of a proxy's clients and the replies to them: SOCKS 5 (RFC 1928), SOCKS 4 and 4A, tunnels over HTTP
//! (RFC 9110 section 9.3.6), requests of HTTP to forward, which `he_forward` reads, and the proxy's own pages. This
//! crate reads and writes octets, and has no sockets.
//!
//! Proved, for all octets:
//!
//! - [`read_greeting`], [`read_request`]: a message is read exactly if the octets begin with one; `Partial` if they
//!   don't and more octets can complete one; `Refused` if none can (`specs/Messages`, `specs/Socks`). So is the
//!   request of SOCKS 4 by [`read_old_request`] (`specs/OldSocks`).
//! - [`read_password`]: so is the message with a name and a password (RFC 1929; `specs/Passwords`).
//! - [`read_head`]: so is the head of an HTTP request, by the grammar of `httparse`, with at most [`MOST_FIELDS`]
//!   fields, and with the spans of its target and its first field Host (`specs/Http`).
//! - [`read_authorization`]: the span of the value of the first field Proxy-Authorization of such a head
//!   (`specs/Authorizations`).
//! - [`request_line`]: the method and the target of any octets, for a log (`specs/Lines`).
//! - [`read_authority`]: a target has a host and a port exactly if it is one of the grammar, and then these
//!   (`specs/Authority`).
//! - [`Asked::by_socks`], [`Asked::by_connect`]: the host's text and the port are those of the request
//!   (`specs/Asked`, `specs/Authority`).
//! - [`page_asked`]: a page is returned exactly if the target is its path and the field Host is the proxy itself
//!   (`specs/Pages`).
//! - [`Ended::socks_reply`]: the octets of a reply, with the code of RFC 1928 section 6 (`specs/Replies`);
//!   [`Ended::old_socks_reply`]: those of SOCKS 4; [`Ended::write_response`], [`write_page`], [`write_config`] and
//!   [`write_advice`] append the texts of `specs/Responses`.
//!
//! Only tested: that these succeed if memory is available. Neither proved nor tested: that a browser accepts the
//! auto-config text.
#![tactic(auto)]

pub mod asked;
pub mod authority;
pub mod authorization;
pub mod http;
pub mod line;
pub mod old_socks;
pub mod opening;
pub mod pages;
pub mod passwords;
pub mod replies;
pub mod responses;
pub mod socks;

pub use asked::Asked;
pub use authority::{MOST_HOST, read_authority};
pub use authorization::read_authorization;
pub use http::{Head, MOST_FIELDS, ReadHead, read_head};
pub use line::{RequestLine, request_line};
pub use old_socks::{MOST_USER, read_old_request};
pub use opening::{Opening, opening_of};
pub use pages::{Page, page_asked};
pub use passwords::{Credentials, read_password};
pub use replies::{Ended, method_reply, password_reply};
pub use responses::{write_advice, write_config, write_page};
pub use socks::{Method, Read, Refusal, Request, Target, read_greeting, read_request};
