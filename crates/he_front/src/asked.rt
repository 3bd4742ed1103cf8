// The target of a client's request, in either protocol.

ghost use Rattle.std.specs.Prelude.{◌≡◌, IfOk, IsAscii, MatchOption, None, Some, string_bytes};
ghost use Rattle.std.specs.List.{list_all};
ghost use Rattle.std.specs.Char.{is_ascii_graphic};
ghost use Rattle.he_addr.specs.Printing.{printed};
ghost use Rattle.he_front.specs.Asked.{asked_in, host_in, is_printable};
ghost use Rattle.he_front.specs.Authority.{IsAuthority, IsNoAuthority};

use crate::authority::{MOST_HOST, read_authority};
use crate::socks::{Request, Target};
use he_addr::{Ip, Memory, write_ip};
use std::alloc::{Allocator, Global};
use std::str::from_utf8;

/// The target of a client's request.
#[derive(Drop)]
pub struct Asked<A: Allocator = Global> {
    /// The text of an address, without brackets, or a name as the client sent it: printable ASCII without spaces.
    pub host: String<A>,
    /// 1 to 65535.
    pub port: u16,
}

impl<A: Allocator + Copy> Asked<A> {
    /// The target of a SOCKS request; None if its name isn't 1 to 255 printable ASCII octets without spaces, or its
    /// port is 0.
    ///
    /// # Errors
    ///
    /// [`Memory`] if an allocation failed.
    pub fn by_socks(alloc: A, request: &Request<'_>) -> Result<Option<Asked<A>>, Memory>
        ensures { IfOk result (λ asked. MatchOption asked (asked_in request.now ≡ None)
            (λ asked. asked_in request.now ≡ Some (string_bytes asked.host, asked.port))) }
    {
        if request.port == 0 {
            return Ok(None);
        }
        let host = match request.target {
            Target::Address(ip) => address_text(alloc, ip)?,
            Target::Name(name) if is_printable(name) => text(alloc, name)?,
            Target::Name(_) => return Ok(None),
        };
        Ok(Some(Asked {
            host,
            port: request.port,
        }))
    }

    /// The target of a CONNECT, as [`read_authority`] reads it; None if it is invalid.
    ///
    /// # Errors
    ///
    /// [`Memory`] if an allocation failed.
    pub fn by_connect(alloc: A, target: &[u8]) -> Result<Option<Asked<A>>, Memory>
        ensures { IfOk result (λ asked. MatchOption asked (IsNoAuthority target.now)
            (λ asked. IsAuthority target.now (string_bytes asked.host) asked.port)) }
    {
        match read_authority(target) {
            Some((host, port)) => Ok(Some(Asked {
                host: text(alloc, host)?,
                port,
            })),
            None => Ok(None),
        }
    }
}

fn address_text<A: Allocator + Copy>(alloc: A, ip: Ip) -> Result<String<A>, Memory>
    ensures { IfOk result (λ text. string_bytes text ≡ printed ip) }
{
    let _usable = ip.is_usable();
    let mut octets = Vec::new(alloc);
    write_ip(ip, &mut octets)?;
    text(alloc, &octets)
}

// The octets as a text.
fn text<A: Allocator + Copy>(alloc: A, octets: &[u8]) -> Result<String<A>, Memory>
    requires { IsAscii octets.now }
    ensures { IfOk result (λ text. string_bytes text ≡ octets.now) }
{
    match from_utf8(octets) {
        Ok(text) => String::from_str(alloc, text),
        Err(_) => unreachable!(),
    }
}

fn is_printable(name: &[u8]) -> bool
    ensures { result ≡ is_printable name.now }
{
    !name.is_empty() && name.len() <= MOST_HOST && are_graphic(name)
}

fn are_graphic(name: &[u8]) -> bool
    ensures { result ≡ list_all is_ascii_graphic name.now }
{
    name.iter().all(|octet| octet.is_ascii_graphic())
}
