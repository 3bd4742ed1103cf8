// The messages of SOCKS 5 clients (RFC 1928).

ghost use Rattle.std.specs.Prelude.{◌≡◌, ◌<◌, ◌≤◌, IfNone, IfSome, length};
ghost use Rattle.std.specs.Int.{w16, w32, w128, from_be_bytes};
ghost use Rattle.he_front.specs.Messages.{Reads};
ghost use Rattle.he_front.specs.Socks.{IsBegun, IsEnd, IsGreeting, IsRefused, IsRequest, IsTarget, is_other, number_of, offers};

use he_addr::Ip;

const VERSION: u8 = 5;

pub(crate) const CONNECT: u8 = 1;

const RESERVED: u8 = 0;

const KIND_V4: u8 = 1;

const KIND_NAME: u8 = 3;

const KIND_V6: u8 = 4;

// The place of an address, and that of a name, which comes after its length.
const ADDRESS: usize = 4;

const NAME: usize = 5;

/// The result of reading a message.
#[derive(Clone, Copy, Debug, PartialEq, Eq)]
pub enum Read<T> {
    /// The octets begin with this message, of this length.
    Whole(T, usize),
    /// The octets begin with no whole message, but more octets can complete one.
    Partial,
    /// The octets begin with no message, whatever follows.
    Refused(Refusal),
}

/// Why octets are refused (RFC 1928 section 6).
#[derive(Clone, Copy, Debug, PartialEq, Eq)]
pub enum Refusal {
    /// The octets are no message of this version.
    Message,
    /// The request is for something other than a connection.
    Command,
    /// The address is neither IPv4, IPv6 nor a name.
    Kind,
}

/// How a client shows that it may use a proxy (RFC 1928 section 3).
#[derive(Clone, Copy, Debug, PartialEq, Eq)]
pub enum Method {
    /// X'00': not at all.
    Open,
    /// X'02': by a name and a password (RFC 1929).
    Password,
}

impl Method {
    pub(crate) fn number(self) -> u8
        ensures { result ≡ number_of self }
    {
        match self {
            Method::Open => 0,
            Method::Password => 2,
        }
    }
}

/// The target of a request to connect.
#[derive(Clone, Copy, Debug, PartialEq, Eq)]
pub enum Target<'o> {
    /// An address.
    Address(Ip),
    /// A name: any octets, at most 255 of them, and it may be empty.
    Name(&'o [u8]),
}

/// A request to connect.
#[derive(Clone, Copy, Debug, PartialEq, Eq)]
pub struct Request<'o> {
    pub target: Target<'o>,
    /// The port; it may be 0.
    pub port: u16,
}

/// Reads the greeting with which the octets begin: whether the client offers this method (section 3).
pub fn read_greeting(octets: &[u8], method: Method) -> Read<bool>
    ensures { Reads (IsGreeting method) octets.now result }
{
    if octets.is_empty() {
        return Read::Partial;
    }
    if octets[0] != VERSION {
        return Read::Refused(Refusal::Message);
    }
    if octets.len() < 2 {
        return Read::Partial;
    }
    let end = 2 + octets[1] as usize;
    if octets.len() < end {
        return Read::Partial;
    }
    Read::Whole(offers(&octets[2..end], method.number()), end)
}

fn offers(methods: &[u8], number: u8) -> bool
    ensures { result ≡ offers number methods.now }
{
    methods.iter().any(|method| *method == number)
}

/// Reads the request with which the octets begin (section 4).
pub fn read_request(octets: &[u8]) -> Read<Request<'_>>
    ensures { Reads IsRequest octets.now result }
{
    if let Some(refusal) = refusal_of(octets) {
        return Read::Refused(refusal);
    }
    if octets.len() <= ADDRESS {
        return Read::Partial;
    }
    let end = end_of(octets);
    if octets.len() < end + 2 {
        return Read::Partial;
    }
    let request = Request {
        target: target_of(octets, end),
        port: port_at(&octets[end..end + 2]),
    };
    Read::Whole(request, end + 2)
}

// The end of the address.
fn end_of(octets: &[u8]) -> usize
    requires room { 4 < length octets.now }
    requires begun { IsBegun octets.now }
    ensures { IsEnd octets.now result }
{
    match octets[3] {
        KIND_V4 => ADDRESS + 4,
        KIND_V6 => ADDRESS + 16,
        _ => NAME + octets[4] as usize,
    }
}

// The address that ends at `end`.
fn target_of(octets: &[u8], end: usize) -> Target<'_>
    requires room { 4 < length octets.now }
    requires whole { end ≤ length octets.now }
    requires ends { IsEnd octets.now end }
    ensures { IsTarget octets.now result end }
{
    match octets[3] {
        KIND_V4 => Target::Address(Ip::V4(v4_at(&octets[ADDRESS..end]))),
        KIND_V6 => Target::Address(Ip::V6(v6_at(&octets[ADDRESS..end]))),
        _ => Target::Name(&octets[NAME..end]),
    }
}

// Why no request can begin with these octets; None if one can.
fn refusal_of(octets: &[u8]) -> Option<Refusal>
    ensures refused { IfSome result (IsRefused octets.now) }
    ensures begun { IfNone result (IsBegun octets.now) }
{
    if is_other(octets, 0, VERSION) || is_other(octets, 2, RESERVED) {
        return Some(Refusal::Message);
    }
    if is_other(octets, 1, CONNECT) {
        return Some(Refusal::Command);
    }
    if is_other(octets, 3, KIND_V4)
        && is_other(octets, 3, KIND_V6)
        && is_other(octets, 3, KIND_NAME)
    {
        return Some(Refusal::Kind);
    }
    None
}

// Whether the octet at the place exists and is a different one.
pub(crate) fn is_other(octets: &[u8], place: usize, wanted: u8) -> bool
    ensures { result ≡ is_other octets.now place wanted }
{
    match octets.get(place) {
        Some(octet) => *octet != wanted,
        None => false,
    }
}

pub(crate) fn port_at(octets: &[u8]) -> u16
    requires { length octets.now ≡ 2 }
    ensures { result ≡ from_be_bytes w16 octets.now }
{
    u16::from_be_bytes([octets[0], octets[1]])
}

pub(crate) fn v4_at(octets: &[u8]) -> u32
    requires { length octets.now ≡ 4 }
    ensures { result ≡ from_be_bytes w32 octets.now }
{
    u32::from_be_bytes([octets[0], octets[1], octets[2], octets[3]])
}

fn v6_at(octets: &[u8]) -> u128
    requires { length octets.now ≡ 16 }
    ensures { result ≡ from_be_bytes w128 octets.now }
{
    match octets.as_array() {
        Some(array) => u128::from_be_bytes(*array),
        None => unreachable!(),
    }
}
