//! Parses the request in a client's octets.
ghost use Rattle.std.specs.Prelude.{◌≡◌, ℕ, IfOk, IfSome, List};
ghost use Rattle.httparse.specs.Spans.{span_bytes};
ghost use Rattle.he_forward.specs.Requests.{Reads};
ghost use Rattle.he_forward.specs.declared.forward.ReadForward.{ReadForward};
ghost use Rattle.he_front.specs.Http.{HasHead};
ghost use Rattle.he_front.specs.declared.http.Head.TheVariants as heads;
ghost use Rattle.he_users.specs.declared.users.Users.{Users};
ghost use Rattle.he_handshake.specs.Asks.{Asks, IsAdmitted, IsFailure, ended_of, ended_without_method, greeted_by};
ghost use Rattle.he_handshake.specs.Asks.{greets, method_of, protocol_of, stage_by};

use crate::admitting::is_admitted;
use he_addr::Memory;
use he_body::Framing;
use he_forward::{Fault, Forward, ReadForward, read_forward};
use he_front::{
    Asked, Ended, Head, Method, Opening, Read, ReadHead, Refusal, opening_of, read_greeting,
    read_head, read_old_request, read_password, read_request,
};
use he_users::Users;
use httparse::spans::Span;
use std::alloc::Global;

/// The protocol of a client.
#[derive(Clone, Copy, Debug, PartialEq, Eq)]
pub enum Protocol {
    /// SOCKS 4 and 4A.
    OldSocks,
    /// SOCKS 5 (RFC 1928), by this method.
    Socks(Method),
    /// HTTP (RFC 9110 section 9.3.6).
    Http,
}

/// How far a client has come before its request.
#[derive(Clone, Copy, Debug, PartialEq, Eq)]
pub enum Stage {
    /// Nothing is answered yet.
    New,
    /// Its greeting is answered: no authentication (RFC 1928 section 3).
    Greeted,
    /// Its greeting is answered: by name and password, which are to come.
    Authenticating,
    /// Its name and password are those of a user, and it was sent that (RFC 1929 section 2).
    Admitted,
}

/// How much of a page is requested (RFC 9110 sections 9.3.1 and 9.3.2).
#[derive(Clone, Copy, Debug, PartialEq, Eq)]
pub enum Extent {
    /// All of it, by GET.
    Whole,
    /// Its head, by HEAD.
    Head,
}

/// A request of HTTP as the server gets it.
#[derive(Drop)]
pub struct Outgoing {
    /// Its head.
    pub head: Vec<u8>,
    /// How its body is framed.
    pub framing: Framing,
}

/// A client's wish for the connection to the server.
#[derive(Drop)]
pub enum Wanted {
    /// A tunnel, by this protocol.
    Tunnel(Protocol),
    /// The response to this request.
    Response(Outgoing),
}

/// The request in a client's octets.
#[derive(Drop)]
pub enum Ask {
    /// More octets are needed to decide.
    More,
    /// A message of this number of octets before the request, and the stage after its answer.
    Step(Stage, usize),
    /// A greeting without an acceptable method.
    NoMethod,
    /// A name and a password that are those of no user.
    WrongUser,
    /// A connection to a server, by a request of this number of octets.
    Server(Wanted, Asked, usize),
    /// A page, or only its head: the positions of its path and of the value of the field Host.
    Page(Extent, Span, Option<Span>),
    /// A refused request, and the end of its session.
    Refused(Protocol, Ended),
    /// Not a protocol of this proxy.
    Unknown,
}

/// Parses the request in the octets of a client that has come to this stage, or what leads to the next one.
///
/// # Errors
///
/// `Memory` if an allocation fails.
pub fn read_ask(alloc: Global, users: &Users, octets: &[u8], stage: Stage) -> Result<Ask, Memory>
    ensures { IfOk result (Asks users.now stage octets.now) }
{
    match stage {
        Stage::New => read_first(alloc, users, octets),
        Stage::Greeted => read_socks(alloc, octets, Method::Open),
        Stage::Authenticating => Ok(read_user(users, octets)),
        Stage::Admitted => read_socks(alloc, octets, Method::Password),
    }
}

fn read_first(alloc: Global, users: &Users, octets: &[u8]) -> Result<Ask, Memory>
    ensures { IfOk result (Asks users.now Stage.New octets.now) }
{
    let Some(first) = octets.first() else {
        return Ok(Ask::More);
    };
    match opening_of(*first) {
        Opening::Socks => Ok(greeting_in(users, octets)),
        Opening::OldSocks => read_old_socks(alloc, users, octets),
        Opening::Http => read_http(alloc, users, octets),
        Opening::Other => Ok(Ask::Unknown),
    }
}

fn greeting_in(users: &Users, octets: &[u8]) -> Ask
    ensures { Asks users.now Stage.New octets.now result }
{
    let method = method_of(users);
    match read_greeting(octets, method) {
        Read::Whole(true, len) => Ask::Step(stage_by(method), len),
        Read::Whole(false, _) => Ask::NoMethod,
        Read::Partial => Ask::More,
        Read::Refused(_) => Ask::Unknown,
    }
}

// The method that a greeting must offer.
fn method_of(users: &Users) -> Method
    ensures { result ≡ method_of users.now }
{
    if users.is_open() {
        Method::Open
    } else {
        Method::Password
    }
}

// The stage after the answer to a greeting.
fn stage_by(method: Method) -> Stage
    ensures { result ≡ stage_by method }
{
    match method {
        Method::Open => Stage::Greeted,
        Method::Password => Stage::Authenticating,
    }
}

/// The end of a client whose greeting offers no method of a proxy with these users.
pub fn ended_without_method(users: &Users) -> Ended
    ensures { result ≡ ended_without_method users.now }
{
    if users.is_open() {
        Ended::Kind
    } else {
        Ended::NoUser
    }
}

// The name and the password of a user (RFC 1929 section 2).
fn read_user(users: &Users, octets: &[u8]) -> Ask
    ensures { Asks users.now Stage.Authenticating octets.now result }
{
    match read_password(octets) {
        Read::Whole(given, len) => {
            if users.admits(given.name, given.password) {
                Ask::Step(Stage::Admitted, len)
            } else {
                Ask::WrongUser
            }
        }
        Read::Partial => Ask::More,
        Read::Refused(_) => Ask::WrongUser,
    }
}

// A request of SOCKS 5 after a greeting by this method.
fn read_socks(alloc: Global, octets: &[u8], method: Method) -> Result<Ask, Memory>
    ensures { (users : Users) → IfOk result (Asks users (greeted_by method) octets.now) }
{
    let (request, len) = match read_request(octets) {
        Read::Whole(request, len) => (request, len),
        Read::Partial => return Ok(Ask::More),
        Read::Refused(refusal) => {
            return Ok(Ask::Refused(Protocol::Socks(method), ended_by(refusal)));
        }
    };
    match Asked::by_socks(alloc, &request) {
        Ok(Some(asked)) => {
            let wanted = Wanted::Tunnel(Protocol::Socks(method));
            Ok(Ask::Server(wanted, asked, len))
        }
        Ok(None) => Ok(Ask::Refused(Protocol::Socks(method), Ended::Kind)),
        Err(refused) => Err(refused),
    }
}

// A request of SOCKS 4, which has no password.
fn read_old_socks(alloc: Global, users: &Users, octets: &[u8]) -> Result<Ask, Memory>
    ensures { IfOk result (Asks users.now Stage.New octets.now) }
{
    if !users.is_open() {
        return Ok(Ask::Refused(Protocol::OldSocks, Ended::NoUser));
    }
    let (request, len) = match read_old_request(octets) {
        Read::Whole(request, len) => (request, len),
        Read::Partial => return Ok(Ask::More),
        Read::Refused(refusal) => {
            return Ok(Ask::Refused(Protocol::OldSocks, ended_by(refusal)));
        }
    };
    match Asked::by_socks(alloc, &request) {
        Ok(Some(asked)) => Ok(Ask::Server(Wanted::Tunnel(Protocol::OldSocks), asked, len)),
        Ok(None) => Ok(Ask::Refused(Protocol::OldSocks, Ended::Kind)),
        Err(refused) => Err(refused),
    }
}

// A malformed request has no code of its own, and is no fault of the proxy.
fn ended_by(refusal: Refusal) -> Ended
    ensures { IsFailure result }
{
    match refusal {
        Refusal::Command => Ended::Command,
        Refusal::Message | Refusal::Kind => Ended::Kind,
    }
}

fn read_http(alloc: Global, users: &Users, octets: &[u8]) -> Result<Ask, Memory>
    ensures { IfOk result (Asks users.now Stage.New octets.now) }
{
    match read_head(octets) {
        ReadHead::Whole(Head::Tunnel(target), len) => {
            read_connect(alloc, users, octets, target, len)
        }
        ReadHead::Whole(Head::Get(path, host), _) => Ok(Ask::Page(Extent::Whole, path, host)),
        ReadHead::Whole(Head::Head(path, host), _) => Ok(Ask::Page(Extent::Head, path, host)),
        ReadHead::Whole(Head::Forward, _) => read_absolute(alloc, users, octets),
        ReadHead::Whole(Head::TwoHosts, _) => Ok(Ask::Refused(Protocol::Http, Ended::Kind)),
        ReadHead::Whole(Head::Other, _) => Ok(Ask::Refused(Protocol::Http, Ended::Command)),
        ReadHead::Partial => Ok(Ask::More),
        ReadHead::Refused => Ok(Ask::Refused(Protocol::Http, Ended::Kind)),
    }
}

// The tunnel to the target at this position.
fn read_connect(
    alloc: Global,
    users: &Users,
    octets: &[u8],
    target: Span,
    len: usize,
) -> Result<Ask, Memory>
    requires { HasHead octets.now (heads.Tunnel target) len }
    ensures { IfOk result (Asks users.now Stage.New octets.now) }
{
    match is_admitted(alloc, users, octets) {
        Ok(true) => read_target(alloc, users, octets, target, len),
        Ok(false) => Ok(Ask::Refused(Protocol::Http, Ended::NoUser)),
        Err(refused) => Err(refused),
    }
}

// The tunnel, for a client that may use the proxy.
fn read_target(
    alloc: Global,
    users: &Users,
    octets: &[u8],
    target: Span,
    len: usize,
) -> Result<Ask, Memory>
    requires head { HasHead octets.now (heads.Tunnel target) len }
    requires admitted { IsAdmitted users.now Protocol.Http octets.now }
    ensures { IfOk result (Asks users.now Stage.New octets.now) }
{
    let Some(text) = piece(octets, target) else {
        return Ok(Ask::Refused(Protocol::Http, Ended::Kind));
    };
    match Asked::by_connect(alloc, text) {
        Ok(Some(asked)) => Ok(Ask::Server(Wanted::Tunnel(Protocol::Http), asked, len)),
        Ok(None) => Ok(Ask::Refused(Protocol::Http, Ended::Kind)),
        Err(refused) => Err(refused),
    }
}

// The request whose target is in absolute form.
fn read_absolute(alloc: Global, users: &Users, octets: &[u8]) -> Result<Ask, Memory>
    ensures { IfOk result (Asks users.now Stage.New octets.now) }
{
    match is_admitted(alloc, users, octets) {
        Ok(true) => read_admitted(alloc, users, octets),
        Ok(false) => Ok(Ask::Refused(Protocol::Http, Ended::NoUser)),
        Err(refused) => Err(refused),
    }
}

// The request, of a client that may use the proxy.
fn read_admitted(alloc: Global, users: &Users, octets: &[u8]) -> Result<Ask, Memory>
    requires { IsAdmitted users.now Protocol.Http octets.now }
    ensures { IfOk result (Asks users.now Stage.New octets.now) }
{
    match read_forward(alloc, octets) {
        Ok(ReadForward::Whole(forward)) => Ok(ask_of(forward)),
        Ok(ReadForward::Refused(fault)) => Ok(Ask::Refused(Protocol::Http, ended_of(fault))),
        Ok(ReadForward::Partial) => Ok(Ask::Refused(Protocol::Http, Ended::Kind)),
        Err(refused) => Err(refused),
    }
}

fn ended_of(fault: Fault) -> Ended
    ensures is { result ≡ ended_of fault }
    ensures failure { IsFailure result }
{
    match fault {
        Fault::Malformed => Ended::Kind,
        Fault::Coding => Ended::Coding,
    }
}

fn ask_of(forward: Forward) -> Ask
    ensures { (users : Users) (octets : List ℕ) → Reads octets (ReadForward.Whole forward)
        → IsAdmitted users Protocol.Http octets → Asks users Stage.New octets result }
{
    let Forward {
        asked,
        head,
        framing,
        len,
    } = forward;
    Ask::Server(Wanted::Response(Outgoing { head, framing }), asked, len)
}

/// The protocol of the reply.
pub fn protocol_of(wanted: &Wanted) -> Protocol
    ensures { result ≡ protocol_of wanted.now }
{
    match wanted {
        Wanted::Tunnel(protocol) => *protocol,
        Wanted::Response(_) => Protocol::Http,
    }
}

/// The client's protocol, if only its stage is known. None if it is asked for its name and password.
pub fn protocol_at(stage: Stage) -> Option<Protocol>
    ensures { IfSome result (λ protocol. greets protocol ≡ stage) }
{
    match stage {
        Stage::New => Some(Protocol::Http),
        Stage::Greeted => Some(Protocol::Socks(Method::Open)),
        Stage::Authenticating => None,
        Stage::Admitted => Some(Protocol::Socks(Method::Password)),
    }
}

/// The octets at this position.
pub fn piece(octets: &[u8], span: Span) -> Option<&[u8]>
    ensures { IfSome result (λ text. text.now ≡ span_bytes octets.now span) }
{
    octets.get(span.start..span.end)
}
