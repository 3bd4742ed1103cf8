//! The words of a story.

use crate::said::Said;
use he_addr::Family;
use he_course::Turn;
use he_record::{AttemptReason, LookupReason, ServerReason};
use he_select::DestinationRule;

/// Words, in pieces: a part of the statement comes between each two pieces, in order.
pub type Pieces = &'static [&'static [u8]];

const NOTHING_LEFT: Pieces = &[
    b"not connected: no address left to try after ",
    b" ms (",
    b" ",
    b")",
];

const NONE_ANSWERED: Pieces = &[
    b"not connected: timed out after ",
    b" ms; ",
    b" ",
    b" ",
    b"",
];

const SOME_FAILED: Pieces = &[
    b"not connected: timed out after ",
    b" ms; ",
    b" of ",
    b" addresses failed",
];

const TIME_WENT: Pieces = &[
    b"\nwhere the time went: names ",
    b" ms, lost ",
    b" ms, connecting ",
    b" ms",
];

const UNKNOWN_TIME: Pieces = &[
    b"; round trip time unknown, the one before ",
    b" ms (RFC 8305 section 4)",
];

const WAITS: Pieces = &[
    b"wait for the AAAA answer until ",
    b" ms (Resolution Delay)",
];

const FLOOR_IS_OVER: Pieces = &[
    b"all earlier attempts failed; ",
    b" ms after attempt ",
    b" (set floor)",
];

const PASSED: Pieces = &[
    b"\nan ",
    b" address was known ",
    b" ms before one was tried",
];

const CHECK_SERVER: Pieces = &[b"\ncheck: the name server ", b" (/etc/resolv.conf)"];

/// The words of a statement.
pub fn words_of(said: Said) -> Pieces {
    match said {
        Said::Target | Said::Moment | Said::File => &[],
        Said::For => &[b"", b"for ", b""],
        Said::ClientConnected => &[b"the client connected after ", b" ms"],
        Said::ClientGaveUp => &[b"the client gave up after ", b" ms"],
        Said::ClientFailed => &[b"the client failed after ", b" ms"],
        Said::ByRules => &[b"; by RFC 8305: "],
        Said::Race => &[b"race ", b"", b"", b""],
        Said::Connected => &[b"connected by ", b" (", b") in ", b" ms"],
        Said::NothingLeft => NOTHING_LEFT,
        Said::LimitReached => &[b"not connected: timed out after ", b" ms and ", b" ", b""],
        Said::NoneToTry => &[b"not connected: no address to try in ", b" ms"],
        Said::NotLookedUp(reason) => not_looked_up_words(reason),
        Said::ByServer(reason) => by_server_words(reason),
        Said::EachFailed(reason) => each_failed_words(reason),
        Said::NoneAnswered => NONE_ANSWERED,
        Said::SomeFailed => SOME_FAILED,
        Said::NothingLost => &[b"; nothing lost"],
        Said::Lost => &[b"; ", b" ms lost"],
        Said::LostOn => &[b" on ", b" (", b")"],
        Said::LostPart => &[b"", b" ", b" on ", b" (", b")"],
        Said::More => &[b" and on ", b" more"],
        Said::LostAlone => &[b" with no address left to try"],
        Said::LostRest => &[b", ", b" with no address left to try"],
        Said::NamesSlow => &[b"; ", b" of ", b" ms waiting for DNS"],
        Said::CheckPath => &[b"\ncheck: the path and firewalls to ", b""],
        Said::CheckService => &[b"\ncheck: whether a server listens at ", b""],
        Said::CheckRoute => &[b"\ncheck: the route to ", b""],
        Said::CheckServer => CHECK_SERVER,
        Said::AtPort => &[b" port ", b""],
        Said::TimeWent => TIME_WENT,
        Said::MachineTook => &[b", this machine ", b" ms"],
        Said::UnknownTook => &[b", unknown ", b" ms"],
        Said::NoAddress => &[b"\nno address to try"],
        Said::Preferred => &[b"\npreferred, once every answer is known:"],
        Said::Address => &[b"\n", b". ", b""],
        Said::Nat64 => &[b" is ", b" (NAT64)"],
        Said::SixToFour => &[b" (6to4)"],
        Said::Teredo => &[b" (Teredo)"],
        Said::From => &[b" from ", b""],
        Said::NoSource => &[b", not reachable: no source address"],
        Said::NoRoute => &[b", not reachable: no route"],
        Said::Rule(rule) => rule_words(rule),
        Said::UnknownTime => UNKNOWN_TIME,
        Said::Course => &[b"\ncourse:"],
        Said::CourseByRules => &[b"\ncourse by RFC 8305:"],
        Said::At => &[b"\n", b" ms  "],
        Said::Paused => &[
            b"this machine was busy until ",
            b" ms: it saw and started nothing",
        ],
        Said::Late => &[b" (", b" ms late)"],
        Said::Answered(_) => &[b"", b" answer"],
        Said::ToTry => &[b": ", b" ", b" to try"],
        Said::Lookup(_, reason) => lookup_words(reason),
        Said::StillMissing(_) => &[b"; still waiting for the ", b" answer"],
        Said::Waits => WAITS,
        Said::DelayOver => &[b"the wait is over, without the AAAA answer"],
        Said::Starts => &[b"attempt ", b" to ", b": "],
        Said::Failed => &[b"attempt ", b" failed after ", b" ms"],
        Said::Because(reason) => because_words(reason),
        Said::Won => &[b"attempt ", b" connected after ", b" ms"],
        Said::Silent => &[b"attempt ", b": no answer in ", b" ms"],
        Said::Stopped => &[b"attempt ", b" stopped after ", b" ms"],
        Said::Unknown => &[b"attempt ", b": no client tried it, unknown after ", b" ms"],
        Said::Exhausted => &[b"no address left to try"],
        Said::Limit => &[b"the limit: the race is given up"],
        Said::AaaaThere => &[b"AAAA answer received"],
        Said::BothThere => &[b"both answers received"],
        Said::WaitIsOver => &[b"the wait for the AAAA answer is over"],
        Said::AfterStart => &[b"", b" ms after the start of attempt ", b""],
        Said::FloorIsOver => FLOOR_IS_OVER,
        Said::AllFailed => &[b"all earlier attempts failed"],
        Said::CameWith(_) => &[b"it came with the ", b" answer"],
        Said::HeldBack => &[b", late because this machine was busy"],
        Said::OnlyOne => &[b"; no other address known"],
        Said::Turn(_) => &[b"; number ", b" of ", b" known addresses, ", b""],
        Said::NoAnswer(_) => &[b"\nno ", b" answer came"],
        Said::AfterEnd(_) => &[b"\nthe ", b" answer came at ", b" ms, after the end"],
        Said::Why(reason) => why_words(reason),
        Said::Untried(_) => &[b"\nno address of the ", b" answer was tried"],
        Said::Passed(_) => PASSED,
        Said::Server(reason) => server_words(reason),
        Said::Nat64Prefix => &[b"\nthe network's NAT64 prefix is ", b"/", b""],
        Said::NobodyTried => &[b"\nno client tried ", b": its outcome is unknown"],
        Said::WithFloor => &[
            b"\nif the next attempt followed a failure at once (--set floor=",
            b"): ",
        ],
        Said::End => &[b"\n"],
    }
}

fn not_looked_up_words(reason: LookupReason) -> Pieces {
    match reason {
        LookupReason::NoSuchName => &[b"not connected: no such name (", b" ms)"],
        LookupReason::NoAddress => &[b"not connected: the name has no address (", b" ms)"],
        LookupReason::NoAnswer => {
            &[
                b"not connected: the name could not be looked up in ",
                b" ms: no answer",
            ]
        }
        LookupReason::Refused => {
            &[
                b"not connected: the name could not be looked up in ",
                b" ms: refused",
            ]
        }
        LookupReason::Failed => {
            &[
                b"not connected: the name could not be looked up in ",
                b" ms: the name servers failed",
            ]
        }
        LookupReason::Malformed => {
            &[
                b"not connected: the name could not be looked up in ",
                b" ms: a malformed answer",
            ]
        }
        LookupReason::NotAsked => &[b"not connected: the name was not looked up (", b" ms)"],
        LookupReason::Nat64 => &[
            b"not connected: no address to try through NAT64 in ",
            b" ms",
        ],
    }
}

// The fault of a name server that was given up.
fn by_server_words(reason: ServerReason) -> Pieces {
    match reason {
        ServerReason::Silent => &[b" (", b" did not answer)"],
        ServerReason::Refused => &[b" (", b" refused)"],
        ServerReason::Failed => &[b" (", b" failed)"],
        ServerReason::Unreachable => &[b" (", b" was unreachable)"],
    }
}

// `all 2 addresses refused (11 ms)`
fn each_failed_words(reason: Option<AttemptReason>) -> Pieces {
    match reason {
        Some(AttemptReason::Refused) => &[b"not connected: ", b" ", b" ", b" refused (", b" ms)"],
        Some(AttemptReason::Unreachable) => {
            &[b"not connected: ", b" ", b" ", b" unreachable (", b" ms)"]
        }
        Some(AttemptReason::TimedOut) => &[
            b"not connected: ",
            b" ",
            b" ",
            b" timed out (",
            b" ms)",
        ],
        Some(AttemptReason::Reset) => {
            &[
                b"not connected: ",
                b" ",
                b" ",
                b" reset the connection (",
                b" ms)",
            ]
        }
        Some(AttemptReason::Forbidden) => {
            &[b"not connected: ", b" ", b" ", b" forbidden (", b" ms)"]
        }
        Some(AttemptReason::NoSource) => {
            &[
                b"not connected: ",
                b" ",
                b" ",
                b" without a source address (",
                b" ms)",
            ]
        }
        Some(AttemptReason::Other) | None => {
            &[b"not connected: ", b" ", b" ", b" failed (", b" ms)"]
        }
    }
}

// After the name of the family.
fn lookup_words(reason: LookupReason) -> Pieces {
    match reason {
        LookupReason::NoSuchName => &[b"", b": no such name"],
        LookupReason::NoAddress => &[b"", b": no address"],
        LookupReason::NoAnswer => &[b"", b": no answer"],
        LookupReason::Refused => &[b"", b": refused"],
        LookupReason::Failed => &[b"", b": the name servers failed"],
        LookupReason::Malformed => &[b"", b": a malformed answer"],
        LookupReason::NotAsked => &[b"", b": not asked"],
        LookupReason::Nat64 => &[b"", b": through NAT64"],
    }
}

// After a sentence on the answer.
fn why_words(reason: LookupReason) -> Pieces {
    match reason {
        LookupReason::NoSuchName => &[b": no such name"],
        LookupReason::NoAddress => &[b": no address"],
        LookupReason::NoAnswer => &[b": no answer"],
        LookupReason::Refused => &[b": refused"],
        LookupReason::Failed => &[b": the name servers failed"],
        LookupReason::Malformed => &[b": a malformed answer"],
        LookupReason::NotAsked => &[b": not asked"],
        LookupReason::Nat64 => &[b": through NAT64"],
    }
}

fn because_words(reason: AttemptReason) -> Pieces {
    match reason {
        AttemptReason::Refused => &[b": refused"],
        AttemptReason::Unreachable => &[b": unreachable"],
        AttemptReason::TimedOut => &[b": timed out"],
        AttemptReason::Reset => &[b": reset"],
        AttemptReason::Forbidden => &[b": forbidden"],
        AttemptReason::NoSource => &[b": no source address"],
        AttemptReason::Other => &[b": for another reason"],
    }
}

fn server_words(reason: ServerReason) -> Pieces {
    match reason {
        ServerReason::Silent => &[b"\nname server ", b": no answer in ", b" ms"],
        ServerReason::Refused => &[b"\nname server ", b": refused after ", b" ms"],
        ServerReason::Failed => &[b"\nname server ", b": failed after ", b" ms"],
        ServerReason::Unreachable => &[b"\nname server ", b": unreachable after ", b" ms"],
    }
}

// The first of the two values, if there are two, belongs to the later address.
fn rule_words(rule: DestinationRule) -> Pieces {
    match rule {
        DestinationRule::AvoidUnusable => &[b"; the one before is reachable (RFC 6724 rule 1)"],
        DestinationRule::MatchingScope => &[b"; scope ", b", its source ", b" (RFC 6724 rule 2)"],
        DestinationRule::AvoidDeprecated => &[b"; its source is deprecated (RFC 6724 rule 3)"],
        DestinationRule::MatchingLabel => &[b"; label ", b", its source ", b" (RFC 6724 rule 5)"],
        DestinationRule::HigherPrecedence => &[
            b"; lower precedence: ",
            b", the one before ",
            b" (RFC 6724 rule 6)",
        ],
        DestinationRule::NativeTransport => &[b"; its route is a tunnel (RFC 6724 rule 7)"],
        DestinationRule::SmallerScope => &[
            b"; scope ",
            b", the one before ",
            b" (RFC 6724 rule 8)",
        ],
        DestinationRule::LowerRoundTripTime => {
            &[
                b"; round trip time ",
                b" ms, the one before ",
                b" ms (RFC 8305 section 4)",
            ]
        }
        DestinationRule::UsedBefore => &[b"; the one before was used before (RFC 8305 section 4)"],
        DestinationRule::LongestPrefix => {
            &[
                b"; bits in common with its source ",
                b", the one before ",
                b" (RFC 6724 rule 9)",
            ]
        }
        DestinationRule::Unchanged => &[b"; listed later in its answer (RFC 6724 rule 10)"],
    }
}

/// The words for why it is the turn of an address of this family.
pub fn turn_words(turn: Turn, family: Family) -> &'static [u8] {
    match (turn, family) {
        (Turn::Leads, Family::V6) => b"IPv6 first",
        (Turn::Leads, Family::V4) => b"IPv4 first",
        (Turn::InTurn, _) => b"families alternate",
        (Turn::RunOut, Family::V6) => b"only IPv6 is left",
        (Turn::RunOut, Family::V4) => b"only IPv4 is left",
    }
}

/// The word for the end of an attempt: `connected`, `failed`, `no answer`, `stopped` or `unknown`.
pub fn end_word(said: Said) -> &'static [u8] {
    match said {
        Said::Failed => b"failed",
        Said::Silent => b"no answer",
        Said::Stopped => b"stopped",
        Said::Unknown => b"unknown",
        _ => b"connected",
    }
}

/// The name of a family's addresses.
pub fn version_of(family: Family) -> &'static [u8] {
    match family {
        Family::V6 => b"IPv6",
        Family::V4 => b"IPv4",
    }
}

/// The name of the answer of a family.
pub fn name_of(family: Family) -> &'static [u8] {
    match family {
        Family::V6 => b"AAAA",
        Family::V4 => b"A",
    }
}

/// The word for one, or the word for another number.
pub fn noun(count: usize, one: &'static [u8], many: &'static [u8]) -> &'static [u8] {
    if count == 1 { one } else { many }
}

/// The piece of this place, counted from 0.
pub fn piece(words: Pieces, place: usize) -> &'static [u8] {
    words.get(place).copied().unwrap_or(b"")
}
