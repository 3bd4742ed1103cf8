// The numbers of the domain name system, and the limits of this reader.

/// The maximum number of octets of a label (RFC 1035 section 2.3.4).
pub const MAX_LABEL: usize = 63;

/// The maximum number of octets of a name in a message, without the last one, the root's empty label: a whole name
/// has at most 255 (RFC 1035 section 2.3.4).
pub const MAX_NAME: usize = 254;

/// The maximum number of parts (labels and pointers) of a name in a message. A name has at most 127 labels, so one
/// with a pointer between any two of them is read.
pub const MAX_PARTS: usize = 255;

/// The maximum number of aliases (CNAME records) followed to a host's addresses.
pub const MAX_ALIASES: usize = 16;

/// The maximum TTL, in seconds; a greater one counts as 0 (RFC 2181 section 8).
pub const MAX_TTL: u32 = 0x7fff_ffff;

// The minimum first octet of a pointer (RFC 1035 section 4.1.4).
pub(crate) const POINTER: u8 = 0xc0;

// The length of a message's header in octets, and the places of NSCOUNT and ARCOUNT in it (RFC 1035 section 4.1.1).
pub(crate) const HEADER_LEN: usize = 12;

pub(crate) const AUTHORITIES_AT: usize = 8;

pub(crate) const ADDITIONALS_AT: usize = 10;

// TYPE of an IPv4 address, of an alias (RFC 1035 section 3.2.2) and of an IPv6 address (RFC 3596 section 2.1).
pub(crate) const TYPE_A: u16 = 1;

pub(crate) const TYPE_CNAME: u16 = 5;

pub(crate) const TYPE_AAAA: u16 = 28;

// CLASS of the Internet (RFC 1035 section 3.2.4).
pub(crate) const CLASS_IN: u16 = 1;

// TYPE of the record that announces the room for datagrams, and has the upper bits of a response code (RFC 6891
// section 6.1.1); its high octet is 0.
pub(crate) const TYPE_OPT: u8 = 41;
