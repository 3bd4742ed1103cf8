//! The likely meaning of a word that is in no text, and of an input that is no text.

ghost use Rattle.std.specs.Prelude.{◌≡◌};
ghost use Rattle.std.specs.Char.{is_ascii_alphabetic, is_ascii_digit, is_ascii_uppercase};
ghost use Rattle.std.specs.List.{list_all, list_any};
ghost use Rattle.he_faults.specs.Meant.{as_address, as_ip_prints, as_mark, as_number, input_meant, is_capture, is_device, is_ip_word, is_name, is_of_name, is_of_time, meant_of};

/// The likely meaning of a word that is in no text, or of an input that is no text.
#[derive(Clone, Copy)]
pub enum Meant {
    /// A comment, which begins with `#`.
    Comment,
    /// A tab for a space.
    Tab,
    /// A word in capitals.
    Capitals,
    /// An address with a zone, as `fe80::1%eth0`.
    Zone,
    /// An address in brackets, as before a port.
    Brackets,
    /// A comma between addresses or in a number.
    Comma,
    /// A host name.
    Name,
    /// A default route, as `ip route` prints it.
    DefaultRoute,
    /// Another word that `ip` prints.
    IpOutput,
    /// The name of an interface.
    Device,
    /// A time with a unit.
    Unit,
    /// A number with a sign.
    Sign,
    /// A compressed file.
    Packed,
    /// A text in UTF-16.
    Wide,
    /// A packet capture.
    Capture,
    /// A text in JSON.
    Json,
}

// The likely meaning of the word, if it is one that is in no text.
#[tactic(auto, unfolding(crate::specs::Meant::meant_of))]
pub(crate) fn meant_of(word: &[u8]) -> Option<Meant>
    ensures { result ≡ meant_of word.now }
{
    as_mark(word)
        .or(as_ip_prints(word))
        .or(as_number(word))
        .or(as_address(word))
}

#[tactic(auto, unfolding(crate::specs::Meant::as_mark))]
fn as_mark(word: &[u8]) -> Option<Meant>
    ensures { result ≡ as_mark word.now }
{
    if word.starts_with(b"#") {
        Some(Meant::Comment)
    } else if word.contains(&b'\t') {
        Some(Meant::Tab)
    } else if are_letters(word) && has_capital(word) {
        Some(Meant::Capitals)
    } else {
        None
    }
}

#[tactic(auto, unfolding(crate::specs::Meant::as_ip_prints))]
fn as_ip_prints(word: &[u8]) -> Option<Meant>
    ensures { result ≡ as_ip_prints word.now }
{
    if word == b"default".as_slice() {
        Some(Meant::DefaultRoute)
    } else if is_ip_word(word) {
        Some(Meant::IpOutput)
    } else if is_device(word) {
        Some(Meant::Device)
    } else {
        None
    }
}

#[tactic(auto, unfolding(crate::specs::Meant::as_number))]
fn as_number(word: &[u8]) -> Option<Meant>
    ensures { result ≡ as_number word.now }
{
    if word.ends_with(b"s") && are_of_time(word) {
        Some(Meant::Unit)
    } else if (word.starts_with(b"-") || word.starts_with(b"+")) && has_digit(word) {
        Some(Meant::Sign)
    } else {
        None
    }
}

#[tactic(auto, unfolding(crate::specs::Meant::as_address))]
fn as_address(word: &[u8]) -> Option<Meant>
    ensures { result ≡ as_address word.now }
{
    if word.contains(&b'%') {
        Some(Meant::Zone)
    } else if word.contains(&b'[') || word.contains(&b']') {
        Some(Meant::Brackets)
    } else if word.contains(&b',') {
        Some(Meant::Comma)
    } else if is_name(word) {
        Some(Meant::Name)
    } else {
        None
    }
}

// A word of the output of `ip route` and `ip address`.
#[tactic(auto, unfolding(crate::specs::Meant::is_ip_word))]
fn is_ip_word(word: &[u8]) -> bool
    ensures { result ≡ is_ip_word word.now }
{
    word == b"via".as_slice()
        || word == b"dev".as_slice()
        || word == b"proto".as_slice()
        || word == b"scope".as_slice()
        || word == b"inet".as_slice()
        || word == b"inet6".as_slice()
}

// A name of an interface, as Linux gives them.
#[tactic(auto, unfolding(crate::specs::Meant::is_device))]
fn is_device(word: &[u8]) -> bool
    ensures { result ≡ is_device word.now }
{
    word == b"lo".as_slice()
        || has_digit(word)
            && (word.starts_with(b"eth")
                || word.starts_with(b"en")
                || word.starts_with(b"wl")
                || word.starts_with(b"wg")
                || word.starts_with(b"tun"))
}

// A dotted host name, or `localhost`.
#[tactic(auto, unfolding(crate::specs::Meant::is_name))]
fn is_name(word: &[u8]) -> bool
    ensures { result ≡ is_name word.now }
{
    word == b"localhost".as_slice() || word.contains(&b'.') && has_letter(word) && are_of_name(word)
}

fn has_digit(word: &[u8]) -> bool
    ensures { result ≡ list_any is_ascii_digit word.now }
{
    word.iter().any(|byte| byte.is_ascii_digit())
}

fn has_letter(word: &[u8]) -> bool
    ensures { result ≡ list_any is_ascii_alphabetic word.now }
{
    word.iter().any(|byte| byte.is_ascii_alphabetic())
}

fn has_capital(word: &[u8]) -> bool
    ensures { result ≡ list_any is_ascii_uppercase word.now }
{
    word.iter().any(|byte| byte.is_ascii_uppercase())
}

fn are_letters(word: &[u8]) -> bool
    ensures { result ≡ list_all is_ascii_alphabetic word.now }
{
    word.iter().all(|byte| byte.is_ascii_alphabetic())
}

fn are_of_name(word: &[u8]) -> bool
    ensures { result ≡ list_all is_of_name word.now }
{
    word.iter().all(|byte| is_of_name(*byte))
}

fn is_of_name(byte: u8) -> bool
    ensures { result ≡ is_of_name byte }
{
    byte.is_ascii_alphanumeric() || b"-_.".contains(&byte)
}

fn are_of_time(word: &[u8]) -> bool
    ensures { result ≡ list_all is_of_time word.now }
{
    word.iter().all(|byte| is_of_time(*byte))
}

// A digit, a point, or a letter of `ms` and `s`.
fn is_of_time(byte: u8) -> bool
    ensures { result ≡ is_of_time byte }
{
    byte.is_ascii_digit() || b".ms".contains(&byte)
}

// The likely meaning of an input with these first bytes.
#[tactic(auto, unfolding(crate::specs::Meant::input_meant))]
pub(crate) fn input_meant(input: &[u8]) -> Option<Meant>
    ensures { result ≡ input_meant input.now }
{
    if input.starts_with(b"\x1f\x8b")
        || input.starts_with(b"\x28\xb5\x2f\xfd")
        || input.starts_with(b"\xfd7zXZ\x00")
    {
        Some(Meant::Packed)
    } else if input.starts_with(b"\xff\xfe")
        || input.starts_with(b"\xfe\xff")
        || input.starts_with(b"r\x00")
        || input.starts_with(b"\x00r")
    {
        Some(Meant::Wide)
    } else if is_capture(input) {
        Some(Meant::Capture)
    } else if input.starts_with(b"{") || input.starts_with(b"[") {
        Some(Meant::Json)
    } else {
        None
    }
}

// A capture of tcpdump or Wireshark, of either byte order, with microseconds or nanoseconds; or one of pcapng.
#[tactic(auto, unfolding(crate::specs::Meant::is_capture))]
fn is_capture(input: &[u8]) -> bool
    ensures { result ≡ is_capture input.now }
{
    input.starts_with(b"\xd4\xc3\xb2\xa1")
        || input.starts_with(b"\xa1\xb2\xc3\xd4")
        || input.starts_with(b"\x4d\x3c\xb2\xa1")
        || input.starts_with(b"\xa1\xb2\x3c\x4d")
        || input.starts_with(b"\x0a\x0d\x0d\x0a")
}
