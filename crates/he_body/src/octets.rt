// The octets of the parts of a chunked body.

ghost use Rattle.std.specs.Prelude.{◌≡◌, Some, None, if◌then◌else◌};
ghost use Rattle.std.specs.Char.{digit_value, is_digit};
ghost use Rattle.httparse.specs.Grammar.{is_token_byte, is_value_byte};

const SIGNS: &[u8] = b"!#$%&'*+-.^_`|~";

// The value of a hexadecimal digit.
pub(crate) fn digit(octet: u8) -> Option<u64>
    ensures { result ≡ (if is_digit octet 16 then Some (digit_value octet) else None) }
{
    match octet {
        b'0'..=b'9' => Some((octet - b'0') as u64),
        b'A'..=b'F' => Some((octet - b'A' + 10) as u64),
        b'a'..=b'f' => Some((octet - b'a' + 10) as u64),
        _ => None,
    }
}

/// Whether it is an octet of a token, as of a field's name (RFC 9110 section 5.6.2).
#[tactic(auto, unfolding(httparse::specs::Grammar::is_token_byte))]
pub fn is_token(octet: u8) -> bool
    ensures { result ≡ is_token_byte octet }
{
    octet.is_ascii_alphanumeric() || SIGNS.contains(&octet)
}

// An octet of a field's value, or of a chunk's extension.
pub(crate) fn is_text(octet: u8) -> bool
    ensures { result ≡ is_value_byte octet }
{
    octet == b'\t' || (b' ' <= octet && octet != 0x7f)
}
