// The lengths of prefixes.

ghost use Rattle.std.specs.Prelude.{◌≡◌};
ghost use Rattle.he_nat64.specs.Embedding.{bits_of, length_of};

/// The lengths of a NAT64's prefix (RFC 6052 section 2.2).
#[derive(Clone, Copy, Debug, PartialEq, Eq)]
pub enum Length {
    Bits32,
    Bits40,
    Bits48,
    Bits56,
    Bits64,
    Bits96,
}

impl Length {
    /// The length of this many bits. None if no NAT64's prefix has it.
    pub fn of(bits: u8) -> Option<Length>
        ensures { result ≡ length_of bits }
    {
        match bits {
            32 => Some(Length::Bits32),
            40 => Some(Length::Bits40),
            48 => Some(Length::Bits48),
            56 => Some(Length::Bits56),
            64 => Some(Length::Bits64),
            96 => Some(Length::Bits96),
            _ => None,
        }
    }

    /// The number of bits.
    pub fn bits(self) -> u8
        ensures { result ≡ bits_of self }
    {
        match self {
            Length::Bits32 => 32,
            Length::Bits40 => 40,
            Length::Bits48 => 48,
            Length::Bits56 => 56,
            Length::Bits64 => 64,
            Length::Bits96 => 96,
        }
    }
}
