// Laws of the texts. Each is the contract of a function that runs nothing.

ghost use Rattle.std.specs.Prelude.{◌≡◌};
ghost use Rattle.he_addr.specs.Laws.{SpellsOneNumber, SpellsOneAddress, SpellsOneSource, SpellsOnePrefix, PrintsOneText, PrintsOneSource, PrintsOnePrefix, NumbersReadBack, AddressesReadBack, SourcesReadBack, PrefixesReadBack, NumbersAreTokens, AddressesAreTokens, SourcesAreTokens, PrefixesAreTokens};
ghost use Rattle.he_addr.specs.Ranges.{v4_bits, v6_bits, mapped_len, link_local_scope, site_local_scope, global_scope, number_digits, length_digits, address_text_len, prefix_text_len};

use crate::decimal::NUMBER_DIGITS;
use crate::ip::{GLOBAL_SCOPE, LINK_LOCAL_SCOPE, SITE_LOCAL_SCOPE};
use crate::prefix::{MAPPED_LEN, V4_BITS, V6_BITS};
use crate::printing::{ADDRESS_LEN, PREFIX_LEN};
use crate::reading::LENGTH_DIGITS;

/// A text spells at most one number, address, source and prefix. Runs nothing.
pub fn one_meaning()
    ensures number { SpellsOneNumber }
    ensures address { SpellsOneAddress }
    ensures source { SpellsOneSource }
    ensures prefix { SpellsOnePrefix }
{}

/// An address, a source and a prefix have one printed text. Runs nothing.
pub fn one_text()
    ensures address { PrintsOneText }
    ensures source { PrintsOneSource }
    ensures prefix { PrintsOnePrefix }
{}

/// The written text of a number below 10^10, of an address, a source or a prefix spells that value, and the readers
/// read it back. Runs nothing.
pub fn reads_back()
    ensures number { NumbersReadBack }
    ensures address { AddressesReadBack }
    ensures source { SourcesReadBack }
    ensures prefix { PrefixesReadBack }
{}

/// The written text of each of these is not empty and has neither a space nor an LF. Runs nothing.
pub fn tokens()
    ensures number { NumbersAreTokens }
    ensures address { AddressesAreTokens }
    ensures source { SourcesAreTokens }
    ensures prefix { PrefixesAreTokens }
{}

/// The constants of the code are those of the definitions (`specs/Ranges.antt`). Runs nothing.
pub fn ranges()
    ensures widths { (V4_BITS ≡ v4_bits) × (V6_BITS ≡ v6_bits) × (MAPPED_LEN ≡ mapped_len) }
    ensures scopes { (LINK_LOCAL_SCOPE ≡ link_local_scope) × (SITE_LOCAL_SCOPE ≡ site_local_scope)
        × (GLOBAL_SCOPE ≡ global_scope) }
    ensures digits { (NUMBER_DIGITS ≡ number_digits) × (LENGTH_DIGITS ≡ length_digits) }
    ensures texts { (ADDRESS_LEN ≡ address_text_len) × (PREFIX_LEN ≡ prefix_text_len) }
{}
