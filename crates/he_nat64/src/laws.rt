// Laws of embedding and discovery, each the contract of a function.

ghost use Rattle.he_nat64.specs.Laws.{EmbeddedIsExtracted, ExtractedIsEmbedded, PrefixIsShown};

/// An address that a prefix embeds is extracted again, and all other bits are zero. Runs nothing.
pub fn embedded_is_extracted()
    ensures { EmbeddedIsExtracted }
{}

/// Embedding what was extracted gives the address back, if all other bits are zero. Runs nothing.
pub fn extracted_is_embedded()
    ensures { ExtractedIsEmbedded }
{}

/// The address that a network makes of an IPv4 address shows the network's prefix, if the address has the IPv4 address
/// once. Runs nothing.
pub fn prefix_is_shown()
    ensures { PrefixIsShown }
{}
