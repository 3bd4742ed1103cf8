//! Laws of the definitions. Each is the contract of a function that does nothing.

ghost use Rattle.he_print.specs.Escaping.{StringsEnd, StringsAreLines};

/// A string ends with its last quotation mark, whatever its bytes and the text after it, and has no control
/// character.
pub fn strings_end()
    ensures ends { StringsEnd }
    ensures lines { StringsAreLines }
{}
