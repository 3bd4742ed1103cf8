//! Laws of the definitions. Each is the contract of an empty function.

ghost use Rattle.he_json.specs.Laws.{AddressesArePlain, ExplanationsAreLines, MachinesAreLines, NamesAreLines, OrdersAreLines, TranscriptsAreLines};

use he_print::laws::strings_end;

/// Each text is one line without control characters, whatever the name of the file or the host.
pub fn texts_are_lines()
    ensures transcripts { TranscriptsAreLines }
    ensures orders { OrdersAreLines }
    ensures explanations { ExplanationsAreLines }
    ensures machines { MachinesAreLines }
    ensures names { NamesAreLines }
{
    strings_end();
}

/// No character of an address needs an escape in a string.
pub fn addresses_are_plain()
    ensures { AddressesArePlain }
{}
