// The law of the numbers of texts, the contract of a function that runs nothing.

ghost use Rattle.std.specs.Prelude.{◌≡◌};
ghost use Rattle.he_words.specs.declared.limits.TheConstants.{MAX_LINE, MAX_ANSWERS, SOURCE_MARKS, ROUTE_MARKS, MAX_PRECEDENCE, MAX_LABEL, MIN_INTERFACE, MAX_INTERFACE, MIN_PAUSE_END, MOST_RACES, LINE_END, TOKEN_END};
ghost use Rattle.he_select.specs.Ranges.{least_interface};
ghost use Rattle.he_words.specs.Ranges.{line_end, token_end, most_line_bytes, most_answers, most_source_marks, most_route_marks, most_u16, least_pause_end, most_races};

/// The constants of the code are those of the definitions (`specs/Ranges`). Runs nothing.
pub fn ranges()
    ensures bytes { (LINE_END ≡ line_end) × (TOKEN_END ≡ token_end) }
    ensures lines { (MAX_LINE ≡ most_line_bytes) × (MAX_ANSWERS ≡ most_answers) }
    ensures marks { (SOURCE_MARKS ≡ most_source_marks) × (ROUTE_MARKS ≡ most_route_marks) }
    ensures races { MOST_RACES ≡ most_races }
    ensures pauses { MIN_PAUSE_END ≡ least_pause_end }
    ensures selection { (MAX_PRECEDENCE ≡ most_u16) × (MAX_LABEL ≡ most_u16) × (MIN_INTERFACE ≡ least_interface)
        × (MAX_INTERFACE ≡ most_u16) }
{}
