// Explanations that are written with each growth refused in turn: a refused call reports want of memory, and any
// other has its usual output.

use crate::explanations::RACES;
use he_addr::Memory;
use he_course::Course;
use he_json::write_explanation_json;
use he_record::Record;
use he_text::{TextKind, read_race};
use he_timeline::Timeline;
use refusing::{Refusing, refused_in_turn};

// Whether the explanation of this race is the wanted one; none if memory was refused.
fn is_written<'h>(heap: &'h Refusing, race: &Timeline<&'h Refusing>, wanted: &str) -> Option<bool> {
    match explained(heap, race) {
        Ok(text) => Some(text.as_slice() == wanted.as_bytes()),
        Err(Memory) => None,
    }
}

fn explained<'h>(
    heap: &'h Refusing,
    race: &Timeline<&'h Refusing>,
) -> Result<Vec<u8, &'h Refusing>, Memory> {
    let course = Course::of(heap, race, 1, 1)?;
    let mut out = Vec::new(heap);
    write_explanation_json(heap, &course, &Record::none(heap), None, &mut out)?;
    Ok(out)
}

// Whether that holds of the race at the front of the text.
fn is_right(heap: &Refusing, text: &str, wanted: &str) -> Option<bool> {
    match read_race(heap, text.as_bytes(), 0) {
        Ok(Some(read)) => is_written(heap, &read.0, wanted),
        Ok(None) => Some(false),
        Err(fault) => {
            if fault.kind == TextKind::Memory {
                None
            } else {
                Some(false)
            }
        }
    }
}

#[test]
fn explanations(rt: HostRuntime) {
    let heap = Refusing::new(rt.alloc());
    for (text, wanted) in &RACES {
        let refused = refused_in_turn(&heap, || is_right(&heap, text, wanted)).unwrap_or(0);
        assert!(rt; refused > 0, "{text}");
    }
}
