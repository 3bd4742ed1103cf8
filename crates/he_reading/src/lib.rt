//! Reading races from timeline texts.
//!
//! [`read_race`] reads the race that begins at a place of a text. A race is `race 1` or `race 2`, then lines in the
//! order of their groups (`set`, `policy`, `source`, `route`, `aaaa`, `a`, `rtt`, `used`, `connect`, `pause`), then
//! `end`. Each line ends with one LF, and single spaces separate its tokens. Version 2 adds `rtt`, `used` and `set
//! floor`.
//!
//! Proved: `read_race` finds exactly the race's text at the place, with its value (`specs/Text`), unless an
//! allocation fails. A fault that it returns is the first failed check on the first faulty line (`specs/Faults`),
//! counted from 1 at the place, or `Memory` at a line of the text before which there is no fault. It returns None
//! exactly if the text ends at the place. By [`laws`], a text begins with a race exactly if it has no fault.
#![tactic(auto)]

mod draft;
mod first_words;
mod forms;
mod head;
pub mod laws;
mod lines;
mod parts;
pub mod reading;
mod settings;

pub use parts::marks_in;
pub use reading::{read_first, read_race};
pub use settings::word_of_setting;
