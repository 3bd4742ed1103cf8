//! Pictures of a race, as `he draw` prints them.
//!
//! [`write_picture`] draws a race for a terminal: a line on how it ended, with the host, the client and the time of
//! its record and the recorded client's own result, if it has them; a row for the AAAA answer, the A answer,
//! each pause and each attempt, with a bar from its start to its end on one scale of time, and these ticks; and the
//! scale. The right edge is the end of the race; nothing later is drawn. The A answer's bar is the wait for the AAAA
//! answer (RFC 8305 section 3). [`write_svg`] draws the rows as an SVG image, and [`collect_rows`] returns the rows
//! alone. Ticks are milliseconds.
//!
//! ```text
//! race 1 (line 1): connected by IPv4 (198.51.100.1) in 340 ms
//! AAAA answer   |      o                                 | 60 ms, 1 usable
//! A answer      |  o~~~~                                 | 25-60 ms wait, 1 usable
//! 2001:db8:1::1 |      =====================x            | 60-240 ms failed
//! 198.51.100.1  |                                   ====*| 310-340 ms connected
//!                0                                 340 ms
//! ```
//!
//! A page of races has [`write_head`], for each race [`write_section`], its rows as bars of HTML and its story
//! (he_story), and [`write_tail`], with the totals; [`write_name`] writes the name of a text above its races. Races
//! are written as they come. A page loads nothing and runs no script.
//!
//! Proved, for every race: the rows are those of `specs/Rows`, both answers, the pauses that begin before the end,
//! and each attempt once, by place. The appended text states the facts of `specs/Picture` or `specs/Svg`, in this
//! order: how the race ended, and for each row its subject, the columns before, in and after its bar, its ticks, and
//! its outcome. If memory is refused, the vector is unchanged. A section has those rows with their ticks, and totals
//! their numbers (`specs/Page`); no byte of a name, a heading or a story is read as a tag.
//!
//! Not proved: the words, signs and colours, that lines are as wide as the terminal, and how a viewer shows an image.
#![tactic(auto)]

mod drawing;
pub mod escaping;
mod frame;
pub mod look;
pub mod page;
pub mod picture;
pub mod rows;
pub mod section;
mod shapes;
pub mod svg;
pub mod totals;
mod words;

pub use look::{Look, Screen};
pub use page::{write_head, write_name, write_tail};
pub use picture::write_picture;
pub use rows::{Row, What, collect_rows};
pub use section::write_section;
pub use svg::write_svg;
pub use totals::{Times, Totals};
