//! The statements that a story makes of a race, and the words for each.
//!
//! A [`Said`] is what is stated; the numbers, places and addresses of a statement are facts of their own. Its words
//! are pieces, and a part of the statement comes between each two of them ([`words::words_of`]). he_story says which
//! statements a story has, in which order; he_draw has its own words for some of them.
//!
//! It is proved that this code is safe and terminates. No contract covers words: the worked examples have each of
//! them.
#![tactic(auto)]

mod said;
pub mod words;

pub use said::Said;
pub use words::end_word;
