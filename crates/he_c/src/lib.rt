//! The rules of races for programs in C, and in all languages that call C: bytes in, bytes out. `he.h` declares these
//! functions, and gives the requirements on their callers.
//!
//! No state is kept between calls. A call starts no thread, opens no socket and reads no clock; it allocates with
//! `malloc`, and frees all of it before it returns. Each call writes into a buffer that the caller gives, and reports
//! the length of the whole text.
//!
//! Proved, by the contract of each exported function: it writes the text that the definitions give for the input, all
//! of it or nothing; it reports the input's first fault, by line and kind; and it reports that the buffer is too small
//! exactly if it is (`specs/Answers`, `specs/Outputs`, `specs/Checks`). The step of `he_next` is the one that the
//! crate he_next defines, number by number (`specs/Steps`). A line is the one that the crate he_write writes for the
//! same values (`specs/Lines`), or the record line of the given words (`specs/Records`); it is refused exactly if
//! there is no such line.
//!
//! Tested only: the explanation of a fault by `he_check`, the kind of the fault of a line, and that a call succeeds if
//! no allocation fails. One function of the library, `he_host_lines`, is in C and not proved (`library/host.c`).
#![tactic(auto)]

mod addresses;
mod answer;
mod checking;
mod codes;
mod kinds;
mod line_texts;
mod lines;
mod next;
mod record_line;
mod step;
mod telling;
mod texts;
mod version;
mod way;
