//! A reader and a writer over memory for tests, which fail on request.
//!
//! A [`FakeReader`] gives its bytes in pieces, and then ends or breaks. A [`FakeWriter`] takes as many bytes as it
//! has room for, and then fails or takes none; its flush may fail too. One call of either may return `Interrupted`.
//! Both count their calls.
//!
//! ```text
//! let mut reader = FakeReader::new(b"race 1\nend\n", 4).broken();
//! let mut writer = FakeWriter::new(rt.alloc()).with_room(3);
//! // .. run what is tested over `&mut reader` and `&mut writer` ..
//! assert_eq!(rt; writer.held(), b"lim".as_slice());
//! ```
//!
//! Contracts see the bytes that a reader has left and those that a writer holds, so a contract that is generic over
//! `std::io::Read` and `std::io::Write` determines the bytes that a call took from the one and put into the other.
#![tactic(auto)]

pub mod reader;
pub mod writer;

pub use reader::FakeReader;
pub use writer::FakeWriter;
