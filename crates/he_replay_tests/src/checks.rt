// Checks of texts with each growth refused in turn: want of memory is reported only if a growth was refused, with
// nothing written and nothing explained; all else is unchanged. `check` goes through `check_input` and
// `explain_fault`.

use he_check::check;
use he_inputs::StreamFault;
use he_select::PolicyFault;
use he_stream::{FromReader, ToWriter};
use he_words::{TextFault, TextKind};
use refusing::{Refusing, each_growth_refused};
use std::alloc::Global;
use stream_fakes::{FakeReader, FakeWriter};

// A text; the result, the output and the explanation.
type Row = (
    &'static [u8],
    Result<(), StreamFault>,
    &'static [u8],
    &'static [u8],
);

static ROWS: [Row; 3] = [
    (
        b"race 1\naaaa 20 2001:db8:1::1\nend\nrace 1\nend\n",
        Ok(()),
        b"2 races, 5 lines\n",
        b"he: line 1: warning: this race has no `source` line, so every address counts as unreachable: add the output of `he host`
he: line 1: warning: this race has no `a` line, so it waits for that answer until its limit: if the name has no IPv4 address, write `a TICK none`
he: line 4: warning: this race has no `source` line, so every address counts as unreachable: add the output of `he host`
he: line 4: warning: this race has no `aaaa` line, so it waits for that answer until its limit: if the name has no IPv6 address, write `aaaa TICK none`
he: line 4: warning: this race has no `a` line, so it waits for that answer until its limit: if the name has no IPv4 address, write `a TICK none`
",
    ),
    (
        b"race 1\nset attempt 9\nend\n",
        Err(StreamFault::Text(TextFault {
            line: 2,
            kind: TextKind::Range,
        })),
        b"",
        b"  set attempt 9
              ^
the attempt delay is 10 to 2000 milliseconds
",
    ),
    (
        b"race 1\npolicy ::/0 40 1\npolicy ::ffff:0:0/96 40 4\nend\n",
        Err(StreamFault::Text(TextFault {
            line: 3,
            kind: TextKind::Policy(PolicyFault::SharedPrecedence(0, 1)),
        })),
        b"",
        b"  policy ::ffff:0:0/96 40 4
  ^^^^^^
rows 0 and 1, on lines 2 and 3, share the precedence 40: one is inside ::ffff:0:0/96, one outside
",
    ),
];

// Whether the check of the row, whose allocator may refuse, ends as required.
fn is_right(heap: &Refusing<Global>, alloc: Global, row: &Row) -> bool {
    let (text, wanted, written, explained) = row;
    let mut input = FromReader::new(FakeReader::new(text, 16));
    let mut output = ToWriter::new(FakeWriter::new(alloc));
    let mut explanation = Vec::new(heap);
    let ended = check(heap, false, &mut input, &mut output, &mut explanation);
    let held = output.writer().held();
    if ended == Err(StreamFault::Memory) {
        heap.has_refused() && held.is_empty() && explanation.is_empty()
    } else {
        ended == *wanted && held == *written && explanation.as_slice() == *explained
    }
}

#[test]
fn refused_checks_are_told(rt: HostRuntime) {
    let heap = Refusing::new(rt.alloc());
    for row in &ROWS {
        let refused = each_growth_refused(&heap, || {
            assert!(rt; is_right(&heap, rt.alloc(), row));
        });
        assert!(rt; refused > 3);
    }
}
