// Texts that are read, and written again, with each growth refused in turn: a refused call reports want of memory,
// and any other has its usual result and output.

use he_addr::Memory;
use he_plan::{Transcript, transcript_of};
use he_text::{
    NotOneRace, TextKind, read_one_race, read_race, write_order, write_timeline, write_transcript,
};
use he_timeline::Timeline;
use refusing::{Refusing, each_growth_refused, refused_in_turn};
use std::test::Fail;

// A race with all kinds of lines, as it is written, and after it its order and its transcript. For 2001:db8:1::1 and
// 192.0.2.9 the source has the label of the destination, for 198.51.100.1 it hasn't (RFC 6724 section 6, rule 5), and
// the first has the higher precedence. Its connection is still on its way at the limit.
const FULL: &str = "race 1
set resolution 0
set attempt 10
set count 8
set limit 3600000
policy ::ffff:c633:6400/120 65535 7
policy ::/0 40 1
policy ::ffff:0:0/96 35 4
source 2001:db8::2/64 1
source 2001:db8::3/128 2 deprecated
source 192.0.2.2/0 3 temporary
source 192.0.2.3/32 65535 deprecated temporary
route 198.51.100.0/24 1 tunnel
route ::fffe:0:0/95 2
route 2001:db8::/32 3 tunnel
route 0.0.0.0/0 4
aaaa 0 2001:db8:1::1
a 3600000 198.51.100.1 192.0.2.9
connect 192.0.2.9 fail 3600000
pause 30 40
pause 40 3600001
end
0 2001:db8:1::1 from 2001:db8::2
1 192.0.2.9 from 192.0.2.2
2 198.51.100.1 from 192.0.2.2
end
attempt 0 0 2001:db8:1::1 cancelled 3600000
limit 3600000
";

// The shortest race except for its limit and its answers.
const SHORT: &str = "race 1
set limit 9
aaaa 20 2001:DB8:1:0::1
a 25 none
end
";

// The text written of it: the standard settings and table (RFC 8305 section 8, RFC 6724 section 2.1), the order of an
// address that can't be reached, and the transcript of a race that ends before its first answer.
const SHORT_WRITTEN: &str = "race 1
set resolution 50
set attempt 250
set count 1
set limit 9
policy ::1/128 50 0
policy ::/0 40 1
policy ::ffff:0:0/96 35 4
policy 2002::/16 30 2
policy 2001::/32 5 5
policy fc00::/7 3 13
policy ::/96 1 3
policy fec0::/10 1 11
policy 3ffe::/16 1 12
aaaa 20 2001:db8:1::1
a 25 none
end
0 2001:db8:1::1 from none
end
limit 9
";

// A race of version 2, as it is written, and after it its order and its transcript. An address with a known round
// trip time comes before one without, and before one that was used earlier (RFC 8305 section 4). The first attempt
// fails at 30, the floor after its start.
const SECOND: &str = "race 2
set resolution 50
set attempt 250
set count 1
set limit 30000
set floor 10
policy ::/0 40 1
policy ::ffff:0:0/96 35 4
source 2001:db8::2/64 1
route ::/0 1
aaaa 20 2001:db8:1::1 2001:db8:1::2
rtt 2001:db8:1::2 30
used 2001:db8:1::1
connect 2001:db8:1::2 fail 10
end
0 2001:db8:1::2 from 2001:db8::2
1 2001:db8:1::1 from 2001:db8::2
end
attempt 0 20 2001:db8:1::2 failed 30
attempt 1 30 2001:db8:1::1 cancelled 30000
limit 30000
";

// The short race again, with the first line of version 2 and none of its words.
const SHORT_SECOND: &str = "race 2
set limit 9
aaaa 20 2001:DB8:1:0::1
a 25 none
end
";

// Each function below holds at most one value that has to be dropped, and returns at one place while it does: while
// such a value is live, each return is costly to prove.

// Appends a race's text, its order and its transcript, up to the first of them that is refused.
fn append<'h>(
    heap: &'h Refusing,
    race: &Timeline<&'h Refusing>,
    transcript: &Transcript<&'h Refusing>,
    out: &mut Vec<u8, &'h Refusing>,
) -> Result<(), Memory> {
    write_timeline(race, out)?;
    write_order(heap, race, out)?;
    write_transcript(transcript, out)
}

// Whether these texts are the wanted ones; none if memory was refused.
fn is_written<'h>(
    heap: &'h Refusing,
    race: &Timeline<&'h Refusing>,
    transcript: &Transcript<&'h Refusing>,
    wanted: &str,
) -> Option<bool> {
    let mut out = Vec::new(heap);
    match append(heap, race, transcript, &mut out) {
        Ok(()) => Some(out.as_slice() == wanted.as_bytes()),
        Err(Memory) => None,
    }
}

fn is_told<'h>(heap: &'h Refusing, race: &Timeline<&'h Refusing>, wanted: &str) -> Option<bool> {
    match transcript_of(heap, race) {
        Ok(transcript) => is_written(heap, race, &transcript, wanted),
        Err(_) => None,
    }
}

// Whether they are for the race at the front of the text.
fn is_right(heap: &Refusing, text: &str, wanted: &str) -> Option<bool> {
    match read_race(heap, text.as_bytes(), 0) {
        Ok(Some(read)) => is_told(heap, &read.0, wanted),
        Ok(None) => Some(false),
        Err(fault) => {
            if fault.kind == TextKind::Memory {
                None
            } else {
                Some(false)
            }
        }
    }
}

#[test]
fn races(rt: HostRuntime) {
    let heap = Refusing::new(rt.alloc());
    for (text, wanted) in [
        (FULL, FULL),
        (SHORT, SHORT_WRITTEN),
        (SECOND, SECOND),
        (SHORT_SECOND, SHORT_WRITTEN),
    ] {
        let refused = refused_in_turn(&heap, || is_right(&heap, text, wanted)).unwrap_or(0);
        assert!(rt; refused > 0, "{text}");
    }
}

// Texts, and why they are not one race.
static ONE_RACE: [(&str, Option<NotOneRace>); 2] = [
    (SHORT, None),
    (
        "race 1\naaaa 20 2001:db8:1::1\nend\nrace 1\nend\n",
        Some(NotOneRace::Count),
    ),
];

#[test]
fn one_race(rt: HostRuntime) {
    let heap = Refusing::new(rt.alloc());
    for (text, wanted) in &ONE_RACE {
        let refused = each_growth_refused(&heap, || {
            let fault = read_one_race(&heap, text.as_bytes(), false).err();
            let is_memory = fault == Some(NotOneRace::Memory);
            assert!(rt;
                fault == *wanted || is_memory && heap.has_refused(),
                "{text}"
            );
        });
        assert!(rt; refused > 0, "{text}");
    }
}

#[test]
fn words_for_want_of_memory(rt: HostRuntime) -> Result<(), Fail> {
    let kind = TextKind::Memory;
    let told = format!(in rt.alloc(); "{kind}")?;
    assert_eq!(rt; told.as_str(), "out of memory");
    Ok(())
}
