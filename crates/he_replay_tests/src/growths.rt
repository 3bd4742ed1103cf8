// Each growth refused in turn: the fault is Memory and the text of some first races is written, or all is.

use crate::hostile::{CONTENTS, EXPLAINED, TEXT, output_of, run_over};
use he_addr::Memory;
use he_inputs::StreamFault;
use he_replay::Content;
use he_stream::{FromReader, ToWriter};
use refusing::{Refusing, each_growth_refused};
use std::alloc::Global;
use std::test::Fail;
use std::thread::Threads;
use stream_fakes::{FakeReader, FakeWriter};

// The number of copies of the text in the input: enough that the memory for the input and the output grows more than
// once.
const TIMES: usize = 8;

fn repeated(alloc: Global, text: &[u8]) -> Result<Vec<u8>, Memory> {
    let mut all = Vec::new(alloc);
    for _ in 0..TIMES {
        all.extend_from_slice(text)?;
    }
    Ok(all)
}

// Whether a call whose allocator may refuse returns Memory only if it has refused, and has then written the whole
// output of some first races, and writes everything otherwise.
fn is_right<R: Threads + Sync>(
    rt: &R,
    heap: &Refusing<Global>,
    alloc: Global,
    content: Content,
    text: &[u8],
    wanted: &[u8],
) -> bool {
    let mut input = FromReader::new(FakeReader::new(text, 64));
    let mut output = ToWriter::new(FakeWriter::new(alloc));
    match run_over(content, rt, heap, &mut input, &mut output) {
        Ok(()) => output.writer().held() == wanted,
        Err(fault) => {
            let held = output.writer().held();
            let is_whole = held.is_empty() || held.ends_with(output_of(content));
            let is_first = wanted.starts_with(held) && is_whole;
            heap.has_refused() && fault == StreamFault::Memory && is_first
        }
    }
}

#[test]
fn refused_growths_are_told(rt: HostRuntime) -> Result<(), Fail> {
    let heap = Refusing::new(rt.alloc());
    let text = repeated(rt.alloc(), TEXT)?;
    for content in CONTENTS {
        let wanted = repeated(rt.alloc(), output_of(content))?;
        let refused = each_growth_refused(&heap, || {
            assert!(rt; is_right(&rt, &heap, rt.alloc(), content, &text, &wanted));
        });
        assert!(rt; refused > 3);
    }
    let wanted = output_of(EXPLAINED);
    let refused = each_growth_refused(&heap, || {
        assert!(rt; is_right(&rt, &heap, rt.alloc(), EXPLAINED, TEXT, wanted));
    });
    assert!(rt; refused > 3);
    Ok(())
}
