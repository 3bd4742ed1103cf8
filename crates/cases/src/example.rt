//! One example.

use crate::resolving::Heard;
use crate::turns::run_turns;
use he_addr::Memory;
use he_check::{check, check_json};
use he_draw::Look;
use he_inputs::StreamFault;
use he_stream::{FromReader, ToWriter};
use he_streaming::limits::{LEAST_WORKERS, MOST_WORKERS};
use he_streaming::{Content, Printer, TextRequest, replay};
use std::fmt::Display;
use std::io::{Chain, Read};
use std::mem::drop;
use std::thread::Threads;
use std::{fs, io};
use stream_fakes::{FakeReader, FakeWriter};

// The most bytes that a read gives.
const STEPS: [usize; 3] = [1, 7, usize::MAX];

const WORKERS: [u16; 4] = [1, 2, 7, 64];

// The bytes of the longest text that is run in every cut into two pieces.
const MOST_CUT_BYTES: usize = 400;

// The messages of a run that was refused memory, and of one whose writer was: the writer has room for everything, and
// fails only then.
const REFUSED_LINES: [&[u8]; 2] = [b"he: out of memory\n", b"he: cannot write the output\n"];

/// The number of runs, and of those whose result differs from their files.
#[derive(Clone, Copy)]
pub struct Counts {
    pub ran: u64,
    pub differ: u64,
}

impl Counts {
    /// Counts a run, and prints a line for it if it differs.
    ///
    /// # Errors
    ///
    /// A line that cannot be written.
    pub fn count(
        &mut self,
        rt: &HostRuntime,
        name: &str,
        what: &str,
        is_same: bool,
    ) -> io::Result<()> {
        self.ran = self.ran.saturating_add(1);
        if !is_same {
            self.differ = self.differ.saturating_add(1);
            println!(rt; "{name}: {what}")?;
        }
        Ok(())
    }
}

// An example's name and text, and the message of its fault.
#[derive(Clone, Copy)]
struct Example<'a> {
    name: &'a str,
    text: &'a [u8],
    fault: &'a [u8],
}

// The way in which a text is read: the bytes before the cut apart from those after it, at most `step` in one read.
#[derive(Clone, Copy)]
struct Pieces {
    cut: usize,
    step: usize,
}

fn input_of(text: &[u8], pieces: Pieces) -> FromReader<Chain<FakeReader<'_>, FakeReader<'_>>> {
    let Pieces { cut, step } = pieces;
    let (before, behind) = text.split_at(cut.min(text.len()));
    let step = step.max(1);
    FromReader::new(FakeReader::new(before, step).chain(FakeReader::new(behind, step)))
}

// The number of ways in which a text is read: in pieces of each step, and a short one in every cut into two.
fn way_count(text: &[u8]) -> usize {
    if text.len() > MOST_CUT_BYTES {
        STEPS.len()
    } else {
        STEPS.len().saturating_add(text.len().saturating_sub(1))
    }
}

// The way of this number, counted from 0: those of the steps come first.
fn way(text: &[u8], number: usize) -> Pieces {
    match STEPS.get(number) {
        Some(step) => Pieces {
            cut: text.len(),
            step: *step,
        },
        None => Pieces {
            cut: number.saturating_sub(STEPS.len()).saturating_add(1),
            step: usize::MAX,
        },
    }
}

// A picture in 80 columns.
const PICTURE: Content = Content::Course(Printer::Picture {
    look: Look::Unicode,
    width: 80,
});

// The contents asked for of a text, and the ending of the file that has the output for each.
const CONTENTS: [(Content, &str); 7] = [
    (Content::Transcript, "transcript"),
    (Content::Order, "order"),
    (Content::Course(Printer::Story), "story"),
    (Content::TranscriptJson, "transcript-json"),
    (Content::OrderJson, "order-json"),
    (Content::Course(Printer::Json), "explanation-json"),
    (PICTURE, "picture"),
];

// The names of an input that is checked, and the beginning of its object.
const NO_FILE: &[u8] = b"{\"file\":null,";

const JSON_FILES: [(Option<&str>, &[u8]); 2] = [
    (None, NO_FILE),
    (
        Some("a \"b\\c\u{1b}"),
        b"{\"file\":\"a \\\"b\\\\c\\u001b\",",
    ),
];

/// Runs the example of this name, and counts its runs.
///
/// # Errors
///
/// A file of the example that cannot be read, a line that cannot be written, and want of memory.
pub fn run_example<R: Threads + Sync>(
    rt: &HostRuntime,
    threads: &R,
    name: &str,
    counts: &mut Counts,
    heard: &mut Heard,
) -> io::Result<()> {
    let text = read_beside(rt, name, "timeline")?.unwrap_or(Vec::new(rt.alloc()));
    let fault = read_beside(rt, name, "fault")?.unwrap_or(Vec::new(rt.alloc()));
    let example = Example {
        name,
        text: &text,
        fault: &fault,
    };
    run_check(rt, example, counts)?;
    run_check_all(rt, example, counts)?;
    run_check_json(rt, example, (false, "check-json"), counts)?;
    run_check_json(rt, example, (true, "check-all-json"), counts)?;
    run_all(rt, threads, example, counts, heard)
}

// Replays the text, and compares the output with each file beside it: the transcripts with each number of workers.
fn run_all<R: Threads + Sync>(
    rt: &HostRuntime,
    threads: &R,
    example: Example<'_>,
    counts: &mut Counts,
    heard: &mut Heard,
) -> io::Result<()> {
    let Example { name, text, .. } = example;
    let ran = counts.ran;
    for (content, ending) in CONTENTS {
        if let Some(wanted) = read_beside(rt, name, ending)? {
            for workers in workers_for(content) {
                let asked = (content, ending, *workers);
                run_asked(rt, threads, example, asked, &wanted, counts)?;
            }
        }
    }
    if let Some(transcript) = read_beside(rt, name, "transcript")? {
        let is_same = run_turns(rt, text, heard)?.as_slice() == transcript.as_slice();
        counts.count(rt, name, "the transcript by turns differs", is_same)?;
    }
    if counts.ran == ran {
        let what = "nothing that is written stands beside it";
        counts.count(rt, name, what, false)?;
    }
    Ok(())
}

// The numbers of workers with which it is written.
fn workers_for(content: Content) -> &'static [u16] {
    match content {
        Content::Transcript => &WORKERS,
        _ => &WORKERS[..1],
    }
}

// Replays the text with this number of workers, in each way of reading. Several workers don't read a text cut in two.
fn run_asked<R: Threads + Sync>(
    rt: &HostRuntime,
    threads: &R,
    example: Example<'_>,
    asked: (Content, &str, u16),
    wanted: &[u8],
    counts: &mut Counts,
) -> io::Result<()> {
    let Example { name, text, fault } = example;
    let (content, ending, workers) = asked;
    let ways = if workers > LEAST_WORKERS {
        STEPS.len()
    } else {
        way_count(text)
    };
    for number in 0..ways {
        let mut input = input_of(text, way(text, number));
        let mut output = ToWriter::new(FakeWriter::new(rt.alloc()));
        let asked = TextRequest::of(content);
        let workers = workers.max(LEAST_WORKERS).min(MOST_WORKERS);
        let ended = replay(
            threads,
            rt.alloc(),
            &asked,
            workers,
            &mut input,
            &mut output,
        );
        let is_written = output.writer().held() == wanted;
        drop(input);
        drop(output);
        let is_same = tells(rt, ended, fault)? && is_written;
        counts.count(rt, name, ending, is_same)?;
    }
    Ok(())
}

// Runs the text through `check`, which reports the fault and then writes nothing to the output. Its explanation of
// the fault, or its warnings, are those of the file beside the example, if there is one.
fn run_check(rt: &HostRuntime, example: Example<'_>, counts: &mut Counts) -> io::Result<()> {
    let Example { name, text, fault } = example;
    let told = read_beside(rt, name, "check")?;
    for number in 0..way_count(text) {
        let mut input = input_of(text, way(text, number));
        let mut output = ToWriter::new(FakeWriter::new(rt.alloc()));
        let mut explanation = Vec::new(rt.alloc());
        let ended = check(rt.alloc(), false, &mut input, &mut output, &mut explanation);
        let is_written = (output.writer().calls() == 0) == ended.is_err();
        drop(input);
        drop(output);
        let is_same = tells(rt, ended, fault)? && is_written;
        counts.count(rt, name, "the check differs", is_same)?;
        let is_explained = explains(&explanation, fault, told.as_ref());
        drop(explanation);
        counts.count(rt, name, "the explanation differs", is_explained)?;
    }
    Ok(())
}

// Runs the text through a check for all faults, and compares its report with the file beside the example, if there is
// one: each fault, with its line.
fn run_check_all(rt: &HostRuntime, example: Example<'_>, counts: &mut Counts) -> io::Result<()> {
    let Example { name, text, fault } = example;
    let Some(told) = read_beside(rt, name, "check-all")? else {
        return Ok(());
    };
    for number in 0..way_count(text) {
        let mut input = input_of(text, way(text, number));
        let mut output = ToWriter::new(FakeWriter::new(rt.alloc()));
        let mut explanation = Vec::new(rt.alloc());
        let ended = check(rt.alloc(), true, &mut input, &mut output, &mut explanation);
        let is_told = explanation.as_slice() == told.as_slice();
        drop(input);
        drop(output);
        drop(explanation);
        let is_same = tells(rt, ended, fault)? && is_told;
        counts.count(rt, name, "what is told of all faults differs", is_same)?;
    }
    Ok(())
}

// Runs the text through a check for the first fault, or for all, with JSON output, and compares that with the file
// beside the example, if there is one: for an input without a name, and for one with a name whose marks are escaped.
fn run_check_json(
    rt: &HostRuntime,
    example: Example<'_>,
    asked: (bool, &str),
    counts: &mut Counts,
) -> io::Result<()> {
    let Example { name, text, fault } = example;
    let (is_all, ending) = asked;
    let Some(wanted) = read_beside(rt, name, ending)? else {
        return Ok(());
    };
    for (file, beginning) in JSON_FILES {
        for number in 0..way_count(text) {
            let mut input = input_of(text, way(text, number));
            let mut output = ToWriter::new(FakeWriter::new(rt.alloc()));
            let ended = check_json(rt.alloc(), is_all, file, &mut input, &mut output);
            let rest = output.writer().held().strip_prefix(beginning);
            let is_written = rest.is_some() && rest == wanted.strip_prefix(NO_FILE);
            drop(input);
            drop(output);
            let is_same = tells(rt, ended, fault)? && is_written;
            counts.count(rt, name, ending, is_same)?;
        }
    }
    Ok(())
}

// Whether this explains a fault after its line, or the text's slips: it is the content of the file, or, without a
// file, something if there is a fault.
fn explains(explanation: &[u8], fault: &[u8], told: Option<&Vec<u8>>) -> bool {
    match told {
        Some(told) => told.strip_prefix(fault) == Some(explanation),
        None => fault.is_empty() || !explanation.is_empty(),
    }
}

// The bytes of a file beside the example, if there is one.
fn read_beside(rt: &HostRuntime, name: &str, ending: &str) -> io::Result<Option<Vec<u8>>> {
    let path = format!(in rt.alloc(); "{name}.{ending}")?;
    match fs::read(rt, path.as_str()) {
        Ok(bytes) => Ok(Some(bytes)),
        Err(error) if error.kind() == io::ErrorKind::NotFound => Ok(None),
        Err(error) => Err(error),
    }
}

// Whether this line is printed for the end of a run; no line for a good end. Want of memory, which no example asks
// for, is returned as such: it has nothing to do with the example.
fn tells<E: Display + Drop>(
    rt: &HostRuntime,
    ended: Result<(), E>,
    line: &[u8],
) -> Result<bool, Memory> {
    let told = match ended {
        Ok(()) => String::new(rt.alloc()),
        Err(fault) => format!(in rt.alloc(); "he: {fault}\n")?,
    };
    if told.as_bytes() == REFUSED_LINES[0] || told.as_bytes() == REFUSED_LINES[1] {
        return Err(Memory);
    }
    Ok(told.as_bytes() == line)
}
