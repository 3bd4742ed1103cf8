// Reads the record of a running race.

ghost use Rattle.std.specs.Prelude.{◌≡◌, ◌≤◌, ◌++◌, IfErr, IfOk, OnOk};
ghost use Rattle.he_timeline.specs.declared.limits.TheConstants.{MAX_LIMIT};
ghost use Rattle.he_next.specs.Faults.{IsFaultOf};
ghost use Rattle.he_next.specs.Steps.{IsSoFar, ended, with_pause};

use crate::fault::NextFault;
use he_addr::{Memory, write_number};
use he_inputs::read_one_race;
use he_plan::{Transcript, transcript_of};
use std::alloc::Allocator;

// A race so far: its limit, and its transcript if nothing more happens.
#[derive(Drop)]
pub(crate) struct SoFar<A: Allocator> {
    pub(crate) limit: u64,
    pub(crate) transcript: Transcript<A>,
}

// Reads the race of a record so far.
pub(crate) fn read_so_far<A: Allocator + Copy>(
    alloc: A,
    lines: &[u8],
) -> Result<SoFar<A>, NextFault>
    ensures so_far { IfOk result (λ s. IsSoFar lines.now s.limit s.transcript) }
    ensures range { IfOk result (λ s. s.limit ≤ MAX_LIMIT) }
    ensures fault { IfErr result (λ fault. IsFaultOf lines.now fault) }
{
    let text = ended_record(alloc, lines)?;
    let race = read_one_race(alloc, &text, false)?;
    match transcript_of(alloc, &race) {
        Ok(transcript) => Ok(SoFar {
            limit: race.settings().limit(),
            transcript,
        }),
        Err(_) => Err(NextFault::Memory),
    }
}

// The record with a line `end`.
fn ended_record<A: Allocator + Copy>(alloc: A, lines: &[u8]) -> Result<Vec<u8, A>, Memory>
    ensures { IfOk result (λ text. text.items ≡ ended lines.now) }
{
    let mut text = Vec::new(alloc);
    append(lines, &mut text)?;
    append(b"end\n", &mut text)?;
    Ok(text)
}

// The record with the pause.
pub(crate) fn paused_record<A: Allocator + Copy>(
    alloc: A,
    lines: &[u8],
    from: u64,
    until: u64,
) -> Result<Vec<u8, A>, Memory>
    ensures { IfOk result (λ text. text.items ≡ with_pause lines.now from until) }
{
    let mut text = Vec::new(alloc);
    append(lines, &mut text)?;
    append(b"pause ", &mut text)?;
    write_number(from, &mut text)?;
    append(b" ", &mut text)?;
    write_number(until, &mut text)?;
    append(b"\n", &mut text)?;
    Ok(text)
}

fn append<A: Allocator>(bytes: &[u8], text: &mut Vec<u8, A>) -> Result<(), Memory>
    ensures { OnOk result (text.new.items ≡ text.old.items ++ bytes.now) }
{
    text.extend_from_slice(bytes)
}
