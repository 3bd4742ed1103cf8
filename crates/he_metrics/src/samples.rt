// The parts of an exposition: the lines of a metric.
ghost use Rattle.std.specs.Prelude.{◌≡◌, ◌++◌, OnOk};
ghost use Rattle.std.specs.List.{flat_map};
ghost use Rattle.he_metrics.specs.Samples.{about_text, head_text, line_text, sample_line, seconds_text, sum_text, unit_text};

use he_addr::{Memory, write_number};
use std::alloc::Allocator;

// A number after its labels, or after its name's ending and its labels.
#[derive(Clone, Copy)]
pub(crate) struct Sample(pub(crate) &'static [u8], pub(crate) u64);

// Appends a metric: the lines before its samples, and a line for each of them.
pub(crate) fn write_metric<A: Allocator + Copy>(
    name: &[u8],
    kind: &[u8],
    help: &[u8],
    samples: &[Sample],
    out: &mut Vec<u8, A>,
) -> Result<(), Memory>
    ensures { OnOk result (out.new.items ≡ out.old.items
        ++ (head_text name.now kind.now help.now ++ flat_map (sample_line name.now) samples.now)) }
{
    write_head(name, kind, help, out)?;
    write_samples(name, samples, out)
}

// Appends the lines before the samples of a metric: its type, and the text that says what it counts.
pub(crate) fn write_head<A: Allocator + Copy>(
    name: &[u8],
    kind: &[u8],
    help: &[u8],
    out: &mut Vec<u8, A>,
) -> Result<(), Memory>
    ensures { OnOk result (out.new.items ≡ out.old.items ++ head_text name.now kind.now help.now) }
{
    write_about(b"# TYPE ", name, kind, out)?;
    write_about(b"# HELP ", name, help, out)
}

// Appends a line about a metric.
#[tactic(auto, unfolding(crate::specs::Samples::about_text))]
fn write_about<A: Allocator + Copy>(
    what: &[u8],
    name: &[u8],
    text: &[u8],
    out: &mut Vec<u8, A>,
) -> Result<(), Memory>
    ensures { OnOk result (out.new.items ≡ out.old.items ++ about_text what.now name.now text.now) }
{
    write_octets(what, out)?;
    write_octets(name, out)?;
    write_octets(b" ", out)?;
    write_octets(text, out)?;
    write_octets(b"\n", out)
}

// Appends the line with the unit of a metric, seconds.
pub(crate) fn write_unit<A: Allocator + Copy>(
    name: &[u8],
    out: &mut Vec<u8, A>,
) -> Result<(), Memory>
    ensures { OnOk result (out.new.items ≡ out.old.items ++ unit_text name.now) }
{
    write_about(b"# UNIT ", name, b"seconds", out)
}

// Appends a line for each sample of the metric.
pub(crate) fn write_samples<A: Allocator + Copy>(
    name: &[u8],
    samples: &[Sample],
    out: &mut Vec<u8, A>,
) -> Result<(), Memory>
    ensures { OnOk result (out.new.items ≡ out.old.items ++ flat_map (sample_line name.now) samples.now) }
{
    for sample in samples {
        write_sample(name, *sample, out)?;
    }
    Ok(())
}

#[tactic(auto, unfolding(crate::specs::Samples::line_text))]
fn write_sample<A: Allocator + Copy>(
    name: &[u8],
    sample: Sample,
    out: &mut Vec<u8, A>,
) -> Result<(), Memory>
    ensures { OnOk result (out.new.items ≡ out.old.items ++ sample_line name.now sample) }
{
    write_octets(name, out)?;
    write_octets(sample.0, out)?;
    write_octets(b" ", out)?;
    write_number(sample.1, out)?;
    write_octets(b"\n", out)
}

// Appends the line with the sum of a metric, milliseconds as seconds.
#[tactic(auto, unfolding(crate::specs::Samples::sum_text))]
pub(crate) fn write_sum<A: Allocator + Copy>(
    name: &[u8],
    millis: u64,
    out: &mut Vec<u8, A>,
) -> Result<(), Memory>
    ensures { OnOk result (out.new.items ≡ out.old.items ++ sum_text name.now millis) }
{
    write_octets(name, out)?;
    write_octets(b"_sum ", out)?;
    write_seconds(millis, out)?;
    write_octets(b"\n", out)
}

#[tactic(auto, unfolding(crate::specs::Samples::seconds_text))]
fn write_seconds<A: Allocator + Copy>(millis: u64, out: &mut Vec<u8, A>) -> Result<(), Memory>
    ensures { OnOk result (out.new.items ≡ out.old.items ++ seconds_text millis) }
{
    write_number(millis / 1_000, out)?;
    write_octets(b".", out)?;
    write_number(millis / 100 % 10, out)?;
    write_number(millis / 10 % 10, out)?;
    write_number(millis % 10, out)
}

// Appends octets as they are.
pub(crate) fn write_octets<A: Allocator>(octets: &[u8], out: &mut Vec<u8, A>) -> Result<(), Memory>
    ensures { OnOk result (out.new.items ≡ out.old.items ++ octets.now) }
{
    out.extend_from_slice(octets)?;
    Ok(())
}
