// A summary as OpenMetrics text.
ghost use Rattle.std.specs.Prelude.{◌≡◌, ◌++◌, OnOk};
ghost use Rattle.std.specs.List.{flat_map};
ghost use Rattle.he_summary.specs.Metrics.{attempts_metric, connect_metric, delays_metric, metrics_text, quantiles_metric, races_metric, times_metric};

use crate::figures::total_of;
use crate::members::{Member, write_all_seconds, write_members};
use he_addr::Memory;
use he_course::Times;
use he_totals::times::Spread;
use he_totals::totals::{Counts, Totals};
use std::alloc::Allocator;

// Appends the metrics, up to the end.
pub(crate) fn write_metrics<A: Allocator + Copy>(
    totals: Totals,
    text: &mut Vec<u8, A>,
) -> Result<(), Memory>
    ensures { OnOk result (text.new.items ≡ text.old.items ++ metrics_text totals) }
{
    write_races(totals.counts, text)?;
    write_connect(totals, text)?;
    write_times(totals.sums, text)?;
    write_attempts(totals, text)
}

fn write_races<A: Allocator + Copy>(counts: Counts, text: &mut Vec<u8, A>) -> Result<(), Memory>
    ensures { OnOk result (text.new.items ≡ text.old.items ++ races_metric counts) }
{
    text.extend_from_slice(b"# TYPE he_races counter\n# HELP he_races Races by how they ended.\n")?;
    write_members(
        &[
            Member(
                b"he_races_total{result=\"connected\",family=\"ipv6\"} ",
                counts.by_v6,
            ),
            Member(
                b"\nhe_races_total{result=\"connected\",family=\"ipv4\"} ",
                counts.by_v4,
            ),
            Member(b"\nhe_races_total{result=\"timed_out\"} ", counts.timed_out),
            Member(
                b"\nhe_races_total{result=\"all_failed\"} ",
                counts.all_failed,
            ),
            Member(
                b"\nhe_races_total{result=\"no_address\"} ",
                counts.no_address,
            ),
        ],
        text,
    )
}

fn write_connect<A: Allocator + Copy>(totals: Totals, text: &mut Vec<u8, A>) -> Result<(), Memory>
    ensures { OnOk result (text.new.items ≡ text.old.items ++ connect_metric totals) }
{
    text.extend_from_slice(
        b"\n# TYPE he_connect_seconds summary\n# UNIT he_connect_seconds seconds",
    )?;
    text.extend_from_slice(
        b"\n# HELP he_connect_seconds Time to connect, of the races that connected.",
    )?;
    write_quantiles(totals.times, text)?;
    write_all_seconds(
        &[Member(b"\nhe_connect_seconds_sum ", total_of(totals.times))],
        text,
    )?;
    write_members(
        &[Member(b"\nhe_connect_seconds_count ", totals.counts.won)],
        text,
    )
}

fn write_quantiles<A: Allocator + Copy>(
    times: Option<Spread>,
    text: &mut Vec<u8, A>,
) -> Result<(), Memory>
    ensures { OnOk result (text.new.items ≡ text.old.items ++ quantiles_metric times) }
{
    let Some(times) = times else {
        return Ok(());
    };
    write_all_seconds(
        &[
            Member(b"\nhe_connect_seconds{quantile=\"0.5\"} ", times.median),
            Member(b"\nhe_connect_seconds{quantile=\"0.9\"} ", times.p90),
            Member(b"\nhe_connect_seconds{quantile=\"0.99\"} ", times.p99),
            Member(b"\nhe_connect_seconds{quantile=\"1\"} ", times.greatest),
        ],
        text,
    )
}

fn write_times<A: Allocator + Copy>(sums: Times, text: &mut Vec<u8, A>) -> Result<(), Memory>
    ensures { OnOk result (text.new.items ≡ text.old.items ++ times_metric sums) }
{
    text.extend_from_slice(b"\n# TYPE he_time_seconds counter\n# UNIT he_time_seconds seconds")?;
    text.extend_from_slice(b"\n# HELP he_time_seconds Time of all races, by what it went into.")?;
    write_all_seconds(
        &[
            Member(b"\nhe_time_seconds_total{into=\"names\"} ", sums.names),
            Member(b"\nhe_time_seconds_total{into=\"lost\"} ", sums.lost),
            Member(b"\nhe_time_seconds_total{into=\"unknown\"} ", sums.unknown),
            Member(b"\nhe_time_seconds_total{into=\"machine\"} ", sums.machine),
            Member(
                b"\nhe_time_seconds_total{into=\"connecting\"} ",
                sums.connecting,
            ),
        ],
        text,
    )
}

fn write_attempts<A: Allocator + Copy>(totals: Totals, text: &mut Vec<u8, A>) -> Result<(), Memory>
    ensures { OnOk result (text.new.items ≡ text.old.items ++ attempts_metric totals) }
{
    text.extend_from_slice(
        b"\n# TYPE he_attempts counter\n# HELP he_attempts Connection attempts.",
    )?;
    write_members(
        &[Member(b"\nhe_attempts_total ", total_of(totals.attempts))],
        text,
    )?;
    write_delays(totals.counts.waited, text)
}

fn write_delays<A: Allocator + Copy>(waited: u64, text: &mut Vec<u8, A>) -> Result<(), Memory>
    ensures { OnOk result (text.new.items ≡ text.old.items ++ delays_metric waited) }
{
    text.extend_from_slice(b"\n# TYPE he_resolution_delays counter")?;
    text.extend_from_slice(
        b"\n# HELP he_resolution_delays Races whose IPv4 attempt started without the AAAA answer.",
    )?;
    write_members(&[Member(b"\nhe_resolution_delays_total ", waited)], text)?;
    text.extend_from_slice(b"\n")?;
    Ok(())
}
