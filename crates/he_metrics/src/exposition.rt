// The counts as OpenMetrics text.
ghost use Rattle.std.specs.Prelude.{◌≡◌, ◌++◌, OnOk};
ghost use Rattle.he_metrics.specs.Exposition.{begun_text, buckets_text, connect_text, ends_text, histogram_text, lines_lost_text, lookups_text, lost_text, metrics_text, names_text, of_races_text, of_sessions_text, open_text, races_text, records_text, refused_text, waiting_text};

use crate::counts::Counts;
use crate::histogram::Histogram;
use crate::metrics::Now;
use crate::samples::{
    Sample, write_head, write_metric, write_octets, write_samples, write_sum, write_unit,
};
use crate::tables::{Ends, Lookups, Losses, Refusals, Wins};
use he_addr::Memory;
use std::alloc::Allocator;

impl Counts {
    /// Appends the counts as OpenMetrics text, with times in seconds, to its end.
    ///
    /// # Errors
    ///
    /// `Memory` if an allocation fails; part of the text may have been appended.
    pub fn write<A: Allocator + Copy>(&self, now: Now, out: &mut Vec<u8, A>) -> Result<(), Memory>
        ensures { OnOk result (out.new.items ≡ out.old.items ++ metrics_text self.now now) }
    {
        self.write_sessions(now.waiting, out)?;
        self.write_races(out)?;
        write_lookups(self.lookups, out)?;
        write_records(self.recorded, self.not_recorded, out)?;
        write_lines_lost(now.lines_lost, out)?;
        write_octets(b"# EOF\n", out)
    }

    fn write_sessions<A: Allocator + Copy>(
        &self,
        waiting: u64,
        out: &mut Vec<u8, A>,
    ) -> Result<(), Memory>
        ensures { OnOk result (out.new.items ≡ out.old.items ++ of_sessions_text self.now waiting) }
    {
        write_begun(self.begun, out)?;
        write_ends(self.ends, out)?;
        write_open(self.open(), out)?;
        write_waiting(waiting, out)?;
        write_refused(self.refused, out)
    }

    fn write_races<A: Allocator + Copy>(&self, out: &mut Vec<u8, A>) -> Result<(), Memory>
        ensures { OnOk result (out.new.items ≡ out.old.items ++ of_races_text self.now) }
    {
        write_results(self.wins, self.losses, out)?;
        write_connect(self.connect, out)?;
        write_names(self.names, out)?;
        write_lost(self.lost, out)
    }
}

fn write_begun<A: Allocator + Copy>(begun: u64, out: &mut Vec<u8, A>) -> Result<(), Memory>
    ensures { OnOk result (out.new.items ≡ out.old.items ++ begun_text begun) }
{
    let name = b"he_sessions";
    let help = b"Sessions that began.";
    write_metric(name, b"counter", help, &[Sample(b"_total", begun)], out)
}

fn write_ends<A: Allocator + Copy>(ends: Ends, out: &mut Vec<u8, A>) -> Result<(), Memory>
    ensures { OnOk result (out.new.items ≡ out.old.items ++ ends_text ends) }
{
    let name = b"he_sessions_ended";
    let help = b"Sessions that ended, by how.";
    write_metric(
        name,
        b"counter",
        help,
        &[
            Sample(b"_total{end=\"closed\"}", ends.closed),
            Sample(b"_total{end=\"client_broke\"}", ends.client_broke),
            Sample(b"_total{end=\"server_broke\"}", ends.server_broke),
            Sample(b"_total{end=\"idle\"}", ends.idle),
            Sample(b"_total{end=\"client_left\"}", ends.client_left),
            Sample(b"_total{end=\"displaced\"}", ends.displaced),
            Sample(b"_total{end=\"too_late\"}", ends.too_late),
            Sample(b"_total{end=\"refused\"}", ends.refused),
            Sample(b"_total{end=\"no_response\"}", ends.no_response),
            Sample(b"_total{end=\"page\"}", ends.page),
            Sample(b"_total{end=\"unknown_protocol\"}", ends.unknown_protocol),
            Sample(b"_total{end=\"no_memory\"}", ends.no_memory),
        ],
        out,
    )
}

fn write_open<A: Allocator + Copy>(running: u64, out: &mut Vec<u8, A>) -> Result<(), Memory>
    ensures { OnOk result (out.new.items ≡ out.old.items ++ open_text running) }
{
    let name = b"he_sessions_open";
    let help = b"Sessions that have not ended.";
    write_metric(name, b"gauge", help, &[Sample(b"", running)], out)
}

fn write_waiting<A: Allocator + Copy>(waiting: u64, out: &mut Vec<u8, A>) -> Result<(), Memory>
    ensures { OnOk result (out.new.items ≡ out.old.items ++ waiting_text waiting) }
{
    let name = b"he_sessions_waiting";
    let help = b"Sessions whose client has sent nothing yet.";
    write_metric(name, b"gauge", help, &[Sample(b"", waiting)], out)
}

fn write_refused<A: Allocator + Copy>(refused: Refusals, out: &mut Vec<u8, A>) -> Result<(), Memory>
    ensures { OnOk result (out.new.items ≡ out.old.items ++ refused_text refused) }
{
    let name = b"he_clients_refused";
    let help = b"Clients that were not served, by why.";
    write_metric(
        name,
        b"counter",
        help,
        &[
            Sample(b"_total{why=\"turned_away\"}", refused.turned_away),
            Sample(b"_total{why=\"too_many\"}", refused.too_many),
        ],
        out,
    )
}

fn write_results<A: Allocator + Copy>(
    wins: Wins,
    losses: Losses,
    out: &mut Vec<u8, A>,
) -> Result<(), Memory>
    ensures { OnOk result (out.new.items ≡ out.old.items ++ races_text wins losses) }
{
    let name = b"he_races";
    let help = b"Races by how they ended.";
    write_metric(
        name,
        b"counter",
        help,
        &[
            Sample(b"_total{result=\"connected\",family=\"ipv6\"}", wins.by_v6),
            Sample(b"_total{result=\"connected\",family=\"ipv4\"}", wins.by_v4),
            Sample(b"_total{result=\"client_left\"}", losses.client_left),
            Sample(b"_total{result=\"forbidden\"}", losses.forbidden),
            Sample(b"_total{result=\"all_failed\"}", losses.all_failed),
            Sample(b"_total{result=\"timed_out\"}", losses.timed_out),
            Sample(b"_total{result=\"unreachable\"}", losses.unreachable),
            Sample(b"_total{result=\"no_network\"}", losses.no_network),
            Sample(b"_total{result=\"no_descriptor\"}", losses.no_descriptor),
            Sample(b"_total{result=\"not_a_name\"}", losses.not_a_name),
            Sample(b"_total{result=\"no_such_name\"}", losses.no_such_name),
            Sample(b"_total{result=\"no_address\"}", losses.no_address),
            Sample(b"_total{result=\"no_answer\"}", losses.no_answer),
            Sample(b"_total{result=\"dns_refused\"}", losses.dns_refused),
            Sample(b"_total{result=\"dns_failed\"}", losses.dns_failed),
            Sample(b"_total{result=\"proxy_failed\"}", losses.proxy_failed),
        ],
        out,
    )
}

fn write_connect<A: Allocator + Copy>(times: Histogram, out: &mut Vec<u8, A>) -> Result<(), Memory>
    ensures { OnOk result (out.new.items ≡ out.old.items ++ connect_text times) }
{
    let help = b"Time to connect, of the races that connected.";
    write_histogram(b"he_connect_seconds", help, times, out)
}

fn write_names<A: Allocator + Copy>(times: Histogram, out: &mut Vec<u8, A>) -> Result<(), Memory>
    ensures { OnOk result (out.new.items ≡ out.old.items ++ names_text times) }
{
    let help = b"Time until the first attempt, of the races that connected.";
    write_histogram(b"he_names_seconds", help, times, out)
}

fn write_lost<A: Allocator + Copy>(times: Histogram, out: &mut Vec<u8, A>) -> Result<(), Memory>
    ensures { OnOk result (out.new.items ≡ out.old.items ++ lost_text times) }
{
    let help = b"Time lost on the way, of the races that connected.";
    write_histogram(b"he_lost_seconds", help, times, out)
}

fn write_histogram<A: Allocator + Copy>(
    name: &[u8],
    help: &[u8],
    times: Histogram,
    out: &mut Vec<u8, A>,
) -> Result<(), Memory>
    ensures { OnOk result (out.new.items ≡ out.old.items ++ histogram_text name.now help.now times) }
{
    write_head(name, b"histogram", help, out)?;
    write_unit(name, out)?;
    write_buckets(name, times, out)?;
    write_sum(name, times.sum, out)
}

// Appends the buckets with their bounds in seconds, and the number of all times.
fn write_buckets<A: Allocator + Copy>(
    name: &[u8],
    times: Histogram,
    out: &mut Vec<u8, A>,
) -> Result<(), Memory>
    ensures { OnOk result (out.new.items ≡ out.old.items ++ buckets_text name.now times) }
{
    write_samples(
        name,
        &[
            Sample(b"_bucket{le=\"0.005\"}", times.ms_5),
            Sample(b"_bucket{le=\"0.01\"}", times.ms_10),
            Sample(b"_bucket{le=\"0.025\"}", times.ms_25),
            Sample(b"_bucket{le=\"0.05\"}", times.ms_50),
            Sample(b"_bucket{le=\"0.1\"}", times.ms_100),
            Sample(b"_bucket{le=\"0.25\"}", times.ms_250),
            Sample(b"_bucket{le=\"0.5\"}", times.ms_500),
            Sample(b"_bucket{le=\"1.0\"}", times.ms_1000),
            Sample(b"_bucket{le=\"2.5\"}", times.ms_2500),
            Sample(b"_bucket{le=\"5.0\"}", times.ms_5000),
            Sample(b"_bucket{le=\"10.0\"}", times.ms_10000),
            Sample(b"_bucket{le=\"+Inf\"}", times.count),
            Sample(b"_count", times.count),
        ],
        out,
    )
}

fn write_lookups<A: Allocator + Copy>(lookups: Lookups, out: &mut Vec<u8, A>) -> Result<(), Memory>
    ensures { OnOk result (out.new.items ≡ out.old.items ++ lookups_text lookups) }
{
    let name = b"he_lookups";
    let help = b"Look-ups of names, by where the answer came from.";
    write_metric(
        name,
        b"counter",
        help,
        &[
            Sample(b"_total{from=\"asked\"}", lookups.asked),
            Sample(b"_total{from=\"shared\"}", lookups.shared),
            Sample(b"_total{from=\"kept\"}", lookups.kept),
        ],
        out,
    )
}

fn write_records<A: Allocator + Copy>(
    recorded: u64,
    not_recorded: u64,
    out: &mut Vec<u8, A>,
) -> Result<(), Memory>
    ensures { OnOk result (out.new.items ≡ out.old.items ++ records_text recorded not_recorded) }
{
    let name = b"he_records";
    let help = b"Records of races, by whether they could be written.";
    write_metric(
        name,
        b"counter",
        help,
        &[
            Sample(b"_total{result=\"written\"}", recorded),
            Sample(b"_total{result=\"failed\"}", not_recorded),
        ],
        out,
    )
}

fn write_lines_lost<A: Allocator + Copy>(lost: u64, out: &mut Vec<u8, A>) -> Result<(), Memory>
    ensures { OnOk result (out.new.items ≡ out.old.items ++ lines_lost_text lost) }
{
    let name = b"he_log_lines_lost";
    let help = b"Lines of the log that standard error did not take.";
    write_metric(name, b"counter", help, &[Sample(b"_total", lost)], out)
}
