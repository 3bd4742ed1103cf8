// The ranges that the parts of a timeline have by their types, all at once.

ghost use Rattle.std.specs.Prelude.{◌≡◌, ℕ};
ghost use Rattle.std.specs.List.{All};
ghost use Rattle.he_addr.specs.Ip.{InRange};
ghost use Rattle.he_addr.specs.declared.ip.Ip.{Ip};
ghost use Rattle.he_timeline.specs.Race.{reply_of, addresses_of};
ghost use Rattle.he_text.specs.InRange.{RowInRange, SourceInRange, RouteInRange, RaceInRange};

use he_addr::{Family, Ip};
use he_select::{Route, Row, Source};
use he_timeline::Timeline;
use std::alloc::Allocator;

fn row_range(row: Row)
    ensures { RowInRange row }
{}

fn rows_range(rows: &[Row])
    ensures { All RowInRange rows.now }
{
    for row in rows {
        row_range(*row);
    }
}

fn ip_range(ip: Ip)
    ensures { InRange ip }
{
    let _usable = ip.is_usable();
}

fn ips_range(ips: &[Ip])
    ensures { All InRange ips.now }
{
    for ip in ips {
        ip_range(*ip);
    }
}

fn source_range(source: Source)
    ensures { SourceInRange source }
{
    ip_range(source.ip);
}

fn sources_range(sources: &[Source])
    ensures { All SourceInRange sources.now }
{
    for source in sources {
        source_range(*source);
    }
}

fn route_range(route: Route)
    ensures { RouteInRange route }
{}

fn routes_range(routes: &[Route])
    ensures { All RouteInRange routes.now }
{
    for route in routes {
        route_range(*route);
    }
}

fn answer_range<A: Allocator + Copy>(timeline: &Timeline<A>, family: Family)
    ensures { All InRange (addresses_of (reply_of timeline.now family)) }
{
    if let Some((_, ips)) = timeline.answer(family) {
        ips_range(ips);
    }
}

fn rtts_range(rtts: &[(Ip, u64)])
    ensures { All (λ (told : Ip × ℕ). InRange told.0) rtts.now }
{
    for told in rtts {
        ip_range(told.0);
    }
}

// The prefixes, addresses and 16-bit numbers of a timeline are in their ranges.
pub(crate) fn timeline_range<A: Allocator + Copy>(timeline: &Timeline<A>)
    ensures { RaceInRange timeline.now }
{
    rows_range(timeline.policy().rows().as_slice());
    sources_range(timeline.host().sources());
    routes_range(timeline.host().routes());
    answer_range(timeline, Family::V6);
    answer_range(timeline, Family::V4);
    rtts_range(timeline.rtts());
    ips_range(timeline.used_addresses());
}
