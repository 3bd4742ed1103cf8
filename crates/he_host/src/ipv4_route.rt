// The IPv4 routes of the main table, by the lines of /proc/net/route.

ghost use Rattle.std.specs.Prelude.{◌≡◌};
ghost use Rattle.he_host.specs.Ipv4Route.{v4_route, masked};

use crate::found::Metered;
use he_addr::prefix::{MAPPED_LEN, V4_BITS};
use he_addr::{Ip, Prefix, common_len};
use he_kernel::ipv4_line::V4Line;
use he_kernel::link::Link;
use he_kernel::why::Why;
use he_select::Route;

/// The prefix of an IPv4 network and its mask; None if a bit is set after the mask, or the mask has a gap.
#[tactic(auto, unfolding(crate::specs::Ipv4Route::masked))]
pub fn read_mask(number: u32, mask: u32) -> Option<Prefix>
    ensures { result ≡ masked number mask }
{
    let len = MAPPED_LEN + common_len(Ip::V4(mask), V4_BITS, Ip::V4(u32::MAX));
    Prefix::try_new(Ip::V4(mask).mapped(), len)?;
    Prefix::try_new(Ip::V4(number).mapped(), len)
}

/// The route of a line, by the link of its interface, or why there is none.
///
/// # Errors
///
/// [`Why::Unclear`], [`Why::Unreachable`], [`Why::Down`], in this order.
#[tactic(auto, unfolding(crate::specs::Ipv4Route::v4_route))]
pub fn make_v4_route(read: V4Line, link: Option<Link>) -> Result<Metered, Why>
    ensures { result ≡ v4_route read link }
{
    let Some(prefix) = read_mask(read.destination, read.mask) else {
        return Err(Why::Unclear);
    };
    if read.nowhere {
        return Err(Why::Unreachable);
    }
    match link {
        Some(link) => Ok(Metered {
            route: Route {
                prefix,
                interface: link.number,
                tunnel: link.tunnel,
            },
            metric: read.metric,
            connected: read.gateway == 0,
            carrier: link.carrier,
        }),
        None => Err(Why::Down),
    }
}
