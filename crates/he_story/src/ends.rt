// The word for the end of an attempt, in stories and pictures.

ghost use Rattle.std.specs.Prelude.{◌≡◌};
ghost use Rattle.he_story.specs.Ends.{cut_at, cut_said, end_said};

use he_addr::Ip;
use he_plan::{Line, Mark};
use he_record::Record;
use he_statements::Said;
use std::alloc::Allocator;

/// The word for the end of an attempt: `Said::Won`, `Said::Failed`, or, if the race ended first, `Said::Unknown` at an
/// address that no client tried, `Said::Silent` if the attempt had been under way for `delay` milliseconds, the
/// Connection Attempt Delay (RFC 8305 section 5), and otherwise `Said::Stopped`.
pub fn end_said<A: Allocator>(recorded: &Record<'_, A>, delay: u64, line: Line) -> Said
    ensures { result ≡ end_said recorded.now delay line }
{
    match line.mark {
        Mark::Won(_) => Said::Won,
        Mark::Failed(_) => Said::Failed,
        Mark::Cancelled(tick) => {
            cut_said(recorded, delay, line.ip, tick.saturating_sub(line.tick))
        }
    }
}

// The word for an attempt that was under way for `taken` milliseconds when its race ended.
fn cut_said<A: Allocator>(recorded: &Record<'_, A>, delay: u64, ip: Ip, taken: u64) -> Said
    ensures { result ≡ cut_said recorded.now delay ip taken }
{
    if recorded.is_untried(ip) {
        Said::Unknown
    } else if delay <= taken {
        Said::Silent
    } else {
        Said::Stopped
    }
}

// The word for the attempt of this place, which was under way for `taken` milliseconds when its race ended.
pub(crate) fn cut_at<A: Allocator>(
    recorded: &Record<'_, A>,
    delay: u64,
    lines: &[Line],
    place: usize,
    taken: u64,
) -> Said
    ensures { result ≡ cut_at recorded.now delay lines.now place taken }
{
    match lines.get(place) {
        Some(line) => cut_said(recorded, delay, line.ip, taken),
        None => Said::Stopped,
    }
}
