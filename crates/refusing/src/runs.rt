// Each growth of a piece of code refused in turn.
ghost use Rattle.std.specs.Prelude.{◌<◌, IfSome};
ghost use Rattle.refusing.specs.Runs.{RanMoreThan, RanWell};

use crate::heap::Refusing;
use std::alloc::Allocator;

/// The most runs that `each_growth_refused` and `refused_in_turn` make.
pub const MOST_RUNS: u64 = 1_000;

/// Calls `run` with its first growth on `heap` refused, then with its second, and so on up to a call that is granted
/// all. Returns the number of calls that were refused one, or 0 if `MOST_RUNS` calls were: so a test asserts that it
/// is above 0. Afterwards `heap` refuses nothing.
pub fn each_growth_refused<B: Allocator, F: FnMut()>(heap: &Refusing<B>, mut run: F) -> u64
    requires { F.IsAlwaysCallable run }
    ensures few { result < MOST_RUNS }
    ensures ran { RanMoreThan (λ state next. F.step state tt next) result run }
{
    for refused in 0..MOST_RUNS {
        heap.refuse(refused + 1);
        run();
        let is_granted_all = !heap.has_refused();
        heap.refuse(0);
        if is_granted_all {
            return refused;
        }
    }
    0
}

/// Calls `make` in this way; `make` returns whether its result is right, or `None` if memory was refused. Returns the
/// number of calls that were refused a growth, up to the first that is granted all. `None` if a result was wrong, if
/// `make` returned `None` though all was granted, or if `MOST_RUNS` calls were refused one. Afterwards `heap` refuses
/// nothing.
pub fn refused_in_turn<B: Allocator, F: FnMut() -> Option<bool>>(
    heap: &Refusing<B>,
    mut make: F,
) -> Option<u64>
    requires { F.IsAlwaysCallable make }
    ensures few { IfSome result (λ refused. refused < MOST_RUNS) }
    ensures ran { IfSome result (λ refused. RanMoreThan (RanWell F.step) refused make) }
{
    for refused in 0..MOST_RUNS {
        heap.refuse(refused + 1);
        let answer = make();
        let has_refused = heap.has_refused();
        heap.refuse(0);
        if !answer.unwrap_or(has_refused) {
            return None;
        }
        if !has_refused {
            return Some(refused);
        }
    }
    None
}
