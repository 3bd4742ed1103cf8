// The growth that the allocator of tests refuses: exactly the nth, of all threads together.

use refusing::{MOST_RUNS, Refusing, each_growth_refused, refused_in_turn};
use std::alloc::AllocError;
use std::thread;

// One growth: whether it is granted.
fn grow(heap: &Refusing) -> bool {
    let grown: Result<Vec<u8, &Refusing>, AllocError> = Vec::with_capacity(heap, 1);
    grown.is_ok()
}

// The third growth alone is refused. None is for an `nth` out of reach, for 0, or before the first call of `refuse`.
#[test]
fn nth(rt: HostRuntime) {
    let heap = Refusing::new(rt.alloc());
    assert!(rt; grow(&heap) && !heap.has_refused());
    heap.refuse(3);
    for growth in 1..6u64 {
        assert!(rt; grow(&heap) == (growth != 3) && heap.has_refused() == (growth >= 3));
    }
    for far in [0, u64::MAX] {
        heap.refuse(far);
        assert!(rt; grow(&heap) && !heap.has_refused());
    }
}

// The number of runs that were refused a growth, and of all runs, for code that grows `growths` times in its first
// run, and `more` times more in each later one.
fn refused_runs(heap: &Refusing, growths: u64, more: u64) -> (u64, u64) {
    let mut runs = 0u64;
    let mut next = growths;
    let refused = each_growth_refused(heap, || {
        runs = runs.saturating_add(1);
        for _ in 0..next {
            grow(heap);
        }
        next = next.saturating_add(more);
    });
    (refused, runs)
}

// Code that grows twice is refused twice, code that never grows is never refused, and code without a last growth gets
// 0 at the bound. Each time the heap refuses nothing afterwards.
#[test]
fn each_growth(rt: HostRuntime) {
    let heap = Refusing::new(rt.alloc());
    for (growths, more, wanted) in [(2, 0, (2, 3)), (0, 0, (0, 1)), (1, 1, (0, MOST_RUNS))] {
        assert!(rt; refused_runs(&heap, growths, more) == wanted);
        assert!(rt; grow(&heap) && !heap.has_refused());
    }
}

// Grows this number of times, up to the growth that is refused; returns `told` if none was refused.
fn grow_in_turn(heap: &Refusing, growths: u64, told: Option<bool>) -> Option<bool> {
    for _ in 0..growths {
        if !grow(heap) {
            return None;
        }
    }
    told
}

// Counts the growths of right results. Returns None for a wrong result, and for one that reports refused memory if
// none was refused.
#[test]
fn in_turn(rt: HostRuntime) {
    let heap = Refusing::new(rt.alloc());
    for (growths, told, wanted) in [
        (2, Some(true), Some(2)),
        (0, Some(true), Some(0)),
        (2, Some(false), None),
        (2, None, None),
        (MOST_RUNS, Some(true), None),
    ] {
        let refused = refused_in_turn(&heap, || grow_in_turn(&heap, growths, told));
        assert!(rt; refused == wanted, "{growths}");
        assert!(rt; grow(&heap) && !heap.has_refused());
    }
}

// Two threads grow over one heap: of their two growths one is refused, and of more none.
#[test]
fn threads(rt: HostRuntime) {
    let heap = Refusing::new(rt.alloc());
    let shared = &heap;
    for nth in 1..4u64 {
        heap.refuse(nth);
        let (first, second) = thread::join(&rt, move || grow(shared), move || grow(shared));
        let is_refused = nth < 3;
        assert!(rt;
            (first || second) && (first && second) != is_refused,
            "at {nth}"
        );
        assert!(rt; heap.has_refused() == is_refused, "at {nth}");
    }
}
