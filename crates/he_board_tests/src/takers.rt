// Two threads that share a board: each job is taken once, and the winner is the least key that was offered.
ghost use Rattle.std.specs.Prelude.{◌≡◌, ◌<◌, ◌≤◌};
ghost use Rattle.he_board.specs.Passes.{IsPassOf, jobs_of, races_of};

use he_board::{Board, PARTS, Pass};
use std::thread;

// Tries each of 1,000 jobs, and offers 500 keys at the worker's place.
fn work(board: &Board, mut pass: Pass, worker: usize) -> (Pass, [bool; 1_000])
    requires own { IsPassOf board.now pass }
    requires layout { (1000 ≤ jobs_of board.now) × (1 ≤ races_of board.now) }
    requires worker { worker < 2 }
    ensures { IsPassOf board.entry.now result.0 }
{
    let mut taken = [false; 1_000];
    for job in 0..1_000 {
        taken[job] = board.take(&mut pass, job);
    }
    for step in 0..500 {
        board.offer(&mut pass, 0, 1_500 - step - worker as u64, worker);
    }
    (pass, taken)
}

#[test]
fn two_takers(rt: HostRuntime) {
    let Ok((board, pass)) = Board::new(rt.alloc(), 1_000, 1) else {
        assert!(rt; false, "memory is granted");
        return;
    };
    let (p, q) = board.fork(pass);
    let shared = &board;
    let (left, right) = thread::join(&rt, move || work(shared, p, 0), move || work(shared, q, 1));
    let (p, here) = left;
    let (q, there) = right;
    for job in 0..1_000 {
        assert!(rt; here[job] != there[job], "job {job}");
    }
    let mut pass = board.rejoin(p, q);
    assert!(rt; pass.parts() == PARTS && board.winner(&mut pass, 0) == Some((1_000, 1)));
}
