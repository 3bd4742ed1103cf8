// A worked example of a board's calls, and boards of no job, of the most jobs, and of more.

use he_board::{Board, BoardFault, NO_OFFER};
use refusing::{MOST_RUNS, Refusing};

// The second pass must see the offer of the first one. No clause of `least` requires this: an answer from the pass's
// own notes alone would meet them.
#[test]
fn board_walk(rt: HostRuntime) {
    let Ok((board, pass)) = Board::new(rt.alloc(), 3, 1) else {
        assert!(rt; false, "memory is granted");
        return;
    };
    let (mut p, mut q) = board.fork(pass);
    let parts = (p.parts(), q.parts());
    let before = board.offer(&mut p, 0, 320, 1);
    let seen = board.least(&mut q, 0);
    let found = board.offer(&mut q, 0, 320, 0);
    let taken = (board.take(&mut p, 2), board.take(&mut q, 2));
    let mut pass = board.rejoin(p, q);
    let least = board.least(&mut pass, 0);
    let winner = board.winner(&mut pass, 0);
    assert!(rt; parts == (524_288, 524_288) && pass.parts() == 1_048_576);
    assert!(rt; (before, seen, found, least) == (NO_OFFER, 163_841, 163_841, 163_840));
    assert!(rt; taken == (true, false) && winner == Some((320, 0)));
}

#[test]
fn sizes(rt: HostRuntime) {
    let alloc = rt.alloc();
    let jobs = Board::new(alloc, 2_097_153, 0).err();
    let races = Board::new(alloc, 0, 4_097).err();
    assert!(rt; jobs == Some(BoardFault::Size) && races == Some(BoardFault::Size));
    assert!(rt; Board::new(alloc, 0, 0).is_ok());
    let Ok((board, mut pass)) = Board::new(alloc, 2_097_152, 4_096) else {
        assert!(rt; false, "memory is granted");
        return;
    };
    assert!(rt; board.take(&mut pass, 2_097_151) && board.winner(&mut pass, 4_095).is_none());
}

// A board whose growth is refused is not made, for want of memory.
#[test]
fn refused_growths(rt: HostRuntime) {
    let heap = Refusing::new(rt.alloc());
    for nth in 1..=MOST_RUNS {
        heap.refuse(nth);
        let fault = Board::new(&heap, 3, 1).err();
        if !heap.has_refused() {
            // At least the list of the first words, and the table, were refused before.
            assert!(rt; nth > 2 && fault.is_none());
            return;
        }
        assert!(rt; fault == Some(BoardFault::Memory));
    }
    assert!(rt; false, "a growth is refused each time");
}
