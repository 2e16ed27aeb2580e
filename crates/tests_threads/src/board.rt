//! Seats that share a board: stepped in one thread, and each in a thread of its own.
ghost use Rattle.std.specs.Prelude.{◌≡◌, ◌<◌, true};
ghost use Rattle.round_words.specs.Seats.{view_of, IsSeatOf};
ghost use Rattle.round_words.specs.Shown.{HoldsCore};
ghost use Rattle.round_words.specs.Views.{controller, holds, new_part, part};

use round_words::{RoundBoard, RoundSeat, decision_words};
use std::test::Fail;
use std::thread::{Threads, join};
use tab_core::CoreNo;

// The second core has seen an event that the first had not, and takes the count of the first all the same. A
// load shows what another seat stored last.
#[test]
fn second_core_takes_the_count_of_the_first(rt: HostRuntime) -> Result<(), Fail> {
    let (board, mut seat) = RoundBoard::make(rt.alloc())?;
    assert!(rt; !seat.holds(0) && !seat.holds(32));
    board.start(&mut seat, 102_600, 2, 1);
    assert!(rt; seat.holds(0) && seat.holds(1) && !seat.holds(2) && seat.holds(32));
    let mut other = board.part(&mut seat, 2);
    assert!(rt; seat.holds(0) && !seat.holds(1) && seat.holds(32));
    assert!(rt; !other.holds(0) && other.holds(1) && !other.holds(32));
    assert_eq!(rt; board.see(&mut seat, CoreNo(0)), 0);
    assert_eq!(rt; board.decide(&mut seat, CoreNo(0)), 0);
    assert_eq!(rt; board.see(&mut other, CoreNo(1)), 0);
    board.post(&mut seat, 0);
    assert_eq!(rt; board.see(&mut other, CoreNo(1)), 1);
    assert_eq!(rt; board.decide(&mut other, CoreNo(1)), 0);
    assert_eq!(rt; board.clock_of(&mut other, 1, CoreNo(0)), 0);
    board.advance(&mut seat, CoreNo(0), 51_300, None);
    assert_eq!(rt; board.clock_of(&mut other, 1, CoreNo(0)), 51_300);
    board.meet(&mut seat, other);
    assert!(rt; seat.holds(0) && seat.holds(1) && seat.holds(32));
    Ok(())
}

// The words of a core that enters rounds 0 and 4, where it used no event: 65536 is the word of round 0 with
// count 0, and 327680 that of round 4.
#[test]
fn words_of_rounds_of_one_remainder(rt: HostRuntime) -> Result<(), Fail> {
    for (round, used, seen, expected, put) in [
        (0, 0, 0, 0, 65_536),
        (3, 7, 2, 0, 262_146),
        (4, 0, 0, 65_536, 327_680),
        (9_999, 65_535, 65_535, 655_163_391, 655_425_535),
    ] {
        let words = decision_words(round, used, seen);
        assert_eq!(rt; words.expected, expected, "round {round}");
        assert_eq!(rt; words.put, put, "round {round}");
    }
    Ok(())
}

// A core that has done nothing yet enters round 0. The answer is the round's count.
fn enter(board: &RoundBoard, mut seat: RoundSeat, core: u32) -> (RoundSeat, u32)
    requires board { IsSeatOf board.now seat }
    requires started { (view_of seat).started ≡ true }
    requires core { HoldsCore (view_of seat) core × (part (view_of seat) core ≡ new_part) }
    ensures board { IsSeatOf board.now result.0 }
{
    board.see(&mut seat, CoreNo(core));
    let used = board.decide(&mut seat, CoreNo(core));
    (seat, used)
}

// The controller posts an event, and core 0 enters round 0.
fn post_and_enter(board: &RoundBoard, mut seat: RoundSeat) -> (RoundSeat, u32)
    requires board { IsSeatOf board.now seat }
    requires started { (view_of seat).started ≡ true }
    requires core { HoldsCore (view_of seat) 0 × (part (view_of seat) 0 ≡ new_part) }
    requires controller { (holds (view_of seat) controller ≡ true)
        × (part (view_of seat) controller ≡ new_part) × (0 < (view_of seat).events) }
    ensures board { IsSeatOf board.now result.0 }
{
    board.post(&mut seat, 0);
    enter(board, seat, 0)
}

// Two cores enter round 0, each in a thread of its own, while an event is posted.
fn enter_both<R: Threads>(rt: &R, board: &RoundBoard, mut seat: RoundSeat) -> (RoundSeat, u32, u32)
    requires board { IsSeatOf board.now seat }
    requires started { (view_of seat).started ≡ true }
    requires first { HoldsCore (view_of seat) 0 × (part (view_of seat) 0 ≡ new_part) }
    requires second { HoldsCore (view_of seat) 1 × (part (view_of seat) 1 ≡ new_part) }
    requires controller { (holds (view_of seat) controller ≡ true)
        × (part (view_of seat) controller ≡ new_part) × (0 < (view_of seat).events) }
    ensures board { IsSeatOf board.now result.0 }
{
    let other = board.part(&mut seat, 2);
    let ((mut seat, first), (other, second)) = join(
        rt,
        move || -> (RoundSeat, u32)
            requires { IsSeatOf board.now seat × ((view_of seat).started ≡ true)
                × HoldsCore (view_of seat) 0 × (part (view_of seat) 0 ≡ new_part)
                × (holds (view_of seat) controller ≡ true) × (part (view_of seat) controller ≡ new_part)
                × (0 < (view_of seat).events) }
            ensures { IsSeatOf board.entry.now result.0 }
        { post_and_enter(board, seat) },
        move || -> (RoundSeat, u32)
            requires { IsSeatOf board.now other × ((view_of other).started ≡ true)
                × HoldsCore (view_of other) 1 × (part (view_of other) 1 ≡ new_part) }
            ensures { IsSeatOf board.entry.now result.0 }
        { enter(board, other, 1) },
    );
    board.meet(&mut seat, other);
    (seat, first, second)
}

#[test]
fn two_threads_enter_a_round_with_one_count(rt: HostRuntime) -> Result<(), Fail> {
    for _ in 0..20 {
        let (board, mut seat) = RoundBoard::make(rt.alloc())?;
        board.start(&mut seat, 102_600, 2, 1);
        let (seat, first, second) = enter_both(&rt, &board, seat);
        assert_eq!(rt; first, second);
        assert!(rt; seat.holds(0) && seat.holds(1) && seat.holds(32));
    }
    Ok(())
}
