// Accesses: addresses, widths, and how often each word of the plane is asked for.
use crate::given::frame;
use crate::tally::Tally;
use board::Board;
use drawing::lift;
use planes::Refusal;
use planes::flat::Flat;
use registers::{Access, Axis, Choice, Pair};

// An access of pair 0.
fn address(axis: Axis, place: u16, choice: Choice, update: bool) -> u32 {
    let access = Access {
        place,
        axis,
        pair: Pair::Zero,
        choice,
        update,
    };
    access.address(registers::Unit::new(0))
}

#[test]
fn addresses_are_refused(rt: HostRuntime) {
    let mut bytes = [0u8; 128];
    let mut board = Board::new(Flat::new(&mut bytes), 9);
    assert_eq!(rt; board.poke(0x2_0000, 0), Ok(()));
    assert_eq!(rt; board.poke(0x10_0000, 0), Err(Refusal::BadAddress));
    assert_eq!(rt; board.poke(0x2_0001, 0), Err(Refusal::BadAddress));
    assert_eq!(rt; board.poke(u32::MAX, 0), Err(Refusal::BadAddress));
    assert_eq!(rt; board.poke(0xF_FFFE, 0), Err(Refusal::OtherUnit));
    assert_eq!(rt; board.peek(0), Err(Refusal::OtherUnit));
    assert_eq!(rt; board.peek(0x10_0000), Err(Refusal::BadAddress));
}

#[test]
fn an_address_by_its_parts(rt: HostRuntime) {
    let access = Access {
        place: 300,
        axis: Axis::Down,
        pair: Pair::Zero,
        choice: Choice::Source,
        update: true,
    };
    assert_eq!(rt; Access::of(0x1_8A58), access);
    assert_eq!(rt; access.address(registers::Unit::new(8)), 0x1_8A58);
}

#[test]
fn widths_by_their_codes(rt: HostRuntime) {
    let mut bytes = [0u8; 128];
    let mut board = Board::new(Flat::new(&mut bytes), 0);
    assert_eq!(rt; board.registers().width.stitches(), 16);
    let width = address(Axis::Across, 1, Choice::Control, false);
    assert_eq!(rt; board.poke(width, 17), Ok(()));
    assert_eq!(rt; board.registers().width.stitches(), 1);
    assert_eq!(rt; board.poke(width, 0), Ok(()));
    assert_eq!(rt; board.registers().width.stitches(), 16);
}

#[test]
fn reads_stay_one_behind(rt: HostRuntime) {
    let mut bytes = [0xF0u8; 128];
    let mut board = Board::new(Flat::new(&mut bytes), 0);
    let source = address(Axis::Across, 0, Choice::Source, false);
    assert_eq!(rt; board.peek(source), Ok(0));
    assert_eq!(rt; board.peek(source), Ok(0xF0F0));
    let from_two = address(Axis::Across, 2, Choice::Source, false);
    assert_eq!(rt; board.peek(from_two), Ok(0xF0F0));
    let from_five = address(Axis::Across, 5, Choice::Source, false);
    assert_eq!(rt; board.peek(from_five), Ok(0xC3C3));
    let mask = address(Axis::Across, 5, Choice::Mask, false);
    assert_eq!(rt; board.peek(mask), Ok(0x1E1E));
    assert_eq!(rt; board.registers().mask, 0xF0F0);
}

#[test]
fn a_code_may_keep_the_stitch(rt: HostRuntime) {
    let mut bytes = [0x6Cu8; 128];
    let mut board = Board::new(Flat::new(&mut bytes), 0);
    let function = address(Axis::Across, 0, Choice::Control, false);
    assert_eq!(rt; board.poke(function, 0xEE), Ok(()));
    let update = address(Axis::Across, 5, Choice::Nothing, true);
    assert_eq!(rt; board.poke(update, 0), Ok(()));
    let source = address(Axis::Across, 0, Choice::Source, false);
    assert_eq!(rt; board.peek(source), Ok(0));
    assert_eq!(rt; board.peek(source), Ok(0x6C6C));
}

#[test]
fn flag_and_interrupt(rt: HostRuntime) {
    let mut bytes = [0u8; 128];
    let mut board = Board::new(Flat::new(&mut bytes), 0);
    board.retrace();
    assert_eq!(rt; board.interrupt(), None);
    assert_eq!(rt;
        board.poke(address(Axis::Across, 2, Choice::Control, false), 0xA1FF),
        Ok(())
    );
    assert_eq!(rt; board.interrupt(), None);
    board.retrace();
    assert_eq!(rt; board.interrupt(), Some(5));
    assert_eq!(rt;
        board.peek(address(Axis::Across, 3, Choice::Control, false)),
        Ok(0)
    );
    assert_eq!(rt; board.interrupt(), None);
    board.retrace();
    board.init();
    assert_eq!(rt; board.interrupt(), None);
    assert_eq!(rt; board.registers().status, 0);
}

#[test]
fn each_word_is_asked_for_once(rt: HostRuntime) {
    let mut bytes = [0u8; 256];
    let mut board = Board::new(Tally::new(Flat::new(&mut bytes)), 0);
    assert_eq!(rt;
        board.poke(address(Axis::Across, 0, Choice::Control, false), 0xFF),
        Ok(())
    );
    // one word, then two, then the last word alone, then a course off the plane
    assert_eq!(rt;
        board.poke(address(Axis::Across, 16, Choice::Nothing, true), 0),
        Ok(())
    );
    assert_eq!(rt;
        board.poke(address(Axis::Across, 40, Choice::Nothing, true), 0),
        Ok(())
    );
    assert_eq!(rt;
        board.poke(address(Axis::Across, 1020, Choice::Nothing, true), 0),
        Ok(())
    );
    assert_eq!(rt;
        board.poke(address(Axis::Down, 2, Choice::Nothing, true), 0),
        Ok(())
    );
    // reads: two words, the last word alone, and a course off the plane
    assert_eq!(rt;
        board.peek(address(Axis::Down, 2, Choice::Source, false)),
        Ok(0)
    );
    assert_eq!(rt;
        board.peek(address(Axis::Down, 1, Choice::Nothing, false)),
        Ok(0)
    );
    assert_eq!(rt;
        board.peek(address(Axis::Across, 40, Choice::Source, false)),
        Ok(0)
    );
    assert_eq!(rt;
        board.peek(address(Axis::Across, 1020, Choice::Mask, false)),
        Ok(0)
    );
    assert_eq!(rt;
        board.peek(address(Axis::Across, 16, Choice::Source, false)),
        Ok(0)
    );
    let tally = board.into_plane();
    assert_eq!(rt; tally.reads(), 4 + 4);
    assert_eq!(rt; tally.writes(), 4);
}

#[test]
fn a_lift_has_one_read_more(rt: HostRuntime) {
    let mut bytes = [0u8; 512];
    let mut board = Board::new(Tally::new(Flat::new(&mut bytes)), 0);
    let mut buffer = [0u8; 12];
    // two strips of three courses, and the course below for the last answer of each
    assert_eq!(rt; lift(&mut board, frame(16, 0, 32, 3), &mut buffer), Ok(()));
    let tally = board.into_plane();
    assert_eq!(rt; tally.reads(), 2 * (3 + 1));
    assert_eq!(rt; tally.writes(), 0);
}
