// What is read: words, lifted rectangles and scanned courses.
use crate::given::{frame, place};
use board::Board;
use client::{word_at, words_at};
use drawing::lift;
use planes::flat::Flat;
use planes::{Course, Refusal};
use std::test::Fail;

#[test]
fn words_ahead_at_every_alignment(rt: HostRuntime) {
    let mut bytes = [0xF0u8; 128];
    let mut board = Board::new(Flat::new(&mut bytes), 0);
    assert_eq!(rt; word_at(&mut board, place(0, 0)), Ok(0xF0F0));
    assert_eq!(rt; word_at(&mut board, place(2, 0)), Ok(0xC3C3));
    assert_eq!(rt; word_at(&mut board, place(5, 0)), Ok(0x1E1E));
    assert_eq!(rt; word_at(&mut board, place(1016, 0)), Ok(0xF000));
    assert_eq!(rt; word_at(&mut board, place(1023, 0)), Ok(0));
    assert_eq!(rt; word_at(&mut board, place(1024, 0)), Err(Refusal::OffChart));
    assert_eq!(rt; word_at(&mut board, place(0, 1)), Err(Refusal::OffChart));
    assert_eq!(rt; board.registers().source, 0);
}

#[test]
fn each_slip_on_the_other_board(rt: HostRuntime) {
    let mut one = [0xF0u8; 256];
    let mut two = [0x3Cu8; 128];
    let mut first = Board::new(Flat::new(&mut one), 0);
    let mut second = Board::new(Flat::new(&mut two), 1);
    assert_eq!(rt;
        words_at(&mut first, &mut second, place(0, 0)),
        Ok((0xF0F0, 0x3C3C))
    );
    // a course that only the first has
    assert_eq!(rt;
        words_at(&mut first, &mut second, place(0, 1)),
        Err(Refusal::OffChart)
    );
    assert!(rt; first.ready().is_ok());
    assert!(rt; second.ready().is_ok());
}

#[test]
fn a_lift_at_the_right_edge(rt: HostRuntime) {
    let mut bytes = [0xF0u8; 256];
    let mut board = Board::new(Flat::new(&mut bytes), 0);
    let mut buffer = [0xAAu8; 10];
    assert_eq!(rt;
        lift(&mut board, frame(1003, 0, 21, 2), &mut buffer),
        Ok(())
    );
    for row in 0..2usize {
        assert_eq!(rt; buffer[4 * row], 0x87);
        assert_eq!(rt; buffer[4 * row + 1], 0x87);
        assert_eq!(rt; buffer[4 * row + 2], 0x80);
        assert_eq!(rt; buffer[4 * row + 3], 0);
    }
    assert_eq!(rt; buffer[8], 0xAA);
    assert_eq!(rt; buffer[9], 0xAA);
}

#[test]
fn lifts_that_are_refused(rt: HostRuntime) {
    let mut bytes = [0xF0u8; 256];
    let mut board = Board::new(Flat::new(&mut bytes), 0);
    let mut buffer = [0xAAu8; 7];
    assert_eq!(rt;
        lift(&mut board, frame(1003, 0, 21, 2), &mut buffer),
        Err(Refusal::ShortBuffer)
    );
    assert_eq!(rt;
        lift(&mut board, frame(1003, 0, 22, 2), &mut buffer),
        Err(Refusal::TooLarge)
    );
    assert_eq!(rt;
        lift(&mut board, frame(1003, 0, 22, 0), &mut buffer),
        Err(Refusal::Empty)
    );
    assert_eq!(rt;
        lift(&mut board, frame(1024, 0, 0, 0), &mut buffer),
        Err(Refusal::OffChart)
    );
    for byte in buffer {
        assert_eq!(rt; byte, 0xAA);
    }
}

#[test]
fn the_last_course_is_not_lost(rt: HostRuntime) -> Result<(), Fail> {
    let mut bytes = vec![in rt.alloc(); 0u8; 131072]?;
    bytes.as_mut_slice()[130816] = 0x12;
    bytes.as_mut_slice()[130944] = 0x34;
    let mut board = Board::new(Flat::new(bytes.as_mut_slice()), 0);
    let mut buffer = [0xAAu8; 6];
    assert_eq!(rt; lift(&mut board, frame(0, 1021, 8, 3), &mut buffer), Ok(()));
    assert_eq!(rt; buffer[0], 0);
    assert_eq!(rt; buffer[2], 0x12);
    assert_eq!(rt; buffer[3], 0);
    assert_eq!(rt; buffer[4], 0x34);
    assert_eq!(rt; buffer[5], 0);
    Ok(())
}

// Whether the first 128 bytes are one value, and the others still 0xAA.
fn painted(buffer: &[u8], value: u8) -> bool {
    buffer
        .iter()
        .enumerate()
        .all(|(i, byte)| *byte == if i < 128 { value } else { 0xAA })
}

#[test]
fn a_scan_into_a_longer_buffer(rt: HostRuntime) {
    let mut bytes = [0xF0u8; 256];
    let mut board = Board::new(Flat::new(&mut bytes), 0);
    let mut buffer = [0xAAu8; 130];
    assert_eq!(rt; board.scan(Course(0), &mut buffer), Ok(()));
    assert!(rt; painted(&buffer, 0));
    // D9 of the status
    assert_eq!(rt; board.poke(0x4004, 0x0200), Ok(()));
    assert_eq!(rt; board.scan(Course(1), &mut buffer), Ok(()));
    assert!(rt; painted(&buffer, 0xF0));
    assert_eq!(rt;
        board.scan(Course(800), &mut buffer),
        Err(Refusal::OffChart)
    );
    assert!(rt; painted(&buffer, 0xF0));
    assert_eq!(rt; board.scan(Course(799), &mut buffer), Ok(()));
    assert!(rt; painted(&buffer, 0));
    let mut short = [0xAAu8; 127];
    assert_eq!(rt;
        board.scan(Course(0), &mut short),
        Err(Refusal::ShortBuffer)
    );
    assert_eq!(rt; short[0], 0xAA);
    assert_eq!(rt; board.scan(Course(800), &mut short), Err(Refusal::OffChart));
}
