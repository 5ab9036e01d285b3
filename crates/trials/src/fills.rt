// Fills at the limits of a chart.
use crate::given::{frame, stretch};
use board::Board;
use drawing::{Brush, fill};
use planes::flat::Flat;
use planes::{Plane, Refusal};
use std::test::Fail;

// Fills a frame, or gives the number of the refusal: the numbering is tried too.
fn attempt<P: Plane>(board: &mut Board<P>, x: u16, y: u16, w: u16, h: u16) -> Result<(), u8> {
    let brush = Brush {
        code: 0xCC,
        mask: 0xFFFF,
    };
    fill(board, frame(x, y, w, h), brush).map_err(Refusal::number)
}

#[test]
fn on_a_full_chart(rt: HostRuntime) -> Result<(), Fail> {
    let mut bytes = vec![in rt.alloc(); 0u8; 131072]?;
    let mut board = Board::new(Flat::new(bytes.as_mut_slice()), 0);
    assert_eq!(rt; attempt(&mut board, 1023, 1023, 1, 1), Ok(()));
    assert_eq!(rt; attempt(&mut board, 1024, 0, 1, 1), Err(1));
    assert_eq!(rt; attempt(&mut board, 0, 1024, 1, 1), Err(1));
    assert_eq!(rt; attempt(&mut board, 65535, 65535, 65535, 65535), Err(1));
    assert_eq!(rt; attempt(&mut board, 1024, 0, 0, 0), Err(1));
    assert_eq!(rt; attempt(&mut board, 0, 0, 0, 1), Err(2));
    assert_eq!(rt; attempt(&mut board, 1023, 0, 65535, 0), Err(2));
    assert_eq!(rt; attempt(&mut board, 1020, 0, 4, 1), Ok(()));
    assert_eq!(rt; attempt(&mut board, 1020, 0, 5, 1), Err(3));
    assert_eq!(rt; attempt(&mut board, 0, 1020, 1, 4), Ok(()));
    assert_eq!(rt; attempt(&mut board, 0, 1020, 1, 5), Err(3));
    assert_eq!(rt; attempt(&mut board, 1, 0, 65535, 1), Err(3));
    assert_eq!(rt; attempt(&mut board, 0, 1, 1, 65535), Err(3));
    Ok(())
}

#[test]
fn on_three_courses(rt: HostRuntime) {
    let mut bytes = [0u8; 384];
    let mut board = Board::new(Flat::new(&mut bytes), 0);
    assert_eq!(rt; attempt(&mut board, 5, 1, 38, 2), Ok(()));
    assert_eq!(rt; attempt(&mut board, 0, 3, 1, 1), Err(1));
    assert_eq!(rt; attempt(&mut board, 0, 2, 1, 2), Err(3));
    let mut plane = board.into_plane();
    assert!(rt; plane.read(stretch(0, 0)).is_ok());
    assert_eq!(rt; bytes[0], 0);
    assert_eq!(rt; bytes[128], 0x07);
    assert_eq!(rt; bytes[129], 0xFF);
    assert_eq!(rt; bytes[132], 0xFF);
    assert_eq!(rt; bytes[133], 0xE0);
    assert_eq!(rt; bytes[134], 0);
    assert_eq!(rt; bytes[256], 0x07);
    assert_eq!(rt; bytes[261], 0xE0);
}

#[test]
fn on_no_course(rt: HostRuntime) {
    let mut bytes = [0u8; 1];
    let mut board = Board::new(Flat::new(&mut bytes), 0);
    assert_eq!(rt; attempt(&mut board, 0, 0, 1, 1), Err(1));
}
