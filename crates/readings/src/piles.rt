// Layers over each bottom: read, written, drawn on and lifted.
use crate::given::{frame, stretch};
use board::Board;
use drawing::{Brush, fill, lift};
use layers::{Layer, Mirror, Negative, Roll};
use planes::flat::Flat;
use planes::two_bed::TwoBed;
use planes::{Plane, Refusal};
use std::process::Abort;

// Reads and writes words of a blank plane of two courses through all three layers.
fn through_words<P: Plane>(rt: &impl Abort, plane: &mut P) {
    let mut pile = Layer::new(
        Mirror,
        Layer::new(Roll::new(3), Layer::new(Negative, plane)),
    );
    assert_eq!(rt; pile.courses(), 2);
    assert_eq!(rt; pile.read(stretch(0, 0)), Ok(0xFFFF));
    assert_eq!(rt; pile.write(stretch(0, 0), 0x1234), Ok(()));
    assert_eq!(rt; pile.read(stretch(0, 0)), Ok(0x1234));
    assert_eq!(rt; pile.read(stretch(0, 1)), Ok(0xFFFF));
    assert_eq!(rt; pile.read(stretch(63, 0)), Ok(0xFFFF));
    assert_eq!(rt; pile.read(stretch(64, 0)), Err(Refusal::OffPlane));
    assert_eq!(rt; pile.write(stretch(0, 2), 0), Err(Refusal::OffPlane));
}

// Draws on the same pile through a board, and lifts what was drawn.
fn through_a_board<P: Plane>(rt: &impl Abort, plane: &mut P) {
    let pile = Layer::new(
        Mirror,
        Layer::new(Roll::new(3), Layer::new(Negative, plane)),
    );
    let mut board = Board::new(pile, 0);
    let brush = Brush { code: 0, mask: 0 };
    assert_eq!(rt; fill(&mut board, frame(1, 0, 3, 1), brush), Ok(()));
    let mut buffer = [0x55u8; 5];
    assert_eq!(rt; lift(&mut board, frame(0, 0, 16, 2), &mut buffer), Ok(()));
    assert_eq!(rt; buffer[0], 0x02);
    assert_eq!(rt; buffer[1], 0x34);
    assert_eq!(rt; buffer[2], 0xFF);
    assert_eq!(rt; buffer[3], 0xFF);
    assert_eq!(rt; buffer[4], 0x55);
}

#[test]
fn a_pile_over_flat(rt: HostRuntime) {
    let mut bytes = [0u8; 300];
    let mut plane = Flat::new(&mut bytes);
    through_words(&rt, &mut plane);
    through_a_board(&rt, &mut plane);
    drop(plane);
    // course 0 of the pile is course 1 below, its word 0 is word 63, and its bits are turned round and negated
    assert_eq!(rt; bytes[128], 0);
    assert_eq!(rt; bytes[254], 0xD3);
    assert_eq!(rt; bytes[255], 0xBF);
    assert_eq!(rt; bytes[126], 0);
    assert_eq!(rt; bytes[256], 0);
}

#[test]
fn a_pile_over_two_beds(rt: HostRuntime) {
    let mut front = [0u8; 130];
    let mut back = [0u8; 128];
    let mut plane = TwoBed::new(&mut front, &mut back);
    through_words(&rt, &mut plane);
    through_a_board(&rt, &mut plane);
    drop(plane);
    assert_eq!(rt; front[127], 0x9F);
    assert_eq!(rt; back[127], 0xD7);
    assert_eq!(rt; front[63], 0);
    assert_eq!(rt; front[129], 0);
}

#[test]
fn rolled_all_the_way_round(rt: HostRuntime) {
    let mut bytes = [0u8; 384];
    let mut plane = Flat::new(&mut bytes);
    assert_eq!(rt; plane.write(stretch(5, 1), 0xABCD), Ok(()));
    let mut rolled = Layer::new(Roll::new(65535), &mut plane);
    assert_eq!(rt; rolled.read(stretch(5, 1)), Ok(0xABCD));
    let mut rolled = Layer::new(Roll::new(65534), &mut plane);
    assert_eq!(rt; rolled.read(stretch(5, 2)), Ok(0xABCD));
    assert_eq!(rt; rolled.read(stretch(5, 1)), Ok(0));
    assert_eq!(rt; rolled.read(stretch(5, 3)), Err(Refusal::OffPlane));
    let mut none = [0u8; 127];
    let mut rolled = Layer::new(Roll::new(7), Flat::new(&mut none));
    assert_eq!(rt; rolled.courses(), 0);
    assert_eq!(rt; rolled.read(stretch(0, 0)), Err(Refusal::OffPlane));
}
