// Bytes that do not make up a whole course.
use crate::given::stretch;
use planes::flat::Flat;
use planes::two_bed::TwoBed;
use planes::{Plane, Refusal};

#[test]
fn two_beds_of_uneven_length(rt: HostRuntime) {
    let mut front = [0x5Au8; 101];
    let mut back = [0xA5u8; 64];
    let mut plane = TwoBed::new(&mut front, &mut back);
    assert_eq!(rt; plane.courses(), 1);
    assert_eq!(rt; plane.read(stretch(0, 0)), Ok(0x66_99));
    assert_eq!(rt; plane.write(stretch(63, 0), 0x8001), Ok(()));
    assert_eq!(rt; plane.write(stretch(0, 1), 0xFFFF), Err(Refusal::OffPlane));
    assert_eq!(rt; plane.read(stretch(64, 0)), Err(Refusal::OffPlane));
    assert_eq!(rt; front[63], 0x80);
    assert_eq!(rt; back[63], 0x01);
    assert_eq!(rt; front[64], 0x5A);
    assert_eq!(rt; front[100], 0x5A);
}

#[test]
fn the_shorter_bed_counts(rt: HostRuntime) {
    let mut front = [0u8; 100];
    let mut back = [0u8; 64];
    let mut plane = TwoBed::new(&mut front, &mut back);
    assert_eq!(rt; plane.courses(), 1);
}

#[test]
fn flat_with_bytes_past_the_last_course(rt: HostRuntime) {
    let mut bytes = [0x11u8; 300];
    let mut plane = Flat::new(&mut bytes);
    assert_eq!(rt; plane.courses(), 2);
    assert_eq!(rt; plane.write(stretch(63, 1), 0xABCD), Ok(()));
    assert_eq!(rt; plane.read(stretch(63, 1)), Ok(0xABCD));
    assert_eq!(rt; plane.write(stretch(0, 2), 0xFFFF), Err(Refusal::OffPlane));
    assert_eq!(rt; bytes[254], 0xAB);
    assert_eq!(rt; bytes[255], 0xCD);
    assert_eq!(rt; bytes[256], 0x11);
    assert_eq!(rt; bytes[299], 0x11);
}

#[test]
fn no_course_at_all(rt: HostRuntime) {
    let mut bytes = [0u8; 127];
    let mut plane = Flat::new(&mut bytes);
    assert_eq!(rt; plane.courses(), 0);
    assert_eq!(rt; plane.read(stretch(0, 0)), Err(Refusal::OffPlane));
}
