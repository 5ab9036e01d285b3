// Jobs: cut, too long, unknown, off the chart.
use crate::given::pen;
use board::Board;
use jobs::{Fault, Pen, Spot, run};
use planes::flat::Flat;
use planes::{Needle, Refusal};
use std::test::Fail;

fn plain_pen() -> Pen {
    pen(0xCC, 0xFFFF, 0)
}

// Runs a job on a blank plane of two courses.
fn attempt(job: &[u8]) -> Result<usize, Fault> {
    let mut bytes = [0u8; 256];
    let mut board = Board::new(Flat::new(&mut bytes), 0);
    run(&mut board, job, &mut plain_pen())
}

fn fault(refusal: Refusal, place: usize, before: usize) -> Result<usize, Fault> {
    Err(Fault {
        refusal,
        spot: Spot { place, before },
    })
}

#[test]
fn fields_are_tried_in_order(rt: HostRuntime) {
    assert_eq!(rt; attempt(b""), Ok(0));
    assert_eq!(rt; attempt(b"C"), fault(Refusal::Truncated, 0, 0));
    assert_eq!(rt; attempt(b"C\0"), fault(Refusal::Truncated, 0, 0));
    assert_eq!(rt; attempt(b"C\0\x01"), fault(Refusal::Truncated, 0, 0));
    assert_eq!(rt; attempt(b"C\0\x01\x66"), Ok(1));
    assert_eq!(rt; attempt(b"C\0\x01\x66Z"), fault(Refusal::Truncated, 4, 1));
    assert_eq!(rt; attempt(b"Z\0\x02\0"), fault(Refusal::Truncated, 0, 0));
    assert_eq!(rt; attempt(b"Z\0\0"), fault(Refusal::UnknownTag, 0, 0));
    assert_eq!(rt; attempt(b"S\0\0"), fault(Refusal::UnknownTag, 0, 0));
    assert_eq!(rt; attempt(b"c\0\x01\0"), fault(Refusal::UnknownTag, 0, 0));
    assert_eq!(rt;
        attempt(b"K\0\x02\0\0C\0\x02\0\0"),
        fault(Refusal::WrongLength, 5, 1)
    );
    assert_eq!(rt; attempt(b"O\0\0"), fault(Refusal::WrongLength, 0, 0));
    assert_eq!(rt; attempt(b"F\x01\0"), fault(Refusal::Truncated, 0, 0));
}

#[test]
fn the_drawing_has_its_own_number(rt: HostRuntime) {
    assert_eq!(rt; attempt(b"F\0\x08\x03\xFF\0\x01\0\x01\0\x01"), Ok(1));
    assert_eq!(rt;
        attempt(b"F\0\x08\x04\0\0\0\0\x01\0\x01"),
        fault(Refusal::OffChart, 0, 0)
    );
    assert_eq!(rt;
        attempt(b"F\0\x08\0\0\0\x02\0\x01\0\x01"),
        fault(Refusal::OffChart, 0, 0)
    );
    assert_eq!(rt;
        attempt(b"F\0\x08\0\0\0\0\0\0\0\x01"),
        fault(Refusal::Empty, 0, 0)
    );
    assert_eq!(rt;
        attempt(b"F\0\x08\0\0\0\x01\0\x01\0\x02"),
        fault(Refusal::TooLarge, 0, 0)
    );
    assert_eq!(rt;
        attempt(b"O\0\x04\xFF\xFF\0\0F\0\x08\0\x01\0\0\0\x01\0\x01"),
        fault(Refusal::OffChart, 7, 1)
    );
}

#[test]
fn a_refused_job_draws_nothing(rt: HostRuntime) {
    let mut bytes = [0u8; 256];
    let mut held = plain_pen();
    let mut board = Board::new(Flat::new(&mut bytes), 0);
    let job = b"C\0\x01\xFFK\0\x02\0\0O\0\x04\0\0\0\0F\0\x08\0\0\0\0\0\x10\0\x02Z\0\0";
    held.origin.x = Needle(16);
    assert_eq!(rt;
        run(&mut board, job, &mut held),
        fault(Refusal::UnknownTag, 27, 4)
    );
    assert_eq!(rt; held, pen(0xCC, 0xFFFF, 16));
    assert_eq!(rt; run(&mut board, &job[0..27], &mut held), Ok(4));
    assert_eq!(rt; held, pen(0xCC, 0xFFFF, 16));
    let plane = board.into_plane();
    drop(plane);
    assert_eq!(rt; bytes[0], 0xFF);
    assert_eq!(rt; bytes[2], 0);
}

#[test]
fn as_long_as_a_job_may_be(rt: HostRuntime) -> Result<(), Fail> {
    let mut job = Vec::new(rt.alloc());
    for _ in 0..16383u16 {
        job.extend_from_slice(b"C\0\x01\xCC")?;
    }
    assert_eq!(rt; attempt(job.as_slice()), Ok(16383));
    job.extend_from_slice(b"C\0\0")?;
    assert_eq!(rt; job.len(), 65535);
    assert_eq!(rt;
        attempt(job.as_slice()),
        fault(Refusal::WrongLength, 65532, 16383)
    );
    job.push(0)?;
    assert_eq!(rt; attempt(job.as_slice()), fault(Refusal::JobTooLong, 0, 0));
    Ok(())
}
