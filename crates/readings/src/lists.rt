// Lists of every call that is there.
use crate::given::{frame, place};
use drawing::Brush;
use jobs::{Fault, Origin, Pen, Spot};
use planes::flat::Flat;
use planes::{Course, Needle, Refusal};
use rule::{Answer, Call, Step, play};
use std::test::Fail;

fn step(call: Call) -> Step {
    Step {
        call,
        answer: Answer::Done,
    }
}

// A fault at the first field.
fn faulty(refusal: Refusal) -> Answer {
    Answer::Faulty(Fault {
        refusal,
        spot: Spot::default(),
    })
}

fn begin(x: u16, y: u16) -> Step {
    step(Call::Begin { at: place(x, y) })
}

#[test]
fn while_a_word_is_under_way(rt: HostRuntime) -> Result<(), Fail> {
    let frame = frame(0, 0, 16, 1);
    let brush = Brush { code: 0, mask: 0 };
    let job = Vec::new(rt.alloc());
    let pen = Pen {
        brush: Brush {
            code: 0,
            mask: 0xF0F0,
        },
        origin: Origin {
            x: Needle(2),
            y: Course(0),
        },
    };
    let lifted = vec![in rt.alloc(); 0x55u8; 2]?;
    let scanned = vec![in rt.alloc(); 0x55u8; 128]?;
    let mut steps = [
        begin(5, 0),
        step(Call::Fill { frame, brush }),
        step(Call::Lift {
            frame,
            buffer: lifted,
        }),
        step(Call::Run { job, pen }),
        begin(0, 1),
        step(Call::Peek { address: 0 }),
        step(Call::Poke {
            address: 0,
            value: 0,
        }),
        step(Call::Scan {
            course: Course(0),
            buffer: scanned,
        }),
        step(Call::Init),
        step(Call::Collect),
    ];
    let mut bytes = [0xF0u8; 128];
    let plane = Flat::new(&mut bytes);
    let plane = play(plane, 0, &mut steps);
    drop(plane);
    let done = &steps[..];
    let underway = Answer::Refused(Refusal::WordUnderWay);
    assert_eq!(rt; done[0].answer, Answer::Done);
    assert_eq!(rt; done[1].answer, underway);
    assert_eq!(rt; done[2].answer, underway);
    assert_eq!(rt; done[3].answer, faulty(Refusal::WordUnderWay));
    assert_eq!(rt; done[4].answer, underway);
    assert_eq!(rt; done[5].answer, underway);
    assert_eq!(rt; done[6].answer, underway);
    assert_eq!(rt; done[7].answer, Answer::Done);
    assert_eq!(rt; done[8].answer, Answer::Done);
    assert_eq!(rt; done[9].answer, Answer::Collected(0x1E1E));
    assert_eq!(rt; first_byte(&done[2].call), Some(0x55));
    assert_eq!(rt; first_byte(&done[7].call), Some(0));
    assert_eq!(rt; bytes[0], 0xF0);
    Ok(())
}

// The first byte of a call's buffer.
fn first_byte(call: &Call) -> Option<u8> {
    match call {
        Call::Lift { frame: _, buffer } => buffer.as_slice().first().copied(),
        Call::Scan { course: _, buffer } => buffer.as_slice().first().copied(),
        _ => None,
    }
}

#[test]
fn buffers_of_a_list(rt: HostRuntime) -> Result<(), Fail> {
    let lifted = vec![in rt.alloc(); 0x55u8; 3]?;
    let dark = vec![in rt.alloc(); 0x55u8; 128]?;
    let lit = vec![in rt.alloc(); 0x55u8; 128]?;
    let again = vec![in rt.alloc(); 0x55u8; 128]?;
    let mut steps = [
        step(Call::Lift {
            frame: frame(5, 0, 5, 1),
            buffer: lifted,
        }),
        step(Call::Scan {
            course: Course(0),
            buffer: dark,
        }),
        step(Call::Poke {
            address: 0x4004,
            value: 0x0200,
        }),
        step(Call::Scan {
            course: Course(0),
            buffer: lit,
        }),
        step(Call::Init),
        step(Call::Scan {
            course: Course(0),
            buffer: again,
        }),
    ];
    let mut bytes = [0xF0u8; 128];
    let plane = Flat::new(&mut bytes);
    let plane = play(plane, 0, &mut steps);
    drop(plane);
    let done = &steps[..];
    assert_eq!(rt; first_byte(&done[0].call), Some(0x18));
    assert_eq!(rt; first_byte(&done[1].call), Some(0));
    assert_eq!(rt; first_byte(&done[3].call), Some(0xF0));
    assert_eq!(rt; first_byte(&done[5].call), Some(0));
    Ok(())
}

#[test]
fn slips_with_nothing_under_way(rt: HostRuntime) {
    let mut steps = [
        step(Call::Collect),
        step(Call::GiveUp),
        begin(0, 1),
        step(Call::Collect),
        begin(1016, 0),
        step(Call::GiveUp),
        step(Call::GiveUp),
        begin(1016, 0),
        step(Call::Collect),
        begin(0, 0),
    ];
    let mut bytes = [0xF0u8; 128];
    let plane = Flat::new(&mut bytes);
    let plane = play(plane, 0, &mut steps);
    drop(plane);
    let done = &steps[..];
    let none = Answer::Refused(Refusal::NoWordUnderWay);
    assert_eq!(rt; done[0].answer, none);
    assert_eq!(rt; done[1].answer, none);
    assert_eq!(rt; done[2].answer, Answer::Refused(Refusal::OffChart));
    assert_eq!(rt; done[3].answer, none);
    assert_eq!(rt; done[4].answer, Answer::Done);
    assert_eq!(rt; done[5].answer, Answer::Done);
    assert_eq!(rt; done[6].answer, none);
    assert_eq!(rt; done[7].answer, Answer::Done);
    assert_eq!(rt; done[8].answer, Answer::Collected(0xF000));
    assert_eq!(rt; done[9].answer, Answer::Done);
}
