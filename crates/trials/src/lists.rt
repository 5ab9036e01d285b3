// A list of calls, one after the other.
use crate::given::{frame, pen};
use crate::large::Large;
use drawing::Brush;
use jobs::{Fault, Spot};
use planes::Refusal;
use planes::two_bed::TwoBed;
use registers::Cursor;
use rule::{Answer, Call, Step, play};
use std::test::Fail;

fn step(call: Call) -> Step {
    Step {
        call,
        answer: Answer::Done,
    }
}

#[test]
fn one_after_the_other(rt: HostRuntime) -> Result<(), Fail> {
    let good = b"F\0\x08\0\0\0\0\0\x08\0\x01".to_vec(rt.alloc())?;
    let bad = b"F\0\x08\0\0\0\x01\0\x08\0\x01".to_vec(rt.alloc())?;
    let frame = frame(0, 0, 16, 1);
    let brush = Brush {
        code: 0x66,
        mask: 0,
    };
    let mut steps = [
        step(Call::Fill { frame, brush }),
        step(Call::Poke {
            address: 0x4002,
            value: 3,
        }),
        step(Call::Peek { address: 0x2_0000 }),
        step(Call::Run {
            job: good,
            pen: pen(0xC0, 0xF0F0, 2),
        }),
        step(Call::Run {
            job: bad,
            pen: pen(0xC0, 0xF0F0, 2),
        }),
        step(Call::Init),
        step(Call::Retrace),
        step(Call::Interrupt),
    ];
    let mut front = [0u8; 64];
    let mut back = [0u8; 64];
    let plane = TwoBed::new(&mut front, &mut back);
    let plane = play(plane, 0, &mut steps);
    drop(plane);
    assert_eq!(rt; front[0], 0xCF);
    assert_eq!(rt; back[0], 0xCF);
    let done = &steps[..];
    assert_eq!(rt; done[0].answer, Answer::Done);
    assert_eq!(rt; done[2].answer, Answer::Refused(Refusal::OtherUnit));
    assert_eq!(rt; done[3].answer, Answer::Ran(1));
    let fault = Fault {
        refusal: Refusal::OffChart,
        spot: Spot::default(),
    };
    assert_eq!(rt; done[4].answer, Answer::Faulty(fault));
    assert_eq!(rt; fault.refusal.number(), 1);
    Ok(())
}

// A list leaves its board where it is: with a plane that holds a mebibyte, the stack has no room for many of them.
#[test]
fn on_a_plane_that_holds_much(rt: HostRuntime) {
    let at = Cursor::default();
    let mut steps = [
        step(Call::Init),
        step(Call::Begin { at }),
        step(Call::Retrace),
        step(Call::Collect),
        step(Call::GiveUp),
        step(Call::Begin { at }),
    ];
    let mut front = [0xFFu8; 64];
    let mut back = [0u8; 64];
    let plane = Large::new(TwoBed::new(&mut front, &mut back));
    drop(play(plane, 0, &mut steps));
    assert_eq!(rt; steps[0].answer, Answer::Done);
    assert_eq!(rt; steps[1].answer, Answer::Done);
    assert_eq!(rt; steps[2].answer, Answer::Done);
    assert_eq!(rt; steps[3].answer, Answer::Collected(0xAAAA));
    assert_eq!(rt; steps[4].answer, Answer::Refused(Refusal::NoWordUnderWay));
    assert_eq!(rt; steps[5].answer, Answer::Done);
}
