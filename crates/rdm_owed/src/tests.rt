use crate::{Answers, Owed};
use rdm_num::{Connid, Life, NoMemory, PortNo};
use std::process::Abort;
use std::test::Fail;

/// A call. Lives are named by their ports; what goes out stands beside the call that takes it.
#[derive(Clone, Copy)]
enum Call {
    Owe(u32, u32),
    Left(u32),
    Pop(Option<(u32, u32)>),
    Forget(u32),
    GiveBack,
}

const CALLS: [Call; 14] = [
    Call::Left(9),
    Call::Pop(None),
    Call::Owe(1, 10),
    Call::Owe(2, 20),
    Call::Owe(1, 11),
    Call::Left(12),
    Call::Pop(Some((1, 12))),
    Call::GiveBack,
    Call::Owe(3, 30),
    Call::Forget(1),
    Call::Pop(Some((2, 20))),
    Call::Pop(Some((3, 30))),
    Call::Forget(3),
    Call::Pop(None),
];

fn life(port: u32) -> Life {
    Life {
        port: PortNo(port),
        connid: Connid(7),
    }
}

/// Makes room, and tries once more where memory ran out: a call that fails leaves all as it was.
fn calls(rt: &impl Abort, answers: &mut Answers<u32>, call: Call) -> Result<(), NoMemory> {
    match call {
        Call::Owe(port, answer) => {
            if answers.reserve().is_err() {
                answers.reserve()?;
            }
            answers.push(life(port), answer);
        }
        Call::Left(answer) => answers.replace_first(answer),
        Call::Pop(wanted) => {
            let wanted = wanted.map(|(port, answer)| Owed {
                to: life(port),
                answer,
            });
            assert!(rt; answers.first().copied() == wanted);
            assert!(rt; answers.pop() == wanted);
        }
        Call::Forget(port) => answers.forget(life(port)),
        Call::GiveBack => {
            answers.reserve()?;
            answers.reserve_many(3)?;
            answers.give_back();
            answers.give_back_many(3);
        }
    }
    Ok(())
}

#[test]
fn answers_go_out_in_their_order(rt: HostRuntime) -> Result<(), Fail> {
    let mut answers = Answers::new(rt.alloc());
    for call in CALLS {
        calls(&rt, &mut answers, call)?;
    }
    Ok(())
}
