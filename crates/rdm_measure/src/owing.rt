//! Answers that are owed to sixteen lives in turn, and go out once all are owed.
use rdm_num::{Connid, Life, NoMemory, PortNo};
use rdm_owed::{Answers, Owed};
use std::alloc::Global;
use std::collections::VecDeque;

/// The life that the answer of a number is owed to.
fn life_of(number: u64) -> Life {
    Life {
        port: PortNo((number % 16) as u32),
        connid: Connid(5),
    }
}

/// Queues so many answers and takes them out. Gives their sum.
pub fn queued(alloc: Global, count: u64) -> Result<u64, NoMemory> {
    let mut queue = VecDeque::new(alloc);
    for number in 0..count {
        queue.push_back(Owed {
            to: life_of(number),
            answer: number,
        })?;
    }
    let mut sum = 0u64;
    for _number in 0..count {
        if let Some(owed) = queue.pop_front() {
            sum = sum.saturating_add(owed.answer);
        }
    }
    Ok(sum)
}

/// Owes so many answers, each in room that is made for it, and takes them out. Gives their sum.
pub fn owed(alloc: Global, count: u64) -> Result<u64, NoMemory> {
    let mut answers = Answers::new(alloc);
    for number in 0..count {
        answers.reserve()?;
        answers.push(life_of(number), number);
    }
    let mut sum = 0u64;
    for _number in 0..count {
        if let Some(owed) = answers.pop() {
            sum = sum.saturating_add(owed.answer);
        }
    }
    Ok(sum)
}
