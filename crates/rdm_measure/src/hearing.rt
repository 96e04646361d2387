//! Message numbers that come in falling order.
use rdm_num::{MsgNo, NoMemory};
use rdm_window::{Heard, Window};
use std::alloc::Global;
use std::collections::HashSet;

/// Inserts so many numbers into a set, the greatest first, and gives how many there are then.
pub fn inserts(alloc: Global, count: u64) -> Result<u64, NoMemory> {
    let mut numbers = HashSet::new(alloc);
    for number in (0..u32_of(count)).rev() {
        numbers.insert(number)?;
    }
    let len = numbers.len();
    Ok(u64::try_from(len).unwrap_or(u64::MAX))
}

/// A window hears so many numbers, the greatest first. Gives how many entered.
pub fn heard(alloc: Global, count: u64) -> Result<u64, NoMemory> {
    let mut window = Window::new(alloc, 0);
    let mut entered = 0u64;
    for number in (0..u32_of(count)).rev() {
        entered = entered.saturating_add(hear(&mut window, MsgNo(number))?);
    }
    Ok(entered)
}

/// Hears a number, if it is new, and gives how many numbers enter by it.
fn hear(window: &mut Window, no: MsgNo) -> Result<u64, NoMemory> {
    match window.state(no) {
        Heard::New => window.hear(no),
        Heard::Waiting | Heard::Entered => Ok(0),
    }
}

/// A count as a number of 32 bits, or the greatest of them.
fn u32_of(count: u64) -> u32 {
    u32::try_from(count).unwrap_or(u32::MAX)
}
