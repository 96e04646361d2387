//! Receives that are posted and met by messages, each pair of a tag of its own.
ghost use Rattle.std.specs.Prelude.{◌≡◌, ℕ, ◌<◌, false};
ghost use Rattle.rdm_match.specs.Waiting.{is_posted};

use rdm_bins::Bins;
use rdm_match::{Arrived, PostedRecv, TagMatcher};
use rdm_num::{Connid, Life, MsgNo, NoMemory, PortNo, RecvNo, Want};
use std::alloc::Global;
use std::collections::HashMap;

/// The tag of a number: each has another, and they jump about.
fn tag_of(number: u64) -> u64 {
    number.wrapping_mul(0x9E37_79B9_7F4A_7C15)
}

/// Inserts so many numbers by their tags, and gives how many there are then.
pub fn inserts(alloc: Global, count: u64) -> Result<u64, NoMemory> {
    let mut numbers = HashMap::new(alloc);
    for number in 0..count {
        numbers.insert(tag_of(number), number)?;
    }
    let len = numbers.len();
    Ok(u64::try_from(len).unwrap_or(u64::MAX))
}

/// Posts so many receives. A message arrives once so many further receives are posted; in the end the
/// others arrive. Gives how many messages met a receive.
#[tactic(auto, unfolding(rdm_match::specs::Waiting::is_posted))]
pub fn meetings(alloc: Global, count: u64, ahead: u64) -> Result<u64, NoMemory> {
    let mut bins = Bins::new(alloc);
    let mut met = 0u64;
    for number in 0..count {
        post(&mut bins, number)?;
        if number >= ahead {
            met = met.saturating_add(arrive(&mut bins, number - ahead)?);
        }
    }
    for number in count.saturating_sub(ahead)..count {
        met = met.saturating_add(arrive(&mut bins, number)?);
    }
    Ok(met)
}

/// Posts the receive of a number.
#[tactic(auto, using(rdm_match::proofs::Unposted::free_after_post))]
fn post(bins: &mut Bins, number: u64) -> Result<(), NoMemory>
    requires { is_posted bins.old.waiting number ≡ false }
    ensures { (k : ℕ) → number < k → is_posted bins.old.waiting k ≡ false → is_posted bins.new.waiting k ≡ false }
{
    let r = PostedRecv {
        id: RecvNo(number),
        from: None,
        want: Some(Want {
            tag: tag_of(number),
            ignore: 0,
        }),
    };
    bins.post(r)?;
    Ok(())
}

/// Lets the message of a number arrive, and gives 1 if it met a receive.
#[tactic(auto, using(rdm_match::proofs::Unposted::free_after_arrive))]
fn arrive(bins: &mut Bins, number: u64) -> Result<u64, NoMemory>
    ensures { (k : ℕ) → is_posted bins.old.waiting k ≡ false → is_posted bins.new.waiting k ≡ false }
{
    let a = Arrived {
        life: Life {
            port: PortNo(0),
            connid: Connid(5),
        },
        no: MsgNo(0),
        tag: Some(tag_of(number)),
    };
    let met = bins.arrive(a)?.is_some();
    Ok(u64::from(met))
}
