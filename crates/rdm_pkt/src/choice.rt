//! Which protocol a message goes by.
ghost use Rattle.std.specs.Prelude.{◌≡◌, ◌<◌, ◌≤◌, false, [], length};
ghost use Rattle.std.specs.Bool.{then_some};
ghost use Rattle.rdm_pkt.specs.declared.Packet.TheVariants.{Rtm};
ghost use Rattle.rdm_pkt.specs.declared.Form.TheVariants.{Eager as EagerForm};
ghost use Rattle.rdm_pkt.specs.Grammar.{spelling};
ghost use Rattle.rdm_pkt.specs.Choice.{opt_like};
ghost use Rattle.rdm_pkt.specs.Choice as Choice;

use crate::Kind;
use rdm_hdr::has_bit;
use rdm_num::EpLimits;

/// The feature of a receiver that can read a sender's memory.
pub const READ_FEATURE: u32 = 0;

/// The feature of a receiver that takes a first part ahead of a read.
pub const RUNT_FEATURE: u32 = 4;

/// The protocol of a message of that length: one packet where it has room; else a read where both sides can and it is
/// long enough, with a first part ahead where both know how; else segments at once; else a first part and grants.
/// `own` and `known` are the features of this side and of the peer, as far as a handshake told them.
#[tactic(auto, unfolding(crate::specs::Choice::choose))]
pub fn choose(
    length: u64,
    tagged: bool,
    cq_data: bool,
    raw: bool,
    own: u64,
    known: Option<u64>,
    limits: &EpLimits,
) -> Kind
    ensures { result ≡ Choice.choose length tagged cq_data raw own known limits.now }
{
    if length <= eager_room(tagged, cq_data, raw, limits) {
        return Kind::Eager;
    }
    if both_have(READ_FEATURE, own, known) && limits.read_limit <= length {
        if limits.runt > 0 && both_have(RUNT_FEATURE, own, known) {
            let runt_length = limits.runt.min(length - 1);
            return Kind::Runt { runt_length };
        }
        return Kind::LongRead;
    }
    if length <= limits.medium {
        Kind::Medium
    } else {
        Kind::LongCts
    }
}

/// Both sides have the feature, and it is known of the peer.
#[tactic(auto, unfolding(crate::specs::Choice::both_have))]
fn both_have(feature: u32, own: u64, known: Option<u64>) -> bool
    requires { feature < 64 }
    ensures { result ≡ Choice.both_have feature own known }
{
    match known {
        None => false,
        Some(known) => has_bit(feature, own) && has_bit(feature, known),
    }
}

/// The longest message that has room in one packet with its headers.
#[tactic(auto, unfolding(crate::specs::Choice::eager_room))]
fn eager_room(tagged: bool, cq_data: bool, raw: bool, limits: &EpLimits) -> u64
    ensures { result ≡ Choice.eager_room tagged cq_data raw limits.now }
{
    u64::from(
        limits
            .mtu
            .saturating_sub(eager_header(tagged, cq_data, raw)),
    )
}

/// How many bytes of headers an eager packet has.
#[tactic(auto, using(crate::proofs::EagerRoom::eager_header_size))]
fn eager_header(tagged: bool, cq_data: bool, raw: bool) -> u32
    ensures { result ≡ length (spelling (Rtm (record { 0 = 0 }) (then_some tagged 0) false (opt_like cq_data raw) (EagerForm []))) }
{
    let tag = if tagged { 8 } else { 0 };
    let cq_data = if cq_data { 8 } else { 0 };
    let sender = if raw { 36 } else { 4 };
    8 + tag + cq_data + sender
}
