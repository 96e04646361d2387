//! What a receive grants of a long message.
ghost use Rattle.std.specs.Prelude.{◌≡◌};
ghost use Rattle.rdm_model.specs.Grants.{window_of};
ghost use Rattle.rdm_model.specs.Replies.{grant_for};
ghost use Rattle.rdm_rx.specs.Owing.{IsOnlyPacket};

use rdm_num::{Connid, DATA_HEADER, EpLimits, Head, OpId, Shape};
use rdm_pkt::Packet;

/// How many bytes the next grant of a message names, of which so many are granted: 0 where the
/// message waits for no grant, or all of it is granted. It is asked for at the match and each time
/// that all granted bytes have landed.
#[tactic(auto, unfolding(rdm_model::specs::Grants::window_of, rdm_model::specs::Grants::data_room))]
pub fn next_window(limits: &EpLimits, head: &Head, granted: u64) -> u64
    ensures { result ≡ window_of limits.now head.now head.now.shape granted }
{
    match head.shape {
        Shape::LongCts { credits, .. } => {
            let left = head.length.saturating_sub(granted);
            let room = u64::from(limits.mtu.saturating_sub(DATA_HEADER));
            left.min(u64::from(credits) * room)
        }
        Shape::Eager | Shape::Medium | Shape::LongRead { .. } | Shape::Runt { .. } => 0,
    }
}

/// The packet that grants a window of so many bytes to the sender of a message, from the life with
/// that identifier.
#[tactic(auto, unfolding(rdm_model::specs::Replies::grant_for))]
pub fn grant(own: Connid, head: &Head, recv: OpId, size: u64) -> Option<Packet>
    ensures { IsOnlyPacket own result (λ life. grant_for life head.now.shape recv size) }
{
    match head.shape {
        Shape::LongCts { send_id, .. } if size > 0 => Some(Packet::Cts {
            send_id,
            recv_id: recv,
            recv_length: size,
            connid: own,
        }),
        _ => None,
    }
}
