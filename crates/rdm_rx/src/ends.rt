//! What a receive that filled owes to its sender.
ghost use Rattle.rdm_model.specs.Replies.{end_for, receipt_for};
ghost use Rattle.rdm_rx.specs.Owing.{IsOnlyPacket};

use rdm_num::{Connid, Head, MsgNo, OpId, Shape};
use rdm_pkt::Packet;

/// What ends a message whose bytes all landed, from the life with that identifier: the end of a
/// read, or the receipt that the sender waits for. It goes out once, when the receive completes.
#[tactic(auto, unfolding(rdm_model::specs::Replies::end_for, rdm_model::specs::Replies::receipt_for))]
pub fn end(own: Connid, head: &Head, number: MsgNo, recv: OpId) -> Option<Packet>
    ensures { IsOnlyPacket own result (λ life. end_for life head.now.shape head.now.confirm number recv) }
{
    match head.shape {
        Shape::LongRead { send_id, .. } | Shape::Runt { send_id, .. } => Some(Packet::Eor {
            send_id,
            recv_id: recv,
            connid: own,
        }),
        Shape::Eager | Shape::Medium | Shape::LongCts { .. } => receipt(own, head, number),
    }
}

/// The receipt of a message, if its sender waits for one.
#[tactic(auto, unfolding(rdm_model::specs::Replies::receipt_for))]
fn receipt(own: Connid, head: &Head, number: MsgNo) -> Option<Packet>
    ensures { IsOnlyPacket own result (λ life. receipt_for life head.now.confirm number) }
{
    head.confirm.then_some(Packet::Receipt {
        no: number,
        connid: own,
    })
}
