//! What is known of every matched receive.
ghost use Rattle.rdm_rx.specs.Laws.{PacketHeadsFit, FirstPartsFit, WindowsFollow, GrantsStayWithin};

/// Each head that a packet carries is one that a receive can take, and the first part that comes
/// with it is not longer than its message. The packets of any run of `grant_next` grant the bytes of
/// a message in a row, and never more than it has.
pub fn receiving_law()
    ensures heads { PacketHeadsFit }
    ensures first { FirstPartsFit }
    ensures windows { WindowsFollow }
    ensures within { GrantsStayWithin }
{}
