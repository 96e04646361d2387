//! What is known of every packet and its bytes.
ghost use Rattle.rdm_pkt.specs.Laws.{OneSpelling, OnePacket};

/// A packet has one spelling at most, and bytes spell one packet at most.
pub fn spellings()
    ensures spelling { OneSpelling }
    ensures packet { OnePacket }
{}
