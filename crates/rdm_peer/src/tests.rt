use crate::Peer;
use rdm_num::MsgNo;
use std::test::Fail;

#[test]
fn a_handshake_is_owed_once(rt: HostRuntime) -> Result<(), Fail> {
    let mut peer = Peer::new(0);
    assert!(rt; !peer.is_met());
    assert!(rt; peer.owes());
    assert!(rt; peer.is_met());
    assert!(rt; !peer.owes());
    Ok(())
}

#[test]
fn the_last_number_is_given_once(rt: HostRuntime) -> Result<(), Fail> {
    let mut peer = Peer::new(4_294_967_295);
    assert!(rt; !peer.is_used_up());
    assert!(rt; peer.take_no() == Some(MsgNo(4_294_967_295)));
    assert!(rt; peer.is_used_up());
    assert!(rt; peer.next_no() == None);
    assert!(rt; peer.take_no() == None);
    Ok(())
}

#[test]
fn numbers_rise_from_the_first(rt: HostRuntime) -> Result<(), Fail> {
    let mut peer = Peer::new(7);
    assert!(rt; peer.next_no() == Some(MsgNo(7)));
    assert!(rt; peer.take_no() == Some(MsgNo(7)));
    assert!(rt; peer.take_no() == Some(MsgNo(8)));
    Ok(())
}

#[test]
fn the_first_words_stay(rt: HostRuntime) -> Result<(), Fail> {
    let mut peer = Peer::new(0);
    assert!(rt; peer.learn(&[]));
    assert!(rt; peer.known() == None);
    assert!(rt; peer.wants_raw());
    assert!(rt; peer.learn(&[25]));
    assert!(rt; !peer.wants_raw());
    assert!(rt; !peer.learn(&[4]));
    assert!(rt; peer.known() == Some(25));
    Ok(())
}

#[test]
fn bit_two_asks_for_the_raw_address(rt: HostRuntime) -> Result<(), Fail> {
    let mut peer = Peer::new(0);
    assert!(rt; peer.learn(&[12, 0]));
    assert!(rt; peer.wants_raw());
    Ok(())
}
