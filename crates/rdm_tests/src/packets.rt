mod table;

use rdm_num::EpLimits;
use rdm_pkt::{Kind, Packet, choose};
use std::alloc::Global;

/// Whether the bytes are read as a packet that is written as those bytes again.
fn is_packet(alloc: Global, bytes: &[u8]) -> bool {
    let Ok(Some(packet)) = Packet::read(alloc, bytes) else {
        return false;
    };
    let mut again = Vec::new(alloc);
    packet.fits() && packet.write(&mut again).is_ok() && again.as_slice() == bytes
}

/// Whether the bytes are a packet, and none with another version, a byte more or a byte less.
fn is_exact(alloc: Global, bytes: &[u8]) -> bool {
    let mut other = Vec::new(alloc);
    if other.extend_from_slice(bytes).is_err() || other.len() < 4 {
        return false;
    }
    other[1] = 3;
    let older = is_packet(alloc, &other);
    other[1] = 4;
    let shorter = is_packet(alloc, &other[..other.len() - 1]);
    let longer = other.push(0).is_err() || is_packet(alloc, &other);
    is_packet(alloc, bytes) && !older && !shorter && !longer
}

/// A grant of 228 bytes from receive 0 for send 0, and what becomes no packet by one change.
#[test]
fn grants(rt: HostRuntime) {
    let alloc = rt.alloc();
    let grant = [
        3, 4, 0, 128, 0, 0, 0, 0, 0, 0, 0, 0, 228, 0, 0, 0, 0, 0, 0, 0, 7, 0, 0, 0,
    ];
    match Packet::read(alloc, &grant) {
        Ok(
            Some(
                Packet::Cts {
                    send_id,
                    recv_id,
                    recv_length,
                    connid,
                },
            ),
        ) => {
            assert!(rt; send_id.0 == 0 && recv_id.0 == 0 && recv_length == 228 && connid.0 == 7);
        }
        _ => assert!(rt; false),
    }
    assert!(rt; is_exact(alloc, &grant));
    let mut empty = grant;
    empty[12] = 0;
    assert!(rt; !is_packet(alloc, &empty));
}

/// The tagged message `hello` from port 0 and identifier 5, in 57 bytes.
#[test]
fn eager(rt: HostRuntime) {
    let alloc = rt.alloc();
    let hello = [
        0x41, 0x04, 0x09, 0x00, 0, 0, 0, 0, 7, 0, 0, 0, 0, 0, 0, 0, 0x20, 0, 0, 0, 0, 0, 0, 0, 0,
        0, 0, 0, 0, 0, 0, 0, 0, 0, 0, 0, 1, 0, 0, 0, 5, 0, 0, 0, 0, 0, 0, 0, 0, 0, 0, 0, 0x68,
        0x65, 0x6c, 0x6c, 0x6f,
    ];
    assert!(rt; is_packet(alloc, &hello));
    assert!(rt; is_packet(alloc, &hello[..52]));
    assert!(rt; !is_packet(alloc, &hello[..51]));
    let mut both = hello;
    both[2] = 0x0d;
    assert!(rt; !is_packet(alloc, &both));
    let mut neither = hello;
    neither[2] = 0x01;
    assert!(rt; !is_packet(alloc, &neither));
    let mut untagged = hello;
    untagged[0] = 0x40;
    assert!(rt; !is_packet(alloc, &untagged));
}

/// A handshake with one word, and others.
#[test]
fn handshakes(rt: HostRuntime) {
    let alloc = rt.alloc();
    let first = [
        9, 4, 0, 0x80, 4, 0, 0, 0, 0x19, 0, 0, 0, 0, 0, 0, 0, 7, 0, 0, 0,
    ];
    assert!(rt; is_exact(alloc, &first));
    let mut none = first;
    none[4] = 3;
    assert!(rt; !is_packet(alloc, &none));
}

/// The other packets that open no message: granted data of one byte, and the end of an operation.
#[test]
fn data_and_ends(rt: HostRuntime) {
    let alloc = rt.alloc();
    let granted = [
        4, 4, 0, 0x80, 1, 0, 0, 0, 1, 0, 0, 0, 0, 0, 0, 0, 0xfe, 0xff, 0xff, 0xff, 0xff, 0xff,
        0xff, 0xff, 7, 0, 0, 0, 9,
    ];
    assert!(rt; is_exact(alloc, &granted));
    let mut far = granted;
    far[16] = 0xff;
    assert!(rt; !is_packet(alloc, &far));
    let mut longer = granted;
    longer[8] = 2;
    assert!(rt; !is_packet(alloc, &longer));
    let end = [7, 4, 0, 0x80, 1, 0, 0, 0, 2, 0, 0, 0, 7, 0, 0, 0];
    assert!(rt; is_exact(alloc, &end));
    let mut flagged = end;
    flagged[2] = 1;
    assert!(rt; !is_packet(alloc, &flagged));
}

/// A first part ahead of a read: two bytes of a message of five, at offset 1 of a first part of three.
#[test]
fn first_parts(rt: HostRuntime) {
    let alloc = rt.alloc();
    let runt = [
        193, 4, 10, 0x80, 0, 0, 0, 0, 5, 0, 0, 0, 0, 0, 0, 0, 1, 0, 0, 0, 1, 0, 0, 0, 3, 0, 0, 0,
        0, 0, 0, 0, 1, 0, 0, 0, 0, 0, 0, 0, 6, 0, 0, 0, 0, 0, 0, 0, 8, 0, 0, 0, 0, 0, 0, 0, 7, 0,
        0, 0, 2, 0, 0, 0, 0, 0, 0, 0, 5, 0, 0, 0, 0, 0, 0, 0, 3, 0, 0, 0, 0, 0, 0, 0, 98, 99,
    ];
    assert!(rt; is_packet(alloc, &runt));
    assert!(rt; is_packet(alloc, &runt[..85]));
    assert!(rt; !is_packet(alloc, &runt[..84]));
    for (place, value) in [
        (2, 8),
        (2, 11),
        (8, 3),
        (8, 6),
        (20, 0),
        (20, 2),
        (24, 2),
        (24, 5),
        (32, 2),
        (68, 4),
    ] {
        let mut other = runt;
        assert!(rt; place < other.len());
        other[place] = value;
        assert!(rt; !is_packet(alloc, &other), "at {place}: {value}");
    }
}

/// Packets at the edges of their conditions: untagged, with the identifier 7.
#[test]
fn edges(rt: HostRuntime) {
    let alloc = rt.alloc();
    let medium = [
        66, 4, 4, 0x80, 0, 0, 0, 0, 3, 0, 0, 0, 0, 0, 0, 0, 2, 0, 0, 0, 0, 0, 0, 0, 7, 0, 0, 0, 9,
    ];
    assert!(rt; is_packet(alloc, &medium));
    assert!(rt; !is_packet(alloc, &medium[..28]));
    let mut past = medium;
    past[16] = 3;
    assert!(rt; !is_packet(alloc, &past));
    let long_cts = [
        68, 4, 4, 0x80, 0, 0, 0, 0, 2, 0, 0, 0, 0, 0, 0, 0, 1, 0, 0, 0, 1, 0, 0, 0, 7, 0, 0, 0, 9,
    ];
    assert!(rt; is_packet(alloc, &long_cts));
    let mut whole = long_cts;
    whole[8] = 1;
    assert!(rt; !is_packet(alloc, &whole));
    let mut creditless = long_cts;
    creditless[20] = 0;
    assert!(rt; !is_packet(alloc, &creditless));
    let long_read = [
        128, 4, 4, 0x80, 0, 0, 0, 0, 5, 0, 0, 0, 0, 0, 0, 0, 1, 0, 0, 0, 1, 0, 0, 0, 7, 0, 0, 0, 2,
        0, 0, 0, 0, 0, 0, 0, 5, 0, 0, 0, 0, 0, 0, 0, 3, 0, 0, 0, 0, 0, 0, 0,
    ];
    assert!(rt; is_exact(alloc, &long_read));
    let mut shorter = long_read;
    shorter[36] = 4;
    assert!(rt; !is_packet(alloc, &shorter));
    let mut listless = long_read;
    listless[20] = 0;
    assert!(rt; !is_packet(alloc, &listless));
    assert!(rt; !is_packet(alloc, &[10, 4, 0, 0x80]));
    assert!(rt; !is_packet(alloc, &[]));
}

#[test]
fn choices(rt: HostRuntime) {
    let limits = EpLimits {
        mtu: 8192,
        medium: 65_536,
        read_limit: 1_048_576,
        runt: 0,
        credits: 32,
        first: 0,
        tx: 64,
        rx: 64,
        early: 64,
        cq: 128,
    };
    assert!(rt;
        matches!(
            choose(8140, true, false, true, 25, None, &limits),
            Kind::Eager
        )
    );
    assert!(rt;
        matches!(
            choose(8141, true, false, true, 25, None, &limits),
            Kind::Medium
        )
    );
    assert!(rt;
        matches!(
            choose(1_048_576, true, false, false, 25, None, &limits),
            Kind::LongCts
        )
    );
    assert!(rt;
        matches!(
            choose(1_048_576, true, false, false, 25, Some(25), &limits),
            Kind::LongRead
        )
    );
}
