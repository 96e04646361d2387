mod segments;

use arrayvec::ArrayVec;
use rdm_hdr::Opt;
use rdm_num::{EpLimits, Iov, IovEntry, MsgNo, NoMemory, OpId};
use rdm_pkt::Kind;
use rdm_tx::{Cursor, Message};
use std::alloc::Global;
use std::process::Abort;
use std::test::Fail;

/// The raw address of 0.5.
const RAW: Opt = Opt {
    raw: Some((0, 5)),
    cq_data: None,
    connid: None,
};

/// The identifier of 0.5.
const CONNID: Opt = Opt {
    raw: None,
    cq_data: None,
    connid: Some(5),
};

/// The identifier of 0.5 after the CQ data 9.
const CQ_DATA: Opt = Opt {
    raw: None,
    cq_data: Some(9),
    connid: Some(5),
};

fn limits(mtu: u32) -> EpLimits {
    EpLimits {
        mtu,
        medium: 65_536,
        read_limit: 1_048_576,
        runt: 0,
        credits: 1,
        first: 0,
        tx: 64,
        rx: 64,
        early: 64,
        cq: 128,
    }
}

/// A tagged message whose bytes stand at the start of region 0.
fn message(
    rt: &impl Abort,
    no: u32,
    tag: u64,
    confirm: bool,
    opt: Opt,
    kind: Kind,
    length: u64,
) -> Message {
    let mut iov = ArrayVec::<IovEntry, 4>::new();
    iov.push(IovEntry {
        offset: 0,
        length,
        key: 0,
    });
    Message {
        no: MsgNo(no),
        tag: Some(tag),
        confirm,
        opt,
        send_id: OpId(no),
        iov: Iov::from_array_vec(iov).expect(rt, "there is a range"),
        kind,
    }
}

/// Bytes that differ from their neighbours.
fn content(alloc: Global, length: usize) -> Result<Vec<u8>, NoMemory> {
    let mut bytes = Vec::new(alloc);
    for place in 0..length {
        bytes.push((place % 251) as u8)?;
    }
    Ok(bytes)
}

/// The next packet as it is spelled, or no bytes where none is left.
fn spelled(
    rt: &impl Abort,
    alloc: Global,
    cursor: &mut Cursor,
    limits: &EpLimits,
    message: &Message,
    bytes: &[u8],
) -> Result<Vec<u8>, NoMemory> {
    assert!(rt; limits.mtu >= 256 && message.iov.as_slice().len() <= 4);
    let mut to = Vec::new(alloc);
    if let Some(packet) = cursor.next(alloc, limits, message, bytes)? {
        assert!(rt; packet.fits());
        packet.write(&mut to)?;
    }
    Ok(to)
}

/// One packet of these bytes is given, and then nothing, twice.
fn gives_one(
    rt: &impl Abort,
    alloc: Global,
    message: &Message,
    bytes: &[u8],
    wanted: &[u8],
) -> Result<(), NoMemory> {
    let limits = limits(8_192);
    let mut cursor = Cursor::new();
    for packet in [wanted, b"", b""] {
        let given = spelled(rt, alloc, &mut cursor, &limits, message, bytes)?;
        assert_eq!(rt; given.as_slice(), packet);
    }
    Ok(())
}

#[test]
fn a_whole_message_is_one_packet(rt: HostRuntime) -> Result<(), Fail> {
    let alloc = rt.alloc();
    let addressed = [
        0x41, 0x04, 0x09, 0x00, 0, 0, 0, 0, 7, 0, 0, 0, 0, 0, 0, 0, 0x20, 0, 0, 0, 0, 0, 0, 0, 0,
        0, 0, 0, 0, 0, 0, 0, 0, 0, 0, 0, 1, 0, 0, 0, 5, 0, 0, 0, 0, 0, 0, 0, 0, 0, 0, 0, 0x68,
        0x65, 0x6c, 0x6c, 0x6f,
    ];
    let hello = message(&rt, 0, 7, false, RAW, Kind::Eager, 5);
    gives_one(&rt, alloc, &hello, b"hello", &addressed)?;
    let identified = [
        0x41, 0x04, 0x08, 0x80, 1, 0, 0, 0, 7, 0, 0, 0, 0, 0, 0, 0, 5, 0, 0, 0, 0x68, 0x69,
    ];
    let hi = message(&rt, 1, 7, false, CONNID, Kind::Eager, 2);
    gives_one(&rt, alloc, &hi, b"hi", &identified)?;
    let confirmed = [
        0xc9, 0x04, 0x08, 0x80, 0, 0, 0, 0, 7, 0, 0, 0, 0, 0, 0, 0, 5, 0, 0, 0, 0x68, 0x65, 0x6c,
        0x6c, 0x6f,
    ];
    let hello = message(&rt, 0, 7, true, CONNID, Kind::Eager, 5);
    gives_one(&rt, alloc, &hello, b"hello", &confirmed)?;
    let with_cq_data = [
        0x41, 0x04, 0x0a, 0x80, 2, 0, 0, 0, 7, 0, 0, 0, 0, 0, 0, 0, 9, 0, 0, 0, 0, 0, 0, 0, 5, 0,
        0, 0,
    ];
    let empty = message(&rt, 2, 7, false, CQ_DATA, Kind::Eager, 0);
    gives_one(&rt, alloc, &empty, b"", &with_cq_data)?;
    Ok(())
}

#[test]
fn a_read_is_one_packet(rt: HostRuntime) -> Result<(), Fail> {
    let alloc = rt.alloc();
    let bytes = content(alloc, 2_000)?;
    let wanted = [
        0x81, 0x04, 0x08, 0x80, 1, 0, 0, 0, 0xd0, 7, 0, 0, 0, 0, 0, 0, 1, 0, 0, 0, 1, 0, 0, 0, 2,
        0, 0, 0, 0, 0, 0, 0, 5, 0, 0, 0, 0, 0, 0, 0, 0, 0, 0, 0, 0xd0, 7, 0, 0, 0, 0, 0, 0, 0, 0,
        0, 0, 0, 0, 0, 0,
    ];
    let read = message(&rt, 1, 2, false, CONNID, Kind::LongRead, 2_000);
    gives_one(&rt, alloc, &read, &bytes, &wanted)?;
    Ok(())
}
