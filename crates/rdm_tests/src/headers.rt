use rdm_hdr::{
    Base, Opt, append_base, append_bytes, append_opt, append_u16, has_bit, opt_size, read_base,
    read_opt, u16_at, u32_at, u64_at, write_base, write_opt,
};

const RAW: [u8; 36] = [
    32, 0, 0, 0, 2, 1, 0, 0, 0, 0, 0, 0, 0, 0, 0, 0, 0, 0, 0, 0, 1, 0, 0, 0, 5, 0, 0, 0, 0, 0, 0,
    0, 0, 0, 0, 0,
];

#[test]
fn base_header_both_ways(rt: HostRuntime) {
    let base = Base {
        kind: 65,
        version: 4,
        flags: 9,
    };
    let mut to = Vec::new(rt.alloc());
    assert!(rt; write_base(base, &mut to).is_ok());
    assert!(rt; to.as_slice() == [0x41, 0x04, 0x09, 0x00].as_slice());
    assert!(rt; read_base(&to) == Some(base));
    assert!(rt; read_base(&to[..3]) == None);
    assert!(rt; to.reserve(4).is_ok());
    append_base(base, &mut to);
    assert!(rt; to.as_slice() == [65, 4, 9, 0, 65, 4, 9, 0].as_slice());
}

#[test]
fn identifier_and_cq_data_both_ways(rt: HostRuntime) {
    let opt = Opt {
        raw: None,
        cq_data: Some(1),
        connid: Some(5),
    };
    let mut to = Vec::new(rt.alloc());
    assert!(rt; write_opt(&opt, &mut to).is_ok());
    assert!(rt; to.as_slice() == [1, 0, 0, 0, 0, 0, 0, 0, 5, 0, 0, 0].as_slice());
    assert!(rt; read_opt(0x8002, &to) == Some((opt, 12)));
    assert!(rt; read_opt(0x8002, &to[..11]) == None);
    assert!(rt; opt_size(&opt) == 12);
}

#[test]
fn raw_address_both_ways(rt: HostRuntime) {
    let opt = Opt {
        raw: Some((258, 5)),
        cq_data: None,
        connid: None,
    };
    let mut to = Vec::new(rt.alloc());
    assert!(rt; to.reserve(opt_size(&opt)).is_ok());
    append_opt(&opt, &mut to);
    assert!(rt; to.as_slice() == RAW.as_slice());
    assert!(rt; read_opt(0x0009, &RAW) == Some((opt, 36)));
    assert!(rt; read_opt(0x0009, &RAW[..35]) == None);
}

/// A length other than 32, a name that goes on, another queue number, and anything but zeros at the end.
#[test]
fn other_raw_addresses(rt: HostRuntime) {
    for place in [0, 1, 8, 19, 20, 21, 22, 23, 28, 35] {
        let mut bytes = RAW;
        bytes[place] ^= 1;
        assert!(rt; read_opt(1, &bytes) == None, "at {place}");
    }
}

#[test]
fn no_optional_header(rt: HostRuntime) {
    let none = Opt {
        raw: None,
        cq_data: None,
        connid: None,
    };
    assert!(rt; read_opt(0x000c, &[]) == Some((none, 0)));
}

#[test]
fn numbers(rt: HostRuntime) {
    let bytes = [1, 2, 0, 0, 0, 0, 0, 0, 1];
    assert!(rt; u16_at(&bytes, 0) == 513);
    assert!(rt; u32_at(&bytes, 1) == 2);
    assert!(rt; u64_at(&bytes, 1) == 0x0100_0000_0000_0002);
    assert!(rt; has_bit(15, 0x8000));
    assert!(rt; !has_bit(14, 0x8000));
    let mut to = Vec::new(rt.alloc());
    assert!(rt; to.reserve(4).is_ok());
    append_bytes(&mut to, b"ab");
    append_u16(&mut to, 513);
    assert!(rt; to.as_slice() == [97, 98, 1, 2].as_slice());
}
