//! Rows of packets that open a message and carry its bytes.
use super::Row;

/// Whole messages, segments and first parts that ask for grants.
pub const OPENINGS: [Row; 47] = [
    // whole messages in one packet
    (
        "40040480 00000000 07000000",
        Some(
            "Rtm { no: MsgNo(0), tag: None, confirm: false, opt: Opt { raw: None, cq_data: None, connid: Some(7) }, form: Eager { bytes: Bytes { items: [] } } }",
        ),
    ),
    (
        "40040680 ffffffff 0000000000000000 ffffffff 09",
        Some(
            "Rtm { no: MsgNo(4294967295), tag: None, confirm: false, opt: Opt { raw: None, cq_data: Some(0), connid: Some(4294967295) }, form: Eager { bytes: Bytes { items: [9] } } }",
        ),
    ),
    (
        "40040500 01000000 20000000 03000000 000000000000000000000000 0100 0000 00000000 0000000000000000",
        Some(
            "Rtm { no: MsgNo(1), tag: None, confirm: false, opt: Opt { raw: Some((3, 0)), cq_data: None, connid: None }, form: Eager { bytes: Bytes { items: [] } } }",
        ),
    ),
    (
        "41040900 00000000 0700000000000000 20000000 00000000 000000000000000000000000 0100 0000 05000000 0000000000000000 68656c6c6f",
        Some(
            "Rtm { no: MsgNo(0), tag: Some(7), confirm: false, opt: Opt { raw: Some((0, 5)), cq_data: None, connid: None }, form: Eager { bytes: Bytes { items: [104, 101, 108, 108, 111] } } }",
        ),
    ),
    (
        "41040b00 02000000 ffffffffffffffff 20000000 ffffffff 000000000000000000000000 0100 0000 feffffff 0000000000000000 fdffffffffffffff",
        Some(
            "Rtm { no: MsgNo(2), tag: Some(18446744073709551615), confirm: false, opt: Opt { raw: Some((4294967295, 4294967294)), cq_data: Some(18446744073709551613), connid: None }, form: Eager { bytes: Bytes { items: [] } } }",
        ),
    ),
    (
        "41040880 03000000 0000000000000000 00000000 00ff",
        Some(
            "Rtm { no: MsgNo(3), tag: Some(0), confirm: false, opt: Opt { raw: None, cq_data: None, connid: Some(0) }, form: Eager { bytes: Bytes { items: [0, 255] } } }",
        ),
    ),
    // a header too short, or of another version
    ("40040480 00000000 070000", None),
    ("41040880 03000000 0000000000000000 000000", None),
    ("40030480 00000000 07000000", None),
    ("40050480 00000000 07000000", None),
    // both the raw address and the identifier, and neither
    (
        "40040580 01000000 20000000 03000000 000000000000000000000000 0100 0000 00000000 0000000000000000 07000000",
        None,
    ),
    ("40040400 00000000", None),
    // the tag's flag on an untagged type and the other way round, both flags, none of them, and flags that mean nothing
    ("40040880 00000000 0000000000000000 07000000", None),
    ("41040480 00000000 07000000", None),
    ("41040c80 00000000 0000000000000000 07000000", None),
    ("40040080 00000000 07000000", None),
    ("40041480 00000000 07000000", None),
    ("400404c0 00000000 07000000", None),
    // raw addresses with another length, queue number or filling
    (
        "40040500 01000000 1f000000 03000000 000000000000000000000000 0100 0000 00000000 0000000000000000",
        None,
    ),
    (
        "40040500 01000000 20000000 03000000 000000000000000000000001 0100 0000 00000000 0000000000000000",
        None,
    ),
    (
        "40040500 01000000 20000000 03000000 000000000000000000000000 0200 0000 00000000 0000000000000000",
        None,
    ),
    (
        "40040500 01000000 20000000 03000000 000000000000000000000000 0100 0100 00000000 0000000000000000",
        None,
    ),
    (
        "40040500 01000000 20000000 03000000 000000000000000000000000 0100 0000 00000000 0000000000000001",
        None,
    ),
    (
        "40040500 01000000 20000000 03000000 000000000000000000000000 0100 0000 00000000 00000000000000",
        None,
    ),
    // segments
    (
        "42040480 00000000 0100000000000000 0000000000000000 07000000 09",
        Some(
            "Rtm { no: MsgNo(0), tag: None, confirm: false, opt: Opt { raw: None, cq_data: None, connid: Some(7) }, form: Medium { msg_length: 1, offset: 0, bytes: Bytes { items: [9] } } }",
        ),
    ),
    (
        "42040480 00000000 ffffffffffffffff feffffffffffffff 07000000 09",
        Some(
            "Rtm { no: MsgNo(0), tag: None, confirm: false, opt: Opt { raw: None, cq_data: None, connid: Some(7) }, form: Medium { msg_length: 18446744073709551615, offset: 18446744073709551614, bytes: Bytes { items: [9] } } }",
        ),
    ),
    (
        "43040b00 01000000 0500000000000000 0200000000000000 0900000000000000 20000000 01000000 000000000000000000000000 0100 0000 02000000 0000000000000000 0300000000000000 616263",
        Some(
            "Rtm { no: MsgNo(1), tag: Some(9), confirm: false, opt: Opt { raw: Some((1, 2)), cq_data: Some(3), connid: None }, form: Medium { msg_length: 5, offset: 2, bytes: Bytes { items: [97, 98, 99] } } }",
        ),
    ),
    (
        "42040480 00000000 0100000000000000 0000000000000000 07000000",
        None,
    ),
    (
        "42040480 00000000 0100000000000000 0100000000000000 07000000 09",
        None,
    ),
    (
        "42040480 00000000 0100000000000000 0000000000000000 07000000 0909",
        None,
    ),
    (
        "42040480 00000000 ffffffffffffffff ffffffffffffffff 07000000 09",
        None,
    ),
    (
        "42030480 00000000 0100000000000000 0000000000000000 07000000 09",
        None,
    ),
    (
        "42040880 00000000 0100000000000000 0000000000000000 0900000000000000 07000000 09",
        None,
    ),
    // first parts that ask for grants
    (
        "44040480 00000000 0200000000000000 00000000 01000000 07000000 09",
        Some(
            "Rtm { no: MsgNo(0), tag: None, confirm: false, opt: Opt { raw: None, cq_data: None, connid: Some(7) }, form: LongCts { msg_length: 2, send_id: OpId(0), credit_request: 1, bytes: Bytes { items: [9] } } }",
        ),
    ),
    (
        "45040a80 01000000 ffffffffffffffff ffffffff feffffff 0900000000000000 0300000000000000 07000000 0908",
        Some(
            "Rtm { no: MsgNo(1), tag: Some(9), confirm: false, opt: Opt { raw: None, cq_data: Some(3), connid: Some(7) }, form: LongCts { msg_length: 18446744073709551615, send_id: OpId(4294967295), credit_request: 4294967294, bytes: Bytes { items: [9, 8] } } }",
        ),
    ),
    (
        "44040480 00000000 0100000000000000 00000000 01000000 07000000 09",
        None,
    ),
    (
        "44040480 00000000 0200000000000000 00000000 01000000 07000000 090807",
        None,
    ),
    (
        "44040480 00000000 0200000000000000 00000000 01000000 07000000",
        None,
    ),
    (
        "44040480 00000000 0200000000000000 00000000 00000000 07000000 09",
        None,
    ),
    (
        "44030480 00000000 0200000000000000 00000000 01000000 07000000 09",
        None,
    ),
    (
        "45040480 00000000 0200000000000000 00000000 01000000 07000000 09",
        None,
    ),
    // messages whose senders wait for a receipt
    (
        "c9040880 00000000 0700000000000000 05000000 68656c6c6f",
        Some(
            "Rtm { no: MsgNo(0), tag: Some(7), confirm: true, opt: Opt { raw: None, cq_data: None, connid: Some(5) }, form: Eager { bytes: Bytes { items: [104, 101, 108, 108, 111] } } }",
        ),
    ),
    (
        "c8040480 00000000 07000000",
        Some(
            "Rtm { no: MsgNo(0), tag: None, confirm: true, opt: Opt { raw: None, cq_data: None, connid: Some(7) }, form: Eager { bytes: Bytes { items: [] } } }",
        ),
    ),
    (
        "cb040880 01000000 0300000000000000 0200000000000000 0900000000000000 07000000 09",
        Some(
            "Rtm { no: MsgNo(1), tag: Some(9), confirm: true, opt: Opt { raw: None, cq_data: None, connid: Some(7) }, form: Medium { msg_length: 3, offset: 2, bytes: Bytes { items: [9] } } }",
        ),
    ),
    (
        "cc040480 00000000 0200000000000000 00000000 01000000 07000000 09",
        Some(
            "Rtm { no: MsgNo(0), tag: None, confirm: true, opt: Opt { raw: None, cq_data: None, connid: Some(7) }, form: LongCts { msg_length: 2, send_id: OpId(0), credit_request: 1, bytes: Bytes { items: [9] } } }",
        ),
    ),
    // the tagged type without a tag, and the fields of a read
    ("c9040480 00000000 07000000", None),
    (
        "ca040480 00000000 0500000000000000 01000000 01000000 07000000 0200000000000000 0500000000000000 0300000000000000",
        None,
    ),
];
