//! Packets that open a message: each form with and without a tag, CQ data and the raw address.
use super::Row;

/// Two bytes of a message of six, or its read list of two ranges.
pub const COMBINATIONS: [Row; 40] = [
    (
        "40040480 02000000 07000000 6162",
        Some(
            "Rtm { no: MsgNo(2), tag: None, confirm: false, opt: Opt { raw: None, cq_data: None, connid: Some(7) }, form: Eager { bytes: Bytes { items: [97, 98] } } }",
        ),
    ),
    (
        "40040500 02000000 20000000 01000000 000000000000000000000000 0100 0000 09000000 0000000000000000 6162",
        Some(
            "Rtm { no: MsgNo(2), tag: None, confirm: false, opt: Opt { raw: Some((1, 9)), cq_data: None, connid: None }, form: Eager { bytes: Bytes { items: [97, 98] } } }",
        ),
    ),
    (
        "40040680 02000000 0a00000000000000 07000000 6162",
        Some(
            "Rtm { no: MsgNo(2), tag: None, confirm: false, opt: Opt { raw: None, cq_data: Some(10), connid: Some(7) }, form: Eager { bytes: Bytes { items: [97, 98] } } }",
        ),
    ),
    (
        "40040700 02000000 20000000 01000000 000000000000000000000000 0100 0000 09000000 0000000000000000 0a00000000000000 6162",
        Some(
            "Rtm { no: MsgNo(2), tag: None, confirm: false, opt: Opt { raw: Some((1, 9)), cq_data: Some(10), connid: None }, form: Eager { bytes: Bytes { items: [97, 98] } } }",
        ),
    ),
    (
        "41040880 02000000 0807060504030201 07000000 6162",
        Some(
            "Rtm { no: MsgNo(2), tag: Some(72623859790382856), confirm: false, opt: Opt { raw: None, cq_data: None, connid: Some(7) }, form: Eager { bytes: Bytes { items: [97, 98] } } }",
        ),
    ),
    (
        "41040900 02000000 0807060504030201 20000000 01000000 000000000000000000000000 0100 0000 09000000 0000000000000000 6162",
        Some(
            "Rtm { no: MsgNo(2), tag: Some(72623859790382856), confirm: false, opt: Opt { raw: Some((1, 9)), cq_data: None, connid: None }, form: Eager { bytes: Bytes { items: [97, 98] } } }",
        ),
    ),
    (
        "41040a80 02000000 0807060504030201 0a00000000000000 07000000 6162",
        Some(
            "Rtm { no: MsgNo(2), tag: Some(72623859790382856), confirm: false, opt: Opt { raw: None, cq_data: Some(10), connid: Some(7) }, form: Eager { bytes: Bytes { items: [97, 98] } } }",
        ),
    ),
    (
        "41040b00 02000000 0807060504030201 20000000 01000000 000000000000000000000000 0100 0000 09000000 0000000000000000 0a00000000000000 6162",
        Some(
            "Rtm { no: MsgNo(2), tag: Some(72623859790382856), confirm: false, opt: Opt { raw: Some((1, 9)), cq_data: Some(10), connid: None }, form: Eager { bytes: Bytes { items: [97, 98] } } }",
        ),
    ),
    (
        "42040480 02000000 0600000000000000 0400000000000000 07000000 6162",
        Some(
            "Rtm { no: MsgNo(2), tag: None, confirm: false, opt: Opt { raw: None, cq_data: None, connid: Some(7) }, form: Medium { msg_length: 6, offset: 4, bytes: Bytes { items: [97, 98] } } }",
        ),
    ),
    (
        "42040500 02000000 0600000000000000 0400000000000000 20000000 01000000 000000000000000000000000 0100 0000 09000000 0000000000000000 6162",
        Some(
            "Rtm { no: MsgNo(2), tag: None, confirm: false, opt: Opt { raw: Some((1, 9)), cq_data: None, connid: None }, form: Medium { msg_length: 6, offset: 4, bytes: Bytes { items: [97, 98] } } }",
        ),
    ),
    (
        "42040680 02000000 0600000000000000 0400000000000000 0a00000000000000 07000000 6162",
        Some(
            "Rtm { no: MsgNo(2), tag: None, confirm: false, opt: Opt { raw: None, cq_data: Some(10), connid: Some(7) }, form: Medium { msg_length: 6, offset: 4, bytes: Bytes { items: [97, 98] } } }",
        ),
    ),
    (
        "42040700 02000000 0600000000000000 0400000000000000 20000000 01000000 000000000000000000000000 0100 0000 09000000 0000000000000000 0a00000000000000 6162",
        Some(
            "Rtm { no: MsgNo(2), tag: None, confirm: false, opt: Opt { raw: Some((1, 9)), cq_data: Some(10), connid: None }, form: Medium { msg_length: 6, offset: 4, bytes: Bytes { items: [97, 98] } } }",
        ),
    ),
    (
        "43040880 02000000 0600000000000000 0400000000000000 0807060504030201 07000000 6162",
        Some(
            "Rtm { no: MsgNo(2), tag: Some(72623859790382856), confirm: false, opt: Opt { raw: None, cq_data: None, connid: Some(7) }, form: Medium { msg_length: 6, offset: 4, bytes: Bytes { items: [97, 98] } } }",
        ),
    ),
    (
        "43040900 02000000 0600000000000000 0400000000000000 0807060504030201 20000000 01000000 000000000000000000000000 0100 0000 09000000 0000000000000000 6162",
        Some(
            "Rtm { no: MsgNo(2), tag: Some(72623859790382856), confirm: false, opt: Opt { raw: Some((1, 9)), cq_data: None, connid: None }, form: Medium { msg_length: 6, offset: 4, bytes: Bytes { items: [97, 98] } } }",
        ),
    ),
    (
        "43040a80 02000000 0600000000000000 0400000000000000 0807060504030201 0a00000000000000 07000000 6162",
        Some(
            "Rtm { no: MsgNo(2), tag: Some(72623859790382856), confirm: false, opt: Opt { raw: None, cq_data: Some(10), connid: Some(7) }, form: Medium { msg_length: 6, offset: 4, bytes: Bytes { items: [97, 98] } } }",
        ),
    ),
    (
        "43040b00 02000000 0600000000000000 0400000000000000 0807060504030201 20000000 01000000 000000000000000000000000 0100 0000 09000000 0000000000000000 0a00000000000000 6162",
        Some(
            "Rtm { no: MsgNo(2), tag: Some(72623859790382856), confirm: false, opt: Opt { raw: Some((1, 9)), cq_data: Some(10), connid: None }, form: Medium { msg_length: 6, offset: 4, bytes: Bytes { items: [97, 98] } } }",
        ),
    ),
    (
        "44040480 02000000 0600000000000000 05000000 03000000 07000000 6162",
        Some(
            "Rtm { no: MsgNo(2), tag: None, confirm: false, opt: Opt { raw: None, cq_data: None, connid: Some(7) }, form: LongCts { msg_length: 6, send_id: OpId(5), credit_request: 3, bytes: Bytes { items: [97, 98] } } }",
        ),
    ),
    (
        "44040500 02000000 0600000000000000 05000000 03000000 20000000 01000000 000000000000000000000000 0100 0000 09000000 0000000000000000 6162",
        Some(
            "Rtm { no: MsgNo(2), tag: None, confirm: false, opt: Opt { raw: Some((1, 9)), cq_data: None, connid: None }, form: LongCts { msg_length: 6, send_id: OpId(5), credit_request: 3, bytes: Bytes { items: [97, 98] } } }",
        ),
    ),
    (
        "44040680 02000000 0600000000000000 05000000 03000000 0a00000000000000 07000000 6162",
        Some(
            "Rtm { no: MsgNo(2), tag: None, confirm: false, opt: Opt { raw: None, cq_data: Some(10), connid: Some(7) }, form: LongCts { msg_length: 6, send_id: OpId(5), credit_request: 3, bytes: Bytes { items: [97, 98] } } }",
        ),
    ),
    (
        "44040700 02000000 0600000000000000 05000000 03000000 20000000 01000000 000000000000000000000000 0100 0000 09000000 0000000000000000 0a00000000000000 6162",
        Some(
            "Rtm { no: MsgNo(2), tag: None, confirm: false, opt: Opt { raw: Some((1, 9)), cq_data: Some(10), connid: None }, form: LongCts { msg_length: 6, send_id: OpId(5), credit_request: 3, bytes: Bytes { items: [97, 98] } } }",
        ),
    ),
    (
        "45040880 02000000 0600000000000000 05000000 03000000 0807060504030201 07000000 6162",
        Some(
            "Rtm { no: MsgNo(2), tag: Some(72623859790382856), confirm: false, opt: Opt { raw: None, cq_data: None, connid: Some(7) }, form: LongCts { msg_length: 6, send_id: OpId(5), credit_request: 3, bytes: Bytes { items: [97, 98] } } }",
        ),
    ),
    (
        "45040900 02000000 0600000000000000 05000000 03000000 0807060504030201 20000000 01000000 000000000000000000000000 0100 0000 09000000 0000000000000000 6162",
        Some(
            "Rtm { no: MsgNo(2), tag: Some(72623859790382856), confirm: false, opt: Opt { raw: Some((1, 9)), cq_data: None, connid: None }, form: LongCts { msg_length: 6, send_id: OpId(5), credit_request: 3, bytes: Bytes { items: [97, 98] } } }",
        ),
    ),
    (
        "45040a80 02000000 0600000000000000 05000000 03000000 0807060504030201 0a00000000000000 07000000 6162",
        Some(
            "Rtm { no: MsgNo(2), tag: Some(72623859790382856), confirm: false, opt: Opt { raw: None, cq_data: Some(10), connid: Some(7) }, form: LongCts { msg_length: 6, send_id: OpId(5), credit_request: 3, bytes: Bytes { items: [97, 98] } } }",
        ),
    ),
    (
        "45040b00 02000000 0600000000000000 05000000 03000000 0807060504030201 20000000 01000000 000000000000000000000000 0100 0000 09000000 0000000000000000 0a00000000000000 6162",
        Some(
            "Rtm { no: MsgNo(2), tag: Some(72623859790382856), confirm: false, opt: Opt { raw: Some((1, 9)), cq_data: Some(10), connid: None }, form: LongCts { msg_length: 6, send_id: OpId(5), credit_request: 3, bytes: Bytes { items: [97, 98] } } }",
        ),
    ),
    (
        "80040480 02000000 0600000000000000 05000000 02000000 07000000 0100000000000000 0400000000000000 0800000000000000 0700000000000000 0200000000000000 0900000000000000",
        Some(
            "Rtm { no: MsgNo(2), tag: None, confirm: false, opt: Opt { raw: None, cq_data: None, connid: Some(7) }, form: LongRead { msg_length: 6, send_id: OpId(5), iov: Iov { items: [IovEntry { offset: 1, length: 4, key: 8 }, IovEntry { offset: 7, length: 2, key: 9 }] } } }",
        ),
    ),
    (
        "80040500 02000000 0600000000000000 05000000 02000000 20000000 01000000 000000000000000000000000 0100 0000 09000000 0000000000000000 0100000000000000 0400000000000000 0800000000000000 0700000000000000 0200000000000000 0900000000000000",
        Some(
            "Rtm { no: MsgNo(2), tag: None, confirm: false, opt: Opt { raw: Some((1, 9)), cq_data: None, connid: None }, form: LongRead { msg_length: 6, send_id: OpId(5), iov: Iov { items: [IovEntry { offset: 1, length: 4, key: 8 }, IovEntry { offset: 7, length: 2, key: 9 }] } } }",
        ),
    ),
    (
        "80040680 02000000 0600000000000000 05000000 02000000 0a00000000000000 07000000 0100000000000000 0400000000000000 0800000000000000 0700000000000000 0200000000000000 0900000000000000",
        Some(
            "Rtm { no: MsgNo(2), tag: None, confirm: false, opt: Opt { raw: None, cq_data: Some(10), connid: Some(7) }, form: LongRead { msg_length: 6, send_id: OpId(5), iov: Iov { items: [IovEntry { offset: 1, length: 4, key: 8 }, IovEntry { offset: 7, length: 2, key: 9 }] } } }",
        ),
    ),
    (
        "80040700 02000000 0600000000000000 05000000 02000000 20000000 01000000 000000000000000000000000 0100 0000 09000000 0000000000000000 0a00000000000000 0100000000000000 0400000000000000 0800000000000000 0700000000000000 0200000000000000 0900000000000000",
        Some(
            "Rtm { no: MsgNo(2), tag: None, confirm: false, opt: Opt { raw: Some((1, 9)), cq_data: Some(10), connid: None }, form: LongRead { msg_length: 6, send_id: OpId(5), iov: Iov { items: [IovEntry { offset: 1, length: 4, key: 8 }, IovEntry { offset: 7, length: 2, key: 9 }] } } }",
        ),
    ),
    (
        "81040880 02000000 0600000000000000 05000000 02000000 0807060504030201 07000000 0100000000000000 0400000000000000 0800000000000000 0700000000000000 0200000000000000 0900000000000000",
        Some(
            "Rtm { no: MsgNo(2), tag: Some(72623859790382856), confirm: false, opt: Opt { raw: None, cq_data: None, connid: Some(7) }, form: LongRead { msg_length: 6, send_id: OpId(5), iov: Iov { items: [IovEntry { offset: 1, length: 4, key: 8 }, IovEntry { offset: 7, length: 2, key: 9 }] } } }",
        ),
    ),
    (
        "81040900 02000000 0600000000000000 05000000 02000000 0807060504030201 20000000 01000000 000000000000000000000000 0100 0000 09000000 0000000000000000 0100000000000000 0400000000000000 0800000000000000 0700000000000000 0200000000000000 0900000000000000",
        Some(
            "Rtm { no: MsgNo(2), tag: Some(72623859790382856), confirm: false, opt: Opt { raw: Some((1, 9)), cq_data: None, connid: None }, form: LongRead { msg_length: 6, send_id: OpId(5), iov: Iov { items: [IovEntry { offset: 1, length: 4, key: 8 }, IovEntry { offset: 7, length: 2, key: 9 }] } } }",
        ),
    ),
    (
        "81040a80 02000000 0600000000000000 05000000 02000000 0807060504030201 0a00000000000000 07000000 0100000000000000 0400000000000000 0800000000000000 0700000000000000 0200000000000000 0900000000000000",
        Some(
            "Rtm { no: MsgNo(2), tag: Some(72623859790382856), confirm: false, opt: Opt { raw: None, cq_data: Some(10), connid: Some(7) }, form: LongRead { msg_length: 6, send_id: OpId(5), iov: Iov { items: [IovEntry { offset: 1, length: 4, key: 8 }, IovEntry { offset: 7, length: 2, key: 9 }] } } }",
        ),
    ),
    (
        "81040b00 02000000 0600000000000000 05000000 02000000 0807060504030201 20000000 01000000 000000000000000000000000 0100 0000 09000000 0000000000000000 0a00000000000000 0100000000000000 0400000000000000 0800000000000000 0700000000000000 0200000000000000 0900000000000000",
        Some(
            "Rtm { no: MsgNo(2), tag: Some(72623859790382856), confirm: false, opt: Opt { raw: Some((1, 9)), cq_data: Some(10), connid: None }, form: LongRead { msg_length: 6, send_id: OpId(5), iov: Iov { items: [IovEntry { offset: 1, length: 4, key: 8 }, IovEntry { offset: 7, length: 2, key: 9 }] } } }",
        ),
    ),
    (
        "c0040480 02000000 0600000000000000 05000000 02000000 0500000000000000 0100000000000000 07000000 0100000000000000 0400000000000000 0800000000000000 0700000000000000 0200000000000000 0900000000000000 6162",
        Some(
            "Rtm { no: MsgNo(2), tag: None, confirm: false, opt: Opt { raw: None, cq_data: None, connid: Some(7) }, form: Runt { msg_length: 6, send_id: OpId(5), iov: Iov { items: [IovEntry { offset: 1, length: 4, key: 8 }, IovEntry { offset: 7, length: 2, key: 9 }] }, runt_length: 5, offset: 1, bytes: Bytes { items: [97, 98] } } }",
        ),
    ),
    (
        "c0040500 02000000 0600000000000000 05000000 02000000 0500000000000000 0100000000000000 20000000 01000000 000000000000000000000000 0100 0000 09000000 0000000000000000 0100000000000000 0400000000000000 0800000000000000 0700000000000000 0200000000000000 0900000000000000 6162",
        Some(
            "Rtm { no: MsgNo(2), tag: None, confirm: false, opt: Opt { raw: Some((1, 9)), cq_data: None, connid: None }, form: Runt { msg_length: 6, send_id: OpId(5), iov: Iov { items: [IovEntry { offset: 1, length: 4, key: 8 }, IovEntry { offset: 7, length: 2, key: 9 }] }, runt_length: 5, offset: 1, bytes: Bytes { items: [97, 98] } } }",
        ),
    ),
    (
        "c0040680 02000000 0600000000000000 05000000 02000000 0500000000000000 0100000000000000 0a00000000000000 07000000 0100000000000000 0400000000000000 0800000000000000 0700000000000000 0200000000000000 0900000000000000 6162",
        Some(
            "Rtm { no: MsgNo(2), tag: None, confirm: false, opt: Opt { raw: None, cq_data: Some(10), connid: Some(7) }, form: Runt { msg_length: 6, send_id: OpId(5), iov: Iov { items: [IovEntry { offset: 1, length: 4, key: 8 }, IovEntry { offset: 7, length: 2, key: 9 }] }, runt_length: 5, offset: 1, bytes: Bytes { items: [97, 98] } } }",
        ),
    ),
    (
        "c0040700 02000000 0600000000000000 05000000 02000000 0500000000000000 0100000000000000 20000000 01000000 000000000000000000000000 0100 0000 09000000 0000000000000000 0a00000000000000 0100000000000000 0400000000000000 0800000000000000 0700000000000000 0200000000000000 0900000000000000 6162",
        Some(
            "Rtm { no: MsgNo(2), tag: None, confirm: false, opt: Opt { raw: Some((1, 9)), cq_data: Some(10), connid: None }, form: Runt { msg_length: 6, send_id: OpId(5), iov: Iov { items: [IovEntry { offset: 1, length: 4, key: 8 }, IovEntry { offset: 7, length: 2, key: 9 }] }, runt_length: 5, offset: 1, bytes: Bytes { items: [97, 98] } } }",
        ),
    ),
    (
        "c1040880 02000000 0600000000000000 05000000 02000000 0500000000000000 0100000000000000 0807060504030201 07000000 0100000000000000 0400000000000000 0800000000000000 0700000000000000 0200000000000000 0900000000000000 6162",
        Some(
            "Rtm { no: MsgNo(2), tag: Some(72623859790382856), confirm: false, opt: Opt { raw: None, cq_data: None, connid: Some(7) }, form: Runt { msg_length: 6, send_id: OpId(5), iov: Iov { items: [IovEntry { offset: 1, length: 4, key: 8 }, IovEntry { offset: 7, length: 2, key: 9 }] }, runt_length: 5, offset: 1, bytes: Bytes { items: [97, 98] } } }",
        ),
    ),
    (
        "c1040900 02000000 0600000000000000 05000000 02000000 0500000000000000 0100000000000000 0807060504030201 20000000 01000000 000000000000000000000000 0100 0000 09000000 0000000000000000 0100000000000000 0400000000000000 0800000000000000 0700000000000000 0200000000000000 0900000000000000 6162",
        Some(
            "Rtm { no: MsgNo(2), tag: Some(72623859790382856), confirm: false, opt: Opt { raw: Some((1, 9)), cq_data: None, connid: None }, form: Runt { msg_length: 6, send_id: OpId(5), iov: Iov { items: [IovEntry { offset: 1, length: 4, key: 8 }, IovEntry { offset: 7, length: 2, key: 9 }] }, runt_length: 5, offset: 1, bytes: Bytes { items: [97, 98] } } }",
        ),
    ),
    (
        "c1040a80 02000000 0600000000000000 05000000 02000000 0500000000000000 0100000000000000 0807060504030201 0a00000000000000 07000000 0100000000000000 0400000000000000 0800000000000000 0700000000000000 0200000000000000 0900000000000000 6162",
        Some(
            "Rtm { no: MsgNo(2), tag: Some(72623859790382856), confirm: false, opt: Opt { raw: None, cq_data: Some(10), connid: Some(7) }, form: Runt { msg_length: 6, send_id: OpId(5), iov: Iov { items: [IovEntry { offset: 1, length: 4, key: 8 }, IovEntry { offset: 7, length: 2, key: 9 }] }, runt_length: 5, offset: 1, bytes: Bytes { items: [97, 98] } } }",
        ),
    ),
    (
        "c1040b00 02000000 0600000000000000 05000000 02000000 0500000000000000 0100000000000000 0807060504030201 20000000 01000000 000000000000000000000000 0100 0000 09000000 0000000000000000 0a00000000000000 0100000000000000 0400000000000000 0800000000000000 0700000000000000 0200000000000000 0900000000000000 6162",
        Some(
            "Rtm { no: MsgNo(2), tag: Some(72623859790382856), confirm: false, opt: Opt { raw: Some((1, 9)), cq_data: Some(10), connid: None }, form: Runt { msg_length: 6, send_id: OpId(5), iov: Iov { items: [IovEntry { offset: 1, length: 4, key: 8 }, IovEntry { offset: 7, length: 2, key: 9 }] }, runt_length: 5, offset: 1, bytes: Bytes { items: [97, 98] } } }",
        ),
    ),
];
