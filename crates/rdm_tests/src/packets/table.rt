//! Packets as they stand in bytes: each type at the edges of its row, and bytes that are just outside it.
mod combinations;
mod openings;
mod others;
mod reads;

use combinations::COMBINATIONS;
use openings::OPENINGS;
use others::OTHERS;
use rdm_pkt::Packet;
use reads::READS;
use std::alloc::{AllocError, Global};
use std::process::Abort;
use std::test::Fail;

/// Bytes as hexadecimal digits with gaps between the fields, and the packet that they are, as it is printed.
type Row = (&'static str, Option<&'static str>);

/// The bytes that hexadecimal digits spell.
fn bytes_of(alloc: Global, digits: &str) -> Result<Vec<u8>, AllocError> {
    let mut bytes = Vec::new(alloc);
    let mut high: Option<u8> = None;
    for digit in digits.as_bytes() {
        let value = match digit {
            b'0'..=b'9' => digit - b'0',
            b'a'..=b'f' => digit - b'a' + 10,
            _ => continue,
        };
        match high {
            None => high = Some(value),
            Some(first) => {
                bytes.push(first.wrapping_mul(16).wrapping_add(value))?;
                high = None;
            }
        }
    }
    Ok(bytes)
}

/// The packet that the bytes are, as it is printed, and the bytes that it is written as.
fn read_and_written(alloc: Global, bytes: &[u8]) -> Result<Option<(String, Vec<u8>)>, AllocError> {
    let Some(packet) = Packet::read(alloc, bytes)? else {
        return Ok(None);
    };
    let mut written = Vec::new(alloc);
    if packet.fits() {
        packet.write(&mut written)?;
    }
    Ok(Some((format!(in alloc; "{packet:?}")?, written)))
}

/// Each row's bytes are read as its packet, which is written as these bytes, or are no packet.
fn read_rows(rt: &impl Abort, alloc: Global, rows: &[Row]) -> Result<(), AllocError> {
    for (digits, packet) in rows {
        let bytes = bytes_of(alloc, digits)?;
        match read_and_written(alloc, &bytes)? {
            Some((read, written)) => {
                assert_eq!(rt; Some(read.as_str()), *packet, "{digits}");
                assert_eq!(rt; written, bytes, "{digits}");
            }
            None => assert_eq!(rt; None, *packet, "{digits}"),
        }
    }
    Ok(())
}

#[test]
fn rows_of_grants_data_ends_and_handshakes(rt: HostRuntime) -> Result<(), Fail> {
    read_rows(&rt, rt.alloc(), &OTHERS)?;
    Ok(())
}

#[test]
fn rows_of_openings(rt: HostRuntime) -> Result<(), Fail> {
    read_rows(&rt, rt.alloc(), &OPENINGS)?;
    Ok(())
}

#[test]
fn rows_of_reads(rt: HostRuntime) -> Result<(), Fail> {
    read_rows(&rt, rt.alloc(), &READS)?;
    Ok(())
}

#[test]
fn rows_of_combinations(rt: HostRuntime) -> Result<(), Fail> {
    read_rows(&rt, rt.alloc(), &COMBINATIONS)?;
    Ok(())
}
