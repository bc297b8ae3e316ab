//! What is tested of `shard_codec`.
ghost use Rattle.std.specs.Prelude.{◌<◌};

use crate::fixtures::{Dim, hierarchy};
use dim_hierarchy::{ConceptId, Coord, Hierarchy, Row};
use shard_codec::{CodecFault, decode, encode, text_laws};
use std::alloc::{AllocError, Global};
use std::process::Abort;
use std::test::Fail;

/// A country and a city.
const ONE_CITY: [Dim; 1] = [("geo", 2, &[["-", "de"], ["de", "berlin"]])];

/// One row with the number 3 and the measure -2, at the first concept of level 2.
const BYTES: [u8; 37] = [
    0x56, 0x4f, 0x4c, 0x41, 0x50, 0x54, 0x52, 0x31, 1, 0, 0, 0, 0, 0, 0, 0, 1, 0, 0, 0, 0, 0, 0, 0,
    3, 0x20, 0, 0, 0, 0xff, 0xff, 0xff, 0xff, 0xff, 0xff, 0xff, 0xfe,
];

/// A row at a concept of the only dimension.
fn row_at(no: u64, id: u32, measures: i64) -> Row {
    let mut at = [ConceptId::ALL; 8];
    at[0] = ConceptId(id);
    Row {
        no,
        at: Coord { at },
        measures,
    }
}

/// The bytes with another one at a place.
fn changed(at: usize, to: u8) -> [u8; 37]
    requires { at < 37 }
{
    let mut bytes = BYTES;
    bytes[at] = to;
    bytes
}

/// Compares the text of rows.
fn expect_text<R: Abort>(
    rt: &R,
    alloc: Global,
    rows: &[Row],
    text: &[u8],
) -> Result<(), AllocError> {
    let bytes = encode(alloc, 1, rows)?;
    assert_eq!(rt; bytes.as_slice(), text);
    Ok(())
}

/// Compares the rows of a text.
fn expect_rows<R: Abort>(
    rt: &R,
    alloc: Global,
    h: &Hierarchy,
    text: &[u8],
    rows: &[Row],
) -> Result<(), CodecFault> {
    let read = decode(alloc, text, h)?;
    assert_eq!(rt; read.as_slice(), rows);
    Ok(())
}

/// Compares the fault of a text.
fn expect_fault<R: Abort>(rt: &R, alloc: Global, h: &Hierarchy, text: &[u8], fault: CodecFault) {
    assert_eq!(rt; decode(alloc, text, h).err(), Some(fault));
}

#[test]
fn a_row_has_its_bytes(rt: HostRuntime) -> Result<(), Fail> {
    const NONE: &[u8] = b"VOLAPTR1\x01\0\0\0\0\0\0\0\0";
    text_laws();
    let alloc = rt.alloc();
    let rows = [row_at(3, 0x2000_0000, -2)];
    expect_text(&rt, alloc, &rows, &BYTES)?;
    expect_text(&rt, alloc, &[], NONE)?;
    let h = hierarchy(alloc, &ONE_CITY)?;
    expect_rows(&rt, alloc, &h, &BYTES, &rows)?;
    expect_rows(&rt, alloc, &h, NONE, &[])?;
    Ok(())
}

#[test]
fn the_first_fault_is_told(rt: HostRuntime) -> Result<(), Fail> {
    let alloc = rt.alloc();
    let h = &hierarchy(alloc, &ONE_CITY)?;
    expect_fault(&rt, alloc, h, b"VOLAP", CodecFault::Short { len: 5 });
    expect_fault(&rt, alloc, h, &changed(0, 0x57), CodecFault::BadMark);
    let count = CodecFault::BadCount { told: 2, dims: 1 };
    expect_fault(&rt, alloc, h, &changed(8, 2), count);
    let inner = CodecFault::BadConcept {
        at: 25,
        id: 0x1000_0000,
    };
    expect_fault(&rt, alloc, h, &changed(25, 0x10), inner);
    let none = CodecFault::BadConcept {
        at: 25,
        id: 0x2000_0001,
    };
    expect_fault(&rt, alloc, h, &changed(28, 1), none);
    let mut longer = [0; 38];
    longer[..37].copy_from_slice(&BYTES);
    expect_fault(&rt, alloc, h, &longer, CodecFault::Trailing { at: 37 });
    Ok(())
}

#[test]
fn a_cut_text_is_short(rt: HostRuntime) -> Result<(), Fail> {
    let h = hierarchy(rt.alloc(), &ONE_CITY)?;
    for len in 0..37_usize {
        let fault = CodecFault::Short { len: len as u64 };
        expect_fault(&rt, rt.alloc(), &h, &BYTES[..len], fault);
    }
    Ok(())
}

/// The bytes with another count of rows.
fn counted(count: u64) -> [u8; 37] {
    let mut bytes = BYTES;
    bytes[9..17].copy_from_slice(&count.to_be_bytes());
    bytes
}

/// Rows that are only told of take no memory: it is asked for none that cannot be had.
#[test]
fn a_count_is_not_believed(rt: HostRuntime) -> Result<(), Fail> {
    const CASES: [(u64, CodecFault); 6] = [
        (0, CodecFault::Trailing { at: 17 }),
        (2, CodecFault::Short { len: 37 }),
        (0x1_0000_0000, CodecFault::Short { len: 37 }),
        (0x0400_0000_0000_0000, CodecFault::Short { len: 37 }),
        (0x8000_0000_0000_0000, CodecFault::Short { len: 37 }),
        (0xffff_ffff_ffff_ffff, CodecFault::Short { len: 37 }),
    ];
    let h = hierarchy(rt.alloc(), &ONE_CITY)?;
    for (count, fault) in &CASES {
        expect_fault(&rt, rt.alloc(), &h, &counted(*count), *fault);
    }
    Ok(())
}

/// What a byte of another value at a place makes of the bytes, if it is not another row.
fn fault_at(at: usize, to: u8) -> Option<CodecFault>
    requires { at < 37 }
{
    match at {
        0..=7 => Some(CodecFault::BadMark),
        8 => Some(CodecFault::BadCount { told: to, dims: 1 }),
        16 if to == 0 => Some(CodecFault::Trailing { at: 17 }),
        9..=16 => Some(CodecFault::Short { len: 37 }),
        25..=28 => {
            let bytes = changed(at, to);
            let id = u32::from_be_bytes([bytes[25], bytes[26], bytes[27], bytes[28]]);
            Some(CodecFault::BadConcept { at: 25, id })
        }
        _ => None,
    }
}

/// Compares what a byte of another value at a place makes of the bytes: another row, whose text they
/// are, or a fault.
fn expect_changed<R: Abort>(
    rt: &R,
    alloc: Global,
    h: &Hierarchy,
    at: usize,
    to: u8,
) -> Result<(), AllocError>
    requires { at < 37 }
{
    let bytes = changed(at, to);
    match decode(alloc, &bytes, h) {
        Ok(rows) => {
            assert_eq!(rt; fault_at(at, to), None);
            assert_ne!(rt; rows.as_slice(), [row_at(3, 0x2000_0000, -2)].as_slice());
            expect_text(rt, alloc, rows.as_slice(), &bytes)
        }
        Err(fault) => {
            assert_eq!(rt; fault_at(at, to), Some(fault));
            Ok(())
        }
    }
}

#[test]
fn a_flipped_bit_is_another_row_or_a_fault(rt: HostRuntime) -> Result<(), Fail> {
    let h = hierarchy(rt.alloc(), &ONE_CITY)?;
    for at in 0..37_usize {
        for bit in 0..8_u32 {
            expect_changed(&rt, rt.alloc(), &h, at, BYTES[at] ^ (1 << bit))?;
        }
    }
    Ok(())
}
