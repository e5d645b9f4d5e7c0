// Lines of the built-in layouts, built piece by piece from the tables of the format.
use std::alloc::{AllocError, Global};
use std::iter::repeat_n;

// What stands in a line: these bytes; one byte, so many times; or one of its three blocks.
#[derive(Clone, Copy)]
pub enum Piece {
    Bytes(&'static [u8]),
    Fill(u8, usize),
    Block(usize),
}

// Up to the fields behind the day all records are alike.
pub(crate) const PAYMENT: [Piece; 12] = [
    Piece::Bytes(b"UBT0450000"),
    Piece::Fill(b'x', 35),
    Piece::Bytes(b"000000000017525DKKN20240229"),
    Piece::Fill(b' ', 20),
    Piece::Fill(b'y', 35),
    Piece::Bytes(b"N000"),
    Piece::Fill(b' ', 90),
    Piece::Bytes(b"000"),
    Piece::Block(0),
    Piece::Block(1),
    Piece::Block(2),
    Piece::Fill(b' ', 191),
];

pub(crate) const ADVICE: [Piece; 14] = [
    Piece::Bytes(b"UBT0460101"),
    Piece::Fill(b'x', 35),
    Piece::Bytes(b"000000000017525DKKN20240229"),
    Piece::Fill(b' ', 20),
    Piece::Fill(b'0', 34),
    Piece::Block(0),
    Piece::Block(1),
    Piece::Block(2),
    Piece::Fill(b' ', 145),
    Piece::Fill(b'0', 6),
    Piece::Fill(b' ', 18),
    Piece::Fill(b'0', 28),
    Piece::Bytes(b"20240229"),
    Piece::Fill(b' ', 31),
];

pub(crate) const SHORT_ADVICE: [Piece; 11] = [
    Piece::Bytes(b"UBT0460201"),
    Piece::Fill(b'x', 35),
    Piece::Bytes(b"000000000017525DKKN20240229"),
    Piece::Fill(b' ', 20),
    Piece::Fill(b'0', 34),
    Piece::Fill(b' ', 16),
    Piece::Fill(b'0', 28),
    Piece::Bytes(b"20240229"),
    Piece::Fill(b' ', 31),
    Piece::Fill(b'0', 8),
    Piece::Fill(b' ', 25),
];

pub(crate) const CHEQUE: [Piece; 18] = [
    Piece::Bytes(b"UBT0540101"),
    Piece::Fill(b'x', 35),
    Piece::Bytes(b"000000000017525DKKN20240229"),
    Piece::Fill(b' ', 31),
    Piece::Fill(b'0', 12),
    Piece::Bytes(b"M dkC"),
    Piece::Fill(b' ', 145),
    Piece::Fill(b'0', 6),
    Piece::Fill(b' ', 2),
    Piece::Block(0),
    Piece::Block(1),
    Piece::Block(2),
    Piece::Fill(b' ', 40),
    Piece::Fill(b'0', 29),
    Piece::Fill(b' ', 16),
    Piece::Fill(b'0', 28),
    Piece::Bytes(b"20240229"),
    Piece::Fill(b' ', 31),
];

// A count of two digits, and so many lines of 35 bytes.
fn put_block(line: &mut Vec<u8>, lines: usize) -> Result<(), AllocError> {
    line.push(b'0' + (lines / 10 % 10) as u8)?;
    line.push(b'0' + (lines % 10) as u8)?;
    line.extend(repeat_n(b'z', lines.saturating_mul(35)))
}

// The line of these pieces, its blocks with so many lines.
pub(crate) fn line_of(
    heap: Global,
    pieces: &[Piece],
    counts: [usize; 3],
) -> Result<Vec<u8>, AllocError> {
    let mut line = Vec::new(heap);
    for piece in pieces {
        match piece {
            Piece::Bytes(bytes) => line.extend_from_slice(bytes)?,
            Piece::Fill(b, n) => line.extend(repeat_n(*b, *n))?,
            Piece::Block(i) => put_block(&mut line, counts.get(*i).copied().unwrap_or(0))?,
        }
    }
    Ok(line)
}

// Puts a byte at a place, counted from 1.
pub(crate) fn put(line: &mut [u8], place: usize, b: u8) {
    let at = line.get_mut(place.wrapping_sub(1));
    if let Some(old) = at {
        *old = b;
    }
}
