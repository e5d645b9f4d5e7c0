// Bytes are cut into lines at each CR directly followed by LF.
ghost use Rattle.std.specs.Prelude.{◌≡◌, ◌+◌, ◌≤◌, ◌&&◌, ◌==◌, nat_lt, drop, length, option_map, slice_index, take};
ghost use Rattle.files.specs.Lines.{line_end, lines_of, written, Cutting};

use memchr::memchr;
use std::marker::Model;

const CR: u8 = 13;

const LF: u8 = 10;

// How many places are looked at one by one before a CR is searched for. A call of `memchr` takes as
// long as some sixteen of them.
const NEAR: usize = 16;

// How many places behind a lone CR are looked at one by one before the next search.
const WALK: usize = 256;

// Whether LF stands at this index.
fn has_lf(bytes: &[u8], at: usize) -> bool
    ensures { result ≡ (nat_lt at (length bytes.now) && slice_index bytes.now at == 10) }
{
    at < bytes.len() && bytes[at] == LF
}

// The index of the first CR directly followed by LF, byte by byte. Where CRs stand close to each
// other, this is faster than a search for each of them.
#[inline(always)]
fn walked_end(bytes: &[u8]) -> Option<usize>
    ensures { result ≡ line_end bytes.now }
{
    let mut i = 0;
    while i + 1 < bytes.len() {
        if bytes[i] == CR && bytes[i + 1] == LF {
            return Some(i);
        }
        i += 1;
    }
    None
}

// The first CR LF whose CR is one of the 256 bytes from this place on. One byte more is looked at,
// for the LF behind the last of them.
#[inline(never)]
fn end_nearby(bytes: &[u8], place: usize) -> Option<usize>
    requires { place ≤ length bytes.now }
    ensures { result ≡ option_map (λ k. place + k) (line_end (take 257 (drop place bytes.now))) }
{
    let end = bytes.len().min(place + WALK + 1);
    let k = walked_end(&bytes[place..end])?;
    Some(place + k)
}

// The first CR LF from this place on. A loop over the CRs. A lone one that came soon has others near
// it, as it seems, so the bytes behind it are walked over before the next search.
#[inline(never)]
fn end_from(bytes: &[u8], place: usize) -> Option<usize>
    requires { place ≤ length bytes.now }
    ensures { result ≡ option_map (λ k. place + k) (line_end (drop place bytes.now)) }
{
    let mut from = place;
    while let Some(k) = memchr(CR, &bytes[from..]) {
        let at = from + k;
        if has_lf(bytes, at + 1) {
            return Some(at);
        }
        from = at + 1;
        if k < NEAR {
            if let Some(end) = end_nearby(bytes, from) {
                return Some(end);
            }
            from = bytes.len().min(from + WALK);
        }
    }
    None
}

// The index of the first CR directly followed by LF. The first places are looked at one by one. Behind
// them a CR is searched for, in records that of the line's end. `position` over the pairs of neighbours
// took fifteen times as long.
pub fn line_end(bytes: &[u8]) -> Option<usize>
    ensures { result ≡ line_end bytes.now }
{
    let near = bytes.len().min(NEAR + 1);
    if let Some(k) = walked_end(&bytes[..near]) {
        return Some(k);
    }
    let from = bytes.len().min(NEAR);
    let at = from + memchr(CR, &bytes[from..])?;
    if has_lf(bytes, at + 1) {
        return Some(at);
    }
    end_from(bytes, at + 1)
}

// An iterator over lines, each without its CR LF. Contracts see the bytes that are not cut yet.
#[derive(Drop)]
pub struct Lines<'a> {
    rest: &'a [u8],
}

impl<'a> Model for Lines<'a> {
    ghost use Rattle.std.specs.Prelude.{ℕ, List};

    ghost Value = { List ℕ };

    ghost view = { λ lines. lines.rest.now };
}

// The lines of the bytes, in their order.
pub fn lines_of(bytes: &[u8]) -> Lines<'_>
    ensures { result ≡ bytes.now }
{
    Lines { rest: bytes }
}

impl<'a> Lines<'a> {
    // The bytes that are not cut yet. Once no line is left, they are those behind the last CR LF.
    pub fn rest(&self) -> &'a [u8]
        ensures { result.now ≡ self.now }
    {
        self.rest
    }
}

impl<'a> Iterator for Lines<'a> {
    ghost use Rattle.std.specs.Prelude.{length};
    ghost use Rattle.std.specs.Iterator.{at_most};
    ghost use Rattle.files.specs.Lines.{lines_of, CutsLine};

    type Item = &'a [u8];

    ghost next_gives = { CutsLine };

    ghost remaining = { λ bytes. at_most (length (lines_of bytes)) };

    fn next(&mut self) -> Option<&'a [u8]> {
        let end = line_end(self.rest)?;
        let (line, behind) = self.rest.split_at(end);
        self.rest = &behind[2..];
        Some(line)
    }
}

// How many lines there are, and the place behind the last.
#[derive(Clone, Copy)]
pub struct LineCount {
    pub lines: usize,
    pub end: usize,
}

// Counts the lines. `cutting` says that no other cutting of these bytes is one.
pub fn count_lines(bytes: &[u8]) -> LineCount
    ensures lines { result.lines ≡ length (lines_of bytes.now) }
    ensures end { result.end ≡ length (written (lines_of bytes.now)) }
    ensures cutting { Cutting bytes.now }
{
    // No `for` over `left.by_ref()`: the proof did not close, since what is left is not known then.
    let mut left = lines_of(bytes);
    let mut lines = 0;
    while let Some(_line) = left.next() {
        lines += 1;
    }
    let end = bytes.len() - left.rest().len();
    LineCount { lines, end }
}
