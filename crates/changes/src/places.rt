// Where lines stand in bytes.
ghost use Rattle.std.specs.Prelude.{◌≡◌, ◌+◌, ◌≤◌, length, IfSome};
ghost use Rattle.changes.specs.Places.{behind_lines, place_of};

use files::cut::{line_end, lines_of};

// The index of a line's first byte, and its length without CR LF.
#[derive(Clone, Copy)]
pub struct LinePlace {
    pub at: usize,
    pub size: usize,
}

// The index behind the first m lines and their line ends, if there are so many.
pub fn behind_lines(bytes: &[u8], m: usize) -> Option<usize>
    ensures place { result ≡ behind_lines m bytes.now }
    ensures inside { IfSome result (λ at. at ≤ length bytes.now) }
{
    let mut left = lines_of(bytes);
    // No `nth(m - 1)`, which would need a case for m = 0.
    for _passed in 0..m {
        left.next()?;
    }
    Some(bytes.len() - left.rest().len())
}

// Where line n stands, if there is such a line. Lines count from 1.
pub fn place_of(bytes: &[u8], n: usize) -> Option<LinePlace>
    ensures place { result ≡ place_of n bytes.now }
    ensures inside { IfSome result (λ p. p.at + (p.size + 2) ≤ length bytes.now) }
{
    let at = behind_lines(bytes, n.checked_sub(1)?)?;
    let size = line_end(&bytes[at..])?;
    Some(LinePlace { at, size })
}
