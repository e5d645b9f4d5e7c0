// The rows that hold the values of a record.
ghost use Rattle.std.specs.Prelude.{◌≡◌, drop};

// One value of a record: its number, or the place of its text, counted from 1, and the length of
// the text. What a value does not use is 0. No enum: the rows are lent memory, which may hold
// anything, and an enum would ask more of its caller.
#[derive(Clone, Copy, Debug, PartialEq, Eq)]
pub struct ValueRow {
    pub number: u64,
    pub place: usize,
    pub length: usize,
}

// Rows, and the bytes that the places of their texts point into.
#[derive(Clone, Copy)]
pub struct Values<'a> {
    pub rows: &'a [ValueRow],
    pub bytes: &'a [u8],
}

impl<'a> Values<'a> {
    // The values without the first n rows.
    pub fn skip(&self, n: usize) -> Values<'a>
        ensures rows { result.rows.now ≡ drop n self.now.rows.now }
        ensures bytes { result.bytes.now ≡ self.now.bytes.now }
    {
        Values {
            rows: self.rows.get(n..).unwrap_or(&[]),
            bytes: self.bytes,
        }
    }
}
