// What a survey finds.

// The first fault of a bad line: its line, field and byte, and its number. All count from 1, and 0
// says that none is named. Plain numbers: the rows are lent memory, and a report prints them.
#[derive(Clone, Copy)]
pub struct FaultRow {
    pub line: usize,
    pub field: usize,
    pub byte: usize,
    pub number: u8,
}

// How many lines there are, and how many of them are bad.
#[derive(Clone, Copy)]
pub struct Survey {
    pub lines: usize,
    pub bad: usize,
}
