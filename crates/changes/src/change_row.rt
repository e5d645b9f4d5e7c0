// The row that a change of a draft writes and undo reads back.
ghost use Rattle.std.specs.Prelude.{◌≡◌};
ghost use Rattle.changes.specs.Kinds.{number_of, Names};

// The kinds of change that a row tells of. A discriminant is the number that the row holds.
#[derive(Clone, Copy, Debug, PartialEq, Eq)]
pub enum ChangeKind {
    AtTheEnd = 1,
    Replaced = 2,
    Struck = 3,
}

// A number that names no kind of change.
#[derive(Clone, Copy, Debug, PartialEq, Eq)]
pub struct UnknownChange(pub u8);

impl ChangeKind {
    // The kind's number.
    pub fn number(self) -> u8
        ensures { result ≡ number_of self }
    {
        self as u8
    }
}

impl TryFrom<u8> for ChangeKind {
    type Error = UnknownChange;

    ghost try_from_gives = { Names };

    fn try_from(number: u8) -> Result<ChangeKind, UnknownChange> {
        match number {
            1 => Ok(ChangeKind::AtTheEnd),
            2 => Ok(ChangeKind::Replaced),
            3 => Ok(ChangeKind::Struck),
            _ => Err(UnknownChange(number)),
        }
    }
}

// One change: the number of its kind, the line that it replaced or struck (0 for lines at the end),
// how many file bytes were used before it, and how many bytes of an old line were kept. These are
// plain numbers: the rows are the caller's memory, which may hold anything.
#[derive(Clone, Copy, Debug, PartialEq, Eq)]
pub struct ChangeRow {
    pub kind: u8,
    pub line: usize,
    pub before: usize,
    pub kept: usize,
}
