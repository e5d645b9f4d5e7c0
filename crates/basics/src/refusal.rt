// Why a call is refused, and where.
ghost use Rattle.std.specs.Prelude.{◌≡◌, Some};
ghost use Rattle.basics.specs.Refusals.{number, reason, depth, layer, in_words};

use std::fmt;

// The reason of a refusal. Its discriminant is its number in docs/FORMAT.md.
#[derive(Clone, Copy, Debug, PartialEq, Eq)]
pub enum Reason {
    NoStrips = 1,
    UnknownKind = 2,
    FirstKindNotRecord = 3,
    BodyCutShort = 4,
    BodyBreaksItsRule = 5,
    UnlawfulLayout = 6,
    DigitsUsedBefore = 7,
    TooManyLayouts = 8,
    LineEndsEarly = 11,
    UnknownRecord = 12,
    ForbiddenByte = 13,
    BlankText = 14,
    OutOfBounds = 15,
    NoSuchDay = 16,
    AmountZero = 17,
    BytesLeftOver = 18,
    EmptyFile = 21,
    UnendedLine = 22,
    TooManyLines = 23,
    TooFewValueRows = 24,
    MemoryShorterThanUsed = 31,
    NoSuchLine = 32,
    DraftTooLong = 33,
    NoFileRoom = 34,
    NoChangeRoom = 35,
    NothingToUndo = 36,
    RowDoesNotFit = 37,
    NothingToSeal = 38,
    NotACurrency = 39,
    UnknownDigits = 41,
    RowsRunOut = 42,
    ValueBreaksItsField = 43,
    RowsLeft = 44,
    NoRoom = 45,
}

impl Reason {
    // The reason's number; `back` says that no two reasons have the same.
    pub fn number(self) -> u8
        ensures value { result ≡ number self }
        ensures back { reason result ≡ self }
    {
        self as u8
    }
}

// Where the fault arose.
#[derive(Clone, Copy, Debug, PartialEq, Eq)]
pub enum Layer {
    Strips = 1,
    Lines = 2,
    Files = 3,
    Drafts = 4,
}

impl Layer {
    // The layer's number; `back` says that no two layers have the same.
    pub fn number(self) -> u8
        ensures value { result ≡ depth self }
        ensures back { layer result ≡ self }
    {
        self as u8
    }
}

// A refusal with its place. Lines, fields and bytes count from 1. By rule 0, and no `Option`, says
// that none is named.
#[derive(Clone, Copy, Debug, PartialEq, Eq)]
pub struct Refusal {
    pub reason: Reason,
    pub layer: Layer,
    pub line: usize,
    pub field: usize,
    pub byte: usize,
}

impl Refusal {
    // A refusal that names no place.
    pub fn new(reason: Reason, layer: Layer) -> Refusal
        ensures { result ≡ record { reason = reason; layer = layer; line = 0; field = 0; byte = 0 } }
    {
        Refusal {
            reason,
            layer,
            line: 0,
            field: 0,
            byte: 0,
        }
    }

    // The same refusal with this line for its place.
    pub fn in_line(self, line: usize) -> Refusal
        ensures { result ≡ record { reason = self.reason; layer = self.layer; line = line; field = self.field; byte = self.byte } }
    {
        Refusal { line, ..self }
    }

    // The same refusal with this field for its place.
    pub fn in_field(self, field: usize) -> Refusal
        ensures { result ≡ record { reason = self.reason; layer = self.layer; line = self.line; field = field; byte = self.byte } }
    {
        Refusal { field, ..self }
    }

    // The same refusal with this byte for its place.
    pub fn at_byte(self, byte: usize) -> Refusal
        ensures { result ≡ record { reason = self.reason; layer = self.layer; line = self.line; field = self.field; byte = byte } }
    {
        Refusal { byte, ..self }
    }
}

impl fmt::Display for Refusal {
    ghost output = { λ e. Some (in_words e) };

    fn fmt<W: fmt::Write>(&self, f: &mut fmt::Formatter<W>) -> fmt::Result {
        let number = self.reason.number();
        let layer = self.layer.number();
        let Refusal {
            line,
            field,
            byte,
            ..
        } = *self;
        write!(
            f,
            "{number} layer {layer} line {line} field {field} byte {byte}"
        )
    }
}
