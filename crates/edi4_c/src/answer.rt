// An answer that C can take: numbers alone.
use basics::refusal::Refusal;

// What was asked for, or the refusal. The number is 0 where the call was accepted, since C has no
// `Result`; no refusal has it. A refusal's value is 0, and where no place is named its line, field
// and byte are 0.
#[repr(C)]
pub struct Edi4Answer {
    pub value: u64,
    pub line: usize,
    pub field: usize,
    pub byte: usize,
    pub number: u8,
    pub layer: u8,
}

// The answer's numbers.
impl From<Result<u64, Refusal>> for Edi4Answer {
    ghost use Rattle.std.specs.Prelude.{◌≡◌};
    ghost use Rattle.edi4_c.specs.Answers.{told};

    ghost from_gives = { λ answer a. a ≡ told answer };

    fn from(answer: Result<u64, Refusal>) -> Edi4Answer {
        match answer {
            Ok(value) => Edi4Answer {
                value,
                line: 0,
                field: 0,
                byte: 0,
                number: 0,
                layer: 0,
            },
            Err(e) => Edi4Answer {
                value: 0,
                line: e.line,
                field: e.field,
                byte: e.byte,
                number: e.reason.number(),
                layer: e.layer.number(),
            },
        }
    }
}

// The same for a count or a number of a layout. A match, and no `map`: of what a closure with a cast
// gives the proof would know nothing.
impl From<Result<usize, Refusal>> for Edi4Answer {
    ghost use Rattle.std.specs.Prelude.{◌≡◌};
    ghost use Rattle.edi4_c.specs.Answers.{told};

    ghost from_gives = { λ answer a. a ≡ told answer };

    fn from(answer: Result<usize, Refusal>) -> Edi4Answer {
        let wide: Result<u64, Refusal> = match answer {
            Ok(n) => Ok(n as u64),
            Err(e) => Err(e),
        };
        wide.into()
    }
}
