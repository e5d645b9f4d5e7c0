// Lines and deliveries by the rules alone, with nothing of the library but its refusals.
use basics::refusal::{Layer, Reason, Refusal};
use std::alloc::{AllocError, Global};

// Which bytes a part may have.
#[derive(Clone, Copy)]
enum Class {
    Digits,
    Capitals,
    Texts,
}

impl Class {
    fn allows(self, b: u8) -> bool {
        match self {
            Class::Digits => b.is_ascii_digit(),
            Class::Capitals => b.is_ascii_uppercase(),
            Class::Texts => matches!(b, 32..=126 | 160..=255),
        }
    }
}

// What is left of a line, in which field it begins, and at which byte of the line.
#[derive(Clone, Copy)]
struct Left<'a> {
    bytes: &'a [u8],
    field: usize,
    byte: usize,
}

impl<'a> Left<'a> {
    // A fault so many bytes behind the first that is left.
    fn fault(self, reason: Reason, behind: usize) -> Refusal {
        Refusal::new(reason, Layer::Lines)
            .in_field(self.field)
            .at_byte(self.byte.saturating_add(behind))
    }

    fn cut(self, n: usize) -> Result<(&'a [u8], Left<'a>), Refusal> {
        let short = self.fault(Reason::LineEndsEarly, self.bytes.len());
        let (part, bytes) = self.bytes.split_at_checked(n).ok_or(short)?;
        let byte = self.byte.saturating_add(n);
        Ok((
            part,
            Left {
                bytes,
                byte,
                ..self
            },
        ))
    }

    // Cuts n bytes off, all of one class.
    fn cut_all(self, n: usize, class: Class) -> Result<(&'a [u8], Left<'a>), Refusal> {
        let (part, left) = self.cut(n)?;
        match part.iter().position(|b| !class.allows(*b)) {
            Some(i) => Err(self.fault(Reason::ForbiddenByte, i)),
            None => Ok((part, left)),
        }
    }

    // The same bytes, as those of the next field.
    fn next(self) -> Left<'a> {
        Left {
            field: self.field.saturating_add(1),
            ..self
        }
    }

    // What stands behind a block of at most two lines.
    fn behind_block(self) -> Result<Left<'a>, Refusal> {
        let (count, left) = self.cut_all(2, Class::Digits)?;
        let size = match count {
            b"00" => 0,
            b"01" => 35,
            b"02" => 70,
            _ => return Err(self.fault(Reason::OutOfBounds, 0)),
        };
        let (_, behind) = left.cut_all(size, Class::Texts)?;
        Ok(behind)
    }
}

// A line's first fault. The wide set has UBT99901 too.
pub(crate) fn check_line(wide: bool, line: &[u8]) -> Result<(), Refusal> {
    let start = Left {
        bytes: line,
        field: 1,
        byte: 1,
    };
    let (letters, left) = start.cut(3)?;
    let (digits, left) = left.cut(5)?;
    let has_block = match digits {
        b"99900" => false,
        b"99901" if wide => true,
        _ => return Err(start.fault(Reason::UnknownRecord, 0)),
    };
    if let Some(i) = letters.iter().zip(b"UBT").position(|(b, c)| b != c) {
        return Err(start.fault(Reason::ForbiddenByte, i));
    }
    let amount = left.next();
    let (digits, left) = amount.cut_all(15, Class::Digits)?;
    if digits.iter().all(|b| *b == b'0') {
        return Err(amount.fault(Reason::AmountZero, 0));
    }
    let (_, left) = left.next().cut_all(3, Class::Capitals)?;
    let left = if has_block {
        left.next().behind_block()?
    } else {
        left
    };
    if !left.bytes.is_empty() {
        return Err(left.next().fault(Reason::BytesLeftOver, 0));
    }
    Ok(())
}

// What a good line pays in a currency.
pub(crate) fn paid(line: &[u8], currency: &[u8]) -> u64 {
    let (Some(amount), Some(letters)) = (line.get(8..23), line.get(23..26)) else {
        return 0;
    };
    if letters != currency {
        return 0;
    }
    amount.iter().fold(0, |n: u64, b| {
        n.wrapping_mul(10)
            .wrapping_add(u64::from(b.wrapping_sub(b'0')))
    })
}

// A delivery cut at each CR LF, with what stands behind the last.
#[derive(Drop)]
pub struct Cutting {
    pub lines: Vec<Vec<u8>>,
    pub rest: Vec<u8>,
}

pub(crate) fn cut_lines(heap: Global, bytes: &[u8]) -> Result<Cutting, AllocError> {
    let mut lines = Vec::new(heap);
    let mut rest = Vec::new(heap);
    for b in bytes {
        if *b == b'\n' && rest.last() == Some(&b'\r') {
            let _ = rest.pop();
            lines.push(std::mem::replace(&mut rest, Vec::new(heap)))?;
        } else {
            rest.push(*b)?;
        }
    }
    Ok(Cutting { lines, rest })
}

// A delivery's first fault.
pub(crate) fn check_delivery(wide: bool, bytes: &[u8], cutting: &Cutting) -> Result<(), Refusal> {
    let lines = cutting.lines.len();
    if bytes.is_empty() {
        return Err(Refusal::new(Reason::EmptyFile, Layer::Files));
    }
    if !cutting.rest.is_empty() {
        let line = lines.saturating_add(1);
        return Err(Refusal::new(Reason::UnendedLine, Layer::Files).in_line(line));
    }
    if lines > 1200 {
        return Err(Refusal::new(Reason::TooManyLines, Layer::Files).in_line(1201));
    }
    for (i, line) in cutting.lines.iter().enumerate() {
        check_line(wide, line).map_err(|e| e.in_line(i.saturating_add(1)))?;
    }
    Ok(())
}
