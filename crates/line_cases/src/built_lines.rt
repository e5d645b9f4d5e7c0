// The smallest and the largest line of each built-in layout.
use crate::cases::tell;
use basics::decimal::last_digits;
use layouts::built_in::BuiltIn;
use layouts::field::Field;
use layouts::fields::fields_of;
use lines::judge::judge;
use std::alloc::{AllocError, Global};
use std::io;
use std::iter::repeat_n;

// The built-in layouts, and the name that the lines of each begin with.
pub(crate) const LAYOUTS: [(usize, &[u8]); 4] = [
    (1, b"UBT04500"),
    (2, b"UBT04601"),
    (3, b"UBT04602"),
    (4, b"UBT05401"),
];

// So many times one byte.
fn put_many(line: &mut Vec<u8>, n: usize, b: u8) -> Result<(), AllocError> {
    line.extend(repeat_n(b, n))
}

// A number of two digits.
fn put_two(line: &mut Vec<u8>, n: u8) -> Result<(), AllocError> {
    line.extend_from_slice(&last_digits::<2>(u64::from(n)))
}

fn put_block(line: &mut Vec<u8>, n: u8) -> Result<(), AllocError> {
    put_two(line, n)?;
    put_many(line, 35 * usize::from(n), b'x')
}

// The field with its smallest value.
pub(crate) fn put_smallest(line: &mut Vec<u8>, f: Field) -> Result<(), AllocError> {
    match f {
        Field::Record(_) => Ok(()),
        Field::Range(low, _) => put_two(line, low),
        Field::Number(w) | Field::Zeros(w) => put_many(line, usize::from(w), b'0'),
        Field::Text(w) | Field::Blanks(w) => put_many(line, usize::from(w), b' '),
        Field::FilledText(w) => {
            put_many(line, usize::from(w).saturating_sub(1), b' ')?;
            Ok(line.push(b'!')?)
        }
        Field::Day => line.extend_from_slice(b"00010101"),
        Field::DayOrZero => put_many(line, 8, b'0'),
        Field::Amount => line.extend_from_slice(b"000000000000001"),
        Field::Currency => line.extend_from_slice(b"AAA"),
        Field::OneOf(a, _, _, _) => Ok(line.push(a)?),
        Field::Lines(low, _) => put_block(line, low),
        Field::AllOrNoLines(_) => put_block(line, 0),
    }
}

// The field with its largest value.
pub(crate) fn put_largest(line: &mut Vec<u8>, f: Field) -> Result<(), AllocError> {
    match f {
        Field::Record(_) => Ok(()),
        Field::Range(_, high) => put_two(line, high),
        Field::Number(w) => put_many(line, usize::from(w), b'9'),
        Field::Zeros(w) => put_many(line, usize::from(w), b'0'),
        Field::Text(w) | Field::FilledText(w) => put_many(line, usize::from(w), 255),
        Field::Blanks(w) => put_many(line, usize::from(w), b' '),
        Field::Day | Field::DayOrZero => line.extend_from_slice(b"99991231"),
        Field::Amount => put_many(line, 15, b'9'),
        Field::Currency => line.extend_from_slice(b"ZZZ"),
        Field::OneOf(_, _, _, d) => Ok(line.push(d)?),
        Field::Lines(_, high) => put_block(line, high),
        Field::AllOrNoLines(n) => put_block(line, n),
    }
}

// A line of layout j that begins with this name, and each field behind it as `put` writes it.
pub(crate) fn line_of<F: Fn(&mut Vec<u8>, Field) -> Result<(), AllocError>>(
    heap: Global,
    j: usize,
    name: &[u8],
    put: F,
) -> Result<Vec<u8>, AllocError>
    requires { F.IsAlwaysCallable put }
{
    let mut line = Vec::from_slice(heap, name)?;
    for field in fields_of(&BuiltIn, j).skip(1) {
        put(&mut line, field)?;
    }
    Ok(line)
}

// The line, one byte short of it and one byte over it.
fn tell_three(rt: HostRuntime, what: &str, mut line: Vec<u8>) -> io::Result<()> {
    let length = line.len();
    println!(rt; "{what}: {length} bytes")?;
    tell(rt, "  whole", judge(&BuiltIn, &line))?;
    line.push(b' ')?;
    tell(rt, "  one byte over", judge(&BuiltIn, &line))?;
    line.truncate(length.saturating_sub(1));
    tell(rt, "  one byte short", judge(&BuiltIn, &line))
}

pub(crate) fn smallest_and_largest(rt: HostRuntime) -> io::Result<()> {
    for (j, name) in LAYOUTS {
        println!(rt; "layout {j}")?;
        tell_three(rt, " smallest", line_of(rt.alloc(), j, name, put_smallest)?)?;
        tell_three(rt, " largest", line_of(rt.alloc(), j, name, put_largest)?)?;
    }
    Ok(())
}
