// One field of a line, told in plain words.
use basics::calendar::Day;
use basics::decimal;
use basics::money::{Amount, Hundredths};
use basics::text::{Shown, trimmed};
use layouts::field::Field;
use std::io;

// How many bytes the field has at the front of the rest of a line; a block goes by its count.
pub(crate) fn extent(f: Field, rest: &[u8]) -> usize {
    match f {
        Field::Record(_) | Field::Day | Field::DayOrZero => 8,
        Field::Range(_, _) => 2,
        Field::Number(w) | Field::Zeros(w) => usize::from(w),
        Field::Text(w) | Field::FilledText(w) | Field::Blanks(w) => usize::from(w),
        Field::Amount => 15,
        Field::Currency => 3,
        Field::OneOf(_, _, _, _) => 1,
        Field::Lines(_, _) | Field::AllOrNoLines(_) => block_extent(rest),
    }
}

fn block_extent(rest: &[u8]) -> usize {
    match rest.get(..2).and_then(decimal::value) {
        Some(n) if n < 100 => 2 + 35 * n as usize,
        _ => 2,
    }
}

fn tell_text(rt: HostRuntime, part: &[u8]) -> io::Result<()> {
    let text = trimmed(part);
    if text.is_empty() {
        return println!(rt; " blank");
    }
    println!(rt; " \"{}\"", Shown(text))
}

fn tell_day(rt: HostRuntime, part: &[u8]) -> io::Result<()> {
    let Some(day) = decimal::value(part).and_then(Day::new) else {
        return println!(rt; " no day");
    };
    let n = day.number();
    println!(rt;
        " the day {:04}-{:02}-{:02}",
        n / 10000,
        n / 100 % 100,
        n % 100
    )
}

fn tell_amount(rt: HostRuntime, part: &[u8]) -> io::Result<()> {
    let Some(amount) = decimal::value(part).and_then(Amount::new) else {
        return println!(rt; " no amount");
    };
    let n = amount.hundredths();
    println!(rt; " {}, which is {n} hundredths", Hundredths(n))
}

// A block's count, its lines with their places, and the first place after it.
fn tell_block(rt: HostRuntime, place: usize, part: &[u8]) -> io::Result<()> {
    let Some((count, text)) = part.split_at_checked(2) else {
        return println!(rt; " no count");
    };
    println!(rt; " a block, count {}", Shown(count))?;
    for (k, line) in text.chunks_exact(35).enumerate() {
        print!(rt; "    line from place {}:", place.saturating_add(35 * k + 3))?;
        tell_text(rt, line)?;
    }
    let after = place.saturating_add(part.len()).saturating_add(1);
    println!(rt; "    the first place after the block is {after}")
}

// What stands in the field.
pub(crate) fn tell_value(rt: HostRuntime, f: Field, place: usize, part: &[u8]) -> io::Result<()> {
    match f {
        Field::Record(_) | Field::Range(_, _) | Field::Number(_) | Field::Currency => {
            println!(rt; " {}", Shown(part))
        }
        Field::Text(_) | Field::FilledText(_) | Field::OneOf(_, _, _, _) => tell_text(rt, part),
        Field::Zeros(_) => println!(rt; " zeros"),
        Field::Blanks(_) => println!(rt; " blanks"),
        Field::Day | Field::DayOrZero => tell_day(rt, part),
        Field::Amount => tell_amount(rt, part),
        Field::Lines(_, _) | Field::AllOrNoLines(_) => tell_block(rt, place, part),
    }
}
