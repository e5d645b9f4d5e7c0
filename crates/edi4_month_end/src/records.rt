// The lines of a file, and what they pay.
use crate::trouble::Trouble;
use basics::money::Hundredths;
use basics::text::Shown;
use changes::places::place_of;
use layouts::built_in::BuiltIn;
use reading::money::read_money;

// Line n without its CR LF, if there is such a line. Lines count from 1.
pub(crate) fn line_of(file: &[u8], n: usize) -> Result<&[u8], Trouble> {
    let Some(place) = place_of(file, n) else {
        return Err(Trouble::NoLine(n));
    };
    Ok(&file[place.at..place.at + place.size])
}

// How long line n is, and what it pays.
pub(crate) fn tell_line(rt: HostRuntime, file: &[u8], n: usize) -> Result<(), Trouble> {
    let line = line_of(file, n)?;
    let money = read_money(&BuiltIn, line)?;
    println!(rt;
        "    Line {n} has {} bytes and pays {} {}.",
        line.len(),
        Hundredths(money.amount.hundredths()),
        Shown(&money.currency.letters())
    )?;
    Ok(())
}

// Every line of a file of so many lines.
pub(crate) fn tell_lines(rt: HostRuntime, file: &[u8], lines: usize) -> Result<(), Trouble> {
    for n in 1..=lines {
        tell_line(rt, file, n)?;
    }
    Ok(())
}
