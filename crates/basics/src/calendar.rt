// Days of the Gregorian calendar, from year 1 to 9999, as numbers YYYYMMDD.
ghost use Rattle.std.specs.Prelude.{◌≡◌, true, false, MatchOption};
ghost use Rattle.basics.specs.Days.{leap, days_in, is_day};

fn is_leap(year: u64) -> bool
    ensures { result ≡ leap year }
{
    (year % 4 == 0 && year % 100 != 0) || year % 400 == 0
}

fn days_in(year: u64, month: u64) -> u64
    ensures { result ≡ days_in year month }
{
    match month {
        2 => { if is_leap(year) { 29 } else { 28 } }
        4 | 6 | 9 | 11 => 30,
        _ => 31,
    }
}

fn is_day(number: u64) -> bool
    ensures { result ≡ is_day number }
{
    let year = number / 10000;
    let month = number / 100 % 100;
    let day = number % 100;
    year >= 1
        && year <= 9999
        && month >= 1
        && month <= 12
        && day >= 1
        && day <= days_in(year, month)
}

// A day of the calendar. No other number can be one: `new` is the only way in.
#[derive(Clone, Copy, Debug, PartialEq, Eq, PartialOrd, Ord)]
pub struct Day {
    number: u64,
    ghost exists: { is_day number ≡ true },
}

impl Day {
    // The day of this number, if there is one.
    pub fn new(number: u64) -> Option<Day>
        ensures { MatchOption result (is_day number ≡ false) (λ d. (is_day number ≡ true) × (d.number ≡ number)) }
    {
        if is_day(number) {
            Some(Day { number })
        } else {
            None
        }
    }

    // The day as a number YYYYMMDD.
    pub fn number(&self) -> u64
        ensures value { result ≡ self.now.number }
        ensures exists { is_day result ≡ true }
    {
        self.number
    }
}
