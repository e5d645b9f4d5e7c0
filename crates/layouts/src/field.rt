// One field of a layout: its kind with its figures. docs/FORMAT.md has the table of kinds. An enum,
// and no closure: layouts are data, which strips write.
#[derive(Clone, Copy, Debug, PartialEq, Eq)]
pub enum Field {
    // UBT and these five digits; it names the record.
    Record(u32),
    // Two digits, from the low to the high number.
    Range(u8, u8),
    // So many digits.
    Number(u8),
    // So many zeros.
    Zeros(u8),
    // So many text bytes, which may all be blank.
    Text(u16),
    // So many text bytes, not all blank.
    FilledText(u16),
    // So many blanks.
    Blanks(u16),
    // Eight digits that show a day.
    Day,
    // The same, or eight zeros.
    DayOrZero,
    // Fifteen digits that show an amount.
    Amount,
    // Three capital letters.
    Currency,
    // One of these four bytes.
    OneOf(u8, u8, u8, u8),
    // A count of two digits, from the low to the high number, and so many lines of 35 text bytes.
    Lines(u8, u8),
    // The same with the count 00 or this number, and no line all blank.
    AllOrNoLines(u8),
}
