// Lines of the small set: a record is UBT99900, an amount and a currency, 26 bytes.
pub(crate) const DKK: &[u8] = b"UBT99900000000000017525DKK";

pub(crate) const EUR: &[u8] = b"UBT99900000000000020000EUR";

// Amount 0.
pub(crate) const BAD: &[u8] = b"UBT99900000000000000000DKK";

// Three different lines, one after another.
pub(crate) const A: &[u8] = b"UBT99900000000000000100DKK";

pub(crate) const THREE: &[u8] =
    b"UBT99900000000000000100DKK\r\nUBT99900000000000000200EUR\r\nUBT99900000000000000300USD\r\n";

pub(crate) const ONE_LINE: &[u8] = b"UBT99900000000000017525DKK\r\n";

pub(crate) const TWO_LINES: &[u8] = b"UBT99900000000000017525DKK\r\nUBT99900000000000020000EUR\r\n";
