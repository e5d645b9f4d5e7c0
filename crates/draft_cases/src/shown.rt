// File bytes as they are shown to a reader.
use std::fmt;

// Each byte is the character of its number, but for CR and LF, which are written \r and \n: a file
// stands in one line of the output.
#[derive(Clone, Copy)]
pub struct Shown<'a>(pub &'a [u8]);

impl fmt::Display for Shown<'_> {
    fn fmt<W: fmt::Write>(&self, f: &mut fmt::Formatter<W>) -> fmt::Result {
        for b in self.0 {
            match *b {
                b'\r' => f.write_str("\\r")?,
                b'\n' => f.write_str("\\n")?,
                c => f.write_char(char::from(c))?,
            }
        }
        Ok(())
    }
}
