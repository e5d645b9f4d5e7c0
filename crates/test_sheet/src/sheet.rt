// The sheet's rows, one after another.
use std::fmt::Display;
use std::io;

// How many rows there are so far, and in how many of them came what was expected.
#[derive(Drop)]
pub struct Sheet {
    pub rt: HostRuntime,
    rows: usize,
    right: usize,
}

impl Sheet {
    pub(crate) fn new(rt: HostRuntime) -> Sheet {
        Sheet {
            rt,
            rows: 0,
            right: 0,
        }
    }

    pub(crate) fn heading(&self, what: &str) -> io::Result<()> {
        println!(self.rt; "{what}")
    }

    // A row: what the rules say, and what came.
    pub(crate) fn row<T: PartialEq + Display + Drop>(
        &mut self,
        what: &str,
        expected: T,
        came: T,
    ) -> io::Result<()> {
        self.rows = self.rows.saturating_add(1);
        if expected == came {
            self.right = self.right.saturating_add(1);
        }
        println!(self.rt; "  {what}: expected {expected}, came {came}")
    }

    pub(crate) fn count(&self) -> io::Result<()> {
        println!(self.rt; "{} rows, {} as expected", self.rows, self.right)
    }
}
