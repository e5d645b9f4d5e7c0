// Numbers, lines and calls by chance, from a fixed seed.
ghost use Rattle.std.specs.Prelude.{◌<◌};

use runs::call::Call;
use std::alloc::{AllocError, Global};
use std::iter::repeat_n;

// The wide set has records with blocks too. So many of a hundred calls are undos, and where there
// are more than ten, undos now and then come in a row.
#[derive(Drop)]
pub struct Chance {
    heap: Global,
    wide: bool,
    undos: usize,
    state: u64,
    // How many undos are still to come in a row.
    row: usize,
}

// A kind of call, without its bytes: which kinds were accepted is noted.
#[derive(Clone, Copy, PartialEq, Eq)]
pub enum Kind {
    Import,
    Add,
    Replace,
    Strike,
    Undo,
}

// One call, which owns the bytes of its line or its delivery.
#[derive(Drop)]
pub struct Wish {
    pub kind: Kind,
    pub n: usize,
    pub bytes: Vec<u8>,
}

impl Wish {
    pub(crate) fn call(&self) -> Call<'_> {
        match self.kind {
            Kind::Import => Call::Import(&self.bytes),
            Kind::Add => Call::Add(&self.bytes),
            Kind::Replace => Call::Replace(self.n, &self.bytes),
            Kind::Strike => Call::Strike(self.n),
            Kind::Undo => Call::Undo,
        }
    }
}

fn put(line: &mut [u8], i: usize, b: u8) {
    if let Some(place) = line.get_mut(i) {
        *place = b;
    }
}

fn put_amount_zero(line: &mut [u8]) {
    for b in line.iter_mut().skip(8).take(15) {
        *b = b'0';
    }
}

impl Chance {
    pub(crate) fn new(heap: Global, wide: bool, undos: usize) -> Chance {
        Chance {
            heap,
            wide,
            undos,
            state: 20260,
            row: 0,
        }
    }

    // A number below n.
    fn below(&mut self, n: usize) -> usize
        requires { 0 < n }
        ensures { result < n }
    {
        self.state = self
            .state
            .wrapping_mul(6364136223846793005)
            .wrapping_add(1442695040888963407);
        (self.state >> 33) as usize % n
    }

    // A number from 0 to `most`.
    fn up_to(&mut self, most: usize) -> usize {
        self.below(most.saturating_add(1))
    }

    fn push_digits(&mut self, line: &mut Vec<u8>, n: usize) -> Result<(), AllocError> {
        for _ in 0..n {
            line.push(b'0' + self.below(10) as u8)?;
        }
        Ok(())
    }

    // No line, one or two of one letter.
    fn push_block(&mut self, line: &mut Vec<u8>) -> Result<(), AllocError> {
        let letter = b'a' + self.below(26) as u8;
        let lines = self.below(3);
        line.push(b'0')?;
        line.push(b'0' + lines as u8)?;
        line.extend(repeat_n(letter, 35 * lines))
    }

    // A record of an amount from 1 to 9999999.
    fn good_line(&mut self) -> Result<Vec<u8>, AllocError> {
        let block = self.wide && self.below(2) == 1;
        let name = if block { b"UBT99901" } else { b"UBT99900" };
        let mut line = Vec::from_slice(self.heap, name)?;
        line.extend(repeat_n(b'0', 8))?;
        self.push_digits(&mut line, 6)?;
        line.push(b'1' + self.below(9) as u8)?;
        line.extend_from_slice(match self.below(3) {
            0 => b"DKK",
            1 => b"EUR",
            _ => b"USD",
        })?;
        if block {
            self.push_block(&mut line)?;
        }
        Ok(line)
    }

    // Does something to a line that mostly makes it a bad one.
    fn spoil(&mut self, line: &mut Vec<u8>) -> Result<(), AllocError> {
        let place = self.up_to(line.len());
        match self.below(6) {
            0 => line.truncate(place),
            1 => line.push(b'x')?,
            2 => put(line, place, self.below(256) as u8),
            3 => put_amount_zero(line),
            4 => put(line, 7, b'9'),
            _ => put(line, 27, b'7'),
        }
        Ok(())
    }

    fn line(&mut self) -> Result<Vec<u8>, AllocError> {
        let mut line = self.good_line()?;
        if self.below(6) == 0 {
            self.spoil(&mut line)?;
        }
        Ok(line)
    }

    // One to three lines with their line ends.
    fn lines(&mut self) -> Result<Vec<u8>, AllocError> {
        let mut bytes = Vec::new(self.heap);
        for _ in 0..=self.below(3) {
            bytes.extend_from_slice(&self.line()?)?;
            bytes.extend_from_slice(b"\r\n")?;
        }
        Ok(bytes)
    }

    // A delivery that is now and then empty, or cut short.
    fn delivery(&mut self) -> Result<Vec<u8>, AllocError> {
        let mut bytes = self.lines()?;
        let length = bytes.len();
        match self.below(20) {
            0 => bytes.clear(),
            1 => bytes.truncate(length.saturating_sub(1)),
            2 => bytes.truncate(length.saturating_sub(2)),
            3 => bytes.truncate(self.up_to(length)),
            _ => {}
        }
        Ok(bytes)
    }

    fn kind(&mut self) -> Kind {
        if self.row > 0 {
            self.row -= 1;
            return Kind::Undo;
        }
        if self.undos > 10 && self.below(100) == 0 {
            self.row = self.below(45);
        }
        if self.below(100) < self.undos {
            return Kind::Undo;
        }
        match self.below(16) {
            0..=3 => Kind::Import,
            4..=8 => Kind::Add,
            9..=12 => Kind::Replace,
            _ => Kind::Strike,
        }
    }

    // The next call, on a draft of so many lines.
    pub(crate) fn wish(&mut self, lines: usize) -> Result<Wish, AllocError> {
        let kind = self.kind();
        let n = self.up_to(lines.saturating_add(2));
        let bytes = match kind {
            Kind::Import => self.delivery()?,
            Kind::Add | Kind::Replace => self.line()?,
            Kind::Strike | Kind::Undo => Vec::new(self.heap),
        };
        Ok(Wish { kind, n, bytes })
    }
}
