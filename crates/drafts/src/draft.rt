// A draft is three counts over memory that its caller lends to each call.
ghost use Rattle.std.specs.Prelude.{◌≡◌, ◌<◌, ◌≤◌, length, take, MatchResult};
ghost use Rattle.changes.specs.Calls.{draft_refusal};

use crate::refusals::refused;
use basics::refusal::{Reason, Refusal};

// How many file bytes, change rows and kept bytes are used. The used file bytes are the draft's
// file. Each change that stands has a row, and a kept line if it replaced or struck one. By rule the
// memory is lent to each call by itself: undo only reads rows and kept bytes, and one struct of all
// three would ask its caller for more.
#[derive(Drop)]
pub struct Draft {
    pub(crate) file: usize,
    pub(crate) rows: usize,
    pub(crate) kept: usize,
}

// The used part of a file memory, or 31 where the memory is shorter.
pub(crate) fn used_part(file: &[u8], used: usize) -> Result<&[u8], Refusal>
    ensures { MatchResult result (λ s. (used ≤ length file.now) × (s.now ≡ take used file.now)) (λ e. (length file.now < used) × (e ≡ draft_refusal 31)) }
{
    if used > file.len() {
        return Err(refused(Reason::MemoryShorterThanUsed));
    }
    Ok(&file[0..used])
}

impl Draft {
    // A draft of no bytes, in which no change stands.
    pub fn new() -> Draft
        ensures { result ≡ record { file = 0; rows = 0; kept = 0 } }
    {
        Draft {
            file: 0,
            rows: 0,
            kept: 0,
        }
    }

    // The used part of the file memory.
    pub fn show<'a>(&self, file: &'a [u8]) -> Result<&'a [u8], Refusal>
        ensures { MatchResult result (λ s. (self.now.file ≤ length file.now) × (s.now ≡ take self.now.file file.now)) (λ e. (length file.now < self.now.file) × (e ≡ draft_refusal 31)) }
    {
        used_part(file, self.file)
    }
}
