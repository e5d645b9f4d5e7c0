// A sealed file is final: it can be shown, and no call alters it.
ghost use Rattle.std.specs.Prelude.{◌≡◌, ◌<◌, ◌≤◌, length, take, MatchResult};
ghost use Rattle.changes.specs.Calls.{draft_refusal};
ghost use Rattle.drafts.specs.Seals.{sealed_of};

use crate::draft::{Draft, used_part};
use crate::refusals::refused;
use basics::refusal::{Reason, Refusal};

// How many file bytes are used. The draft is gone, and with it undo.
#[derive(Drop)]
pub struct Sealed {
    pub(crate) file: usize,
}

// A draft that could not be sealed, handed back.
#[derive(Drop)]
pub struct Unsealed {
    pub refusal: Refusal,
    pub draft: Draft,
}

impl Draft {
    // Turns the draft into a sealed file. 38 where no file bytes are used.
    pub fn seal(self) -> Result<Sealed, Unsealed>
        ensures { result ≡ sealed_of self }
    {
        if self.file == 0 {
            return Err(Unsealed {
                refusal: refused(Reason::NothingToSeal),
                draft: self,
            });
        }
        let Draft {
            file,
            rows: _,
            kept: _,
        } = self;
        Ok(Sealed { file })
    }
}

impl Sealed {
    // The used part of the file memory.
    pub fn show<'a>(&self, file: &'a [u8]) -> Result<&'a [u8], Refusal>
        ensures { MatchResult result (λ s. (self.now.file ≤ length file.now) × (s.now ≡ take self.now.file file.now)) (λ e. (length file.now < self.now.file) × (e ≡ draft_refusal 31)) }
    {
        used_part(file, self.file)
    }
}
