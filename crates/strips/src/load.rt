// Loading a layout set from strips.
ghost use Rattle.std.specs.Prelude.{◌≡◌, OnOk};
ghost use Rattle.strips.specs.declared.load.LoadError.TheVariants.{Refused, NoMemory};
ghost use Rattle.strips.specs.Layers.{layouts_of};
ghost use Rattle.strips.specs.Sets.{Writes, ReadExactly, RefusedRightly, NoTwoAlike, Replaces};

use crate::loaded_set::LoadedSet;
use crate::reader::read_strips;
use basics::refusal::Refusal;
use std::alloc::{AllocError, AllocFailed};

// Why strips are not loaded.
#[derive(Clone, Copy, Debug, PartialEq, Eq)]
pub enum LoadError {
    // The strips write no lawful set.
    Refused(Refusal),
    // There is not enough memory.
    NoMemory,
}

impl From<Refusal> for LoadError {
    ghost from_gives = { λ e r. r ≡ Refused e };

    fn from(e: Refusal) -> LoadError {
        LoadError::Refused(e)
    }
}

impl From<AllocError> for LoadError {
    ghost from_gives = { λ _ r. r ≡ NoMemory };

    fn from(_e: AllocError) -> LoadError {
        LoadError::NoMemory
    }
}

impl<T: Drop> From<AllocFailed<T>> for LoadError {
    ghost from_gives = { λ _ r. r ≡ NoMemory };

    fn from(_e: AllocFailed<T>) -> LoadError {
        LoadError::NoMemory
    }
}

impl LoadedSet {
    // Replaces the set by the one that the strips write, or refuses and leaves it as it was.
    pub fn load(&mut self, strips: &[u8]) -> Result<(), LoadError>
        ensures replaced_whole_or_left_as_it_was { Replaces result strips.now (layouts_of self.old.layouts) (layouts_of self.new.layouts) }
        ensures accepted_only_if_they_write_the_new_set { OnOk result (Writes (layouts_of self.new.layouts) strips.now) }
        ensures refused_only_if_they_write_no_lawful_set { RefusedRightly result strips.now }
        ensures read_exactly_when_they_write_a_lawful_set { ReadExactly strips.now }
        ensures no_two_sets_have_the_same_strips { NoTwoAlike }
    {
        self.layouts = read_strips(strips, *self.layouts.allocator())?;
        Ok(())
    }
}
