// Sets by way of their strips, and strips by way of their set: both come back the same.
ghost use Rattle.std.specs.Prelude.{Ok, vec_items};
ghost use Rattle.layouts.specs.Tables.{built_in};
ghost use Rattle.strips.specs.Layers.{layouts_of};
ghost use Rattle.strips.specs.Loads.{and_then, read, Answers};

use crate::load::LoadError;
use crate::loaded_set::LoadedSet;
use crate::write::write;
use layouts::built_in::BuiltIn;
use layouts::set::LayoutSet;
use std::alloc::Global;

// The set that is written in strips and loaded: the same layouts, unless there is no memory.
pub fn set_by_strips<S: LayoutSet>(set: &S, heap: Global) -> Result<LoadedSet, LoadError>
    ensures { Answers result (λ s. layouts_of s.layouts) (Ok (S.meaning set.now)) }
{
    let strips = write(set, heap)?;
    let mut loaded = LoadedSet::new(heap)?;
    loaded.load(&strips)?;
    Ok(loaded)
}

// The built-in tables, written in strips and loaded, are the built-in tables.
pub fn built_in_by_strips(heap: Global) -> Result<LoadedSet, LoadError>
    ensures { Answers result (λ s. layouts_of s.layouts) (Ok built_in) }
{
    set_by_strips(&BuiltIn, heap)
}

// The strips that are loaded and written: the same bytes, or the first refusal.
pub fn strips_by_set(strips: &[u8], heap: Global) -> Result<Vec<u8>, LoadError>
    ensures { Answers result vec_items (and_then (read strips.now) (λ _. Ok strips.now)) }
{
    let mut set = LoadedSet::new(heap)?;
    set.load(strips)?;
    Ok(write(&set, heap)?)
}
