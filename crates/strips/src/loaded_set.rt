// Layout sets that own their layouts.
ghost use Rattle.std.specs.Prelude.{◌≡◌, true, [], ◌∷◌, IfOk};
ghost use Rattle.layouts.specs.Layouts.{is_lawful};
ghost use Rattle.layouts.specs.Tables.{payment};
ghost use Rattle.strips.specs.Layers.{layouts_of};

use layouts::built_in::{BuiltIn, field_at};
use layouts::field::Field;
use layouts::fields::fields_of;
use layouts::set::LayoutSet;
use std::alloc::{AllocError, Global};

// A lawful set of layouts. No other layouts can be in it.
#[derive(Drop)]
pub struct LoadedSet {
    pub(crate) layouts: Vec<Vec<Field>>,
    ghost lawful: { is_lawful (layouts_of layouts) ≡ true },
}

impl LoadedSet {
    // The set of the payment record alone.
    pub fn new(heap: Global) -> Result<LoadedSet, AllocError>
        ensures { IfOk result (λ s. layouts_of s.layouts ≡ payment ∷ []) }
    {
        let fields = fields_of(&BuiltIn, 1).collect(heap)?;
        let layouts = vec![in heap; fields]?;
        Ok(LoadedSet { layouts })
    }
}

impl LayoutSet for LoadedSet {
    ghost meaning = { λ s. layouts_of s.layouts };

    ghost lawful = { λ s. s.lawful };

    fn layouts(&self) -> usize {
        self.layouts.len()
    }

    #[tactic(auto, using(crate::proofs::SetLaws::field_in_set))]
    fn field(&self, j: usize, i: usize) -> Option<Field> {
        let layout = self.layouts.get(j.checked_sub(1)?)?;
        field_at(layout, i)
    }
}
