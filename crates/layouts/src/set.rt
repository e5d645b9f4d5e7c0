// The interface that all layout sets share.
ghost use Rattle.std.specs.Prelude.{◌≡◌, ℕ, true, List, length};
ghost use Rattle.layouts.specs.declared.field.Field.{Field};
ghost use Rattle.layouts.specs.Layouts.{field_at, is_lawful};

use crate::field::Field;

// A layout set is known by the list of layouts that it means. Two questions are asked of it, and
// each is answered as the meaning has it. An implementation owes a proof that its meaning is
// lawful. Layouts and fields count from 1.
pub trait LayoutSet {
    ghost meaning: { Self → List (List Field) };

    // How many layouts there are.
    fn layouts(&self) -> usize
        ensures { result ≡ length (meaning self.now) };

    // The field at place i of layout j, or none.
    fn field(&self, j: usize, i: usize) -> Option<Field>
        ensures { result ≡ field_at (meaning self.now) j i };

    ghost lawful: { (s : Self) → is_lawful (meaning s) ≡ true };
}
