// The fields of one layout of a set, one after another.
ghost use Rattle.std.specs.Prelude.{◌≡◌};
ghost use Rattle.layouts.specs.Layouts.{layout_at};

use crate::field::Field;
use crate::set::LayoutSet;
use std::marker::Model;

// An iterator over the fields of a layout. Contracts see the list of the fields that are left.
#[derive(Drop)]
pub struct Fields<'a, S: LayoutSet> {
    set: &'a S,
    layout: usize,
    next: usize,
}

impl<'a, S: LayoutSet> Model for Fields<'a, S> {
    ghost use Rattle.std.specs.Prelude.{◌-◌, ◌≤◌, List, drop};
    ghost use Rattle.layouts.specs.declared.field.Field.{Field};
    ghost use Rattle.layouts.specs.Layouts.{layout_at};

    ghost Value = { List Field };

    ghost view = { λ it. drop (it.next - 1) (layout_at (S.meaning it.set.now) it.layout) };

    ghost invariant = { λ it. 1 ≤ it.next };
}

// The fields of layout j; there are none where the set has no such layout.
pub fn fields_of<S: LayoutSet>(set: &S, j: usize) -> Fields<'_, S>
    ensures { result ≡ layout_at (S.meaning set.now) j }
{
    Fields {
        set,
        layout: j,
        next: 1,
    }
}

impl<'a, S: LayoutSet> Iterator for Fields<'a, S> {
    ghost use Rattle.std.specs.Iterator.{YieldsFirst, item_count};

    type Item = Field;

    ghost next_gives = { YieldsFirst (λ fields. fields) };

    ghost remaining = { item_count (λ fields. fields) };

    fn next(&mut self) -> Option<Field> {
        let field = self.set.field(self.layout, self.next)?;
        self.next += 1;
        Some(field)
    }
}
