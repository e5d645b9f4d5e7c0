// A layout that is being read.
ghost use Rattle.std.specs.Prelude.{◌≡◌, [], ◌∷◌, ◌++◌, ◌<◌, vec_len, IfOk};

use layouts::field::Field;
use std::alloc::{AllocError, Global};

// The open layout: the fields that are read, the first among them, and the byte of the first.
#[derive(Drop)]
pub struct OpenLayout {
    pub(crate) fields: Vec<Field>,
    pub(crate) from: usize,
    ghost begun: { 0 < vec_len fields },
}

impl OpenLayout {
    // The layout of this field alone, which stands at this byte.
    pub(crate) fn new(field: Field, from: usize, heap: Global) -> Result<OpenLayout, AllocError>
        ensures fields { IfOk result (λ o. o.fields.items ≡ field ∷ []) }
        ensures from { IfOk result (λ o. o.from ≡ from) }
    {
        let mut fields = Vec::new(heap);
        fields.push(field)?;
        Ok(OpenLayout { fields, from })
    }

    // The layout has one field more.
    pub(crate) fn add(mut self, field: Field) -> Result<OpenLayout, AllocError>
        ensures fields { IfOk result (λ o. o.fields.items ≡ self.fields.items ++ (field ∷ [])) }
        ensures from { IfOk result (λ o. o.from ≡ self.from) }
    {
        self.fields.push(field)?;
        Ok(self)
    }
}
