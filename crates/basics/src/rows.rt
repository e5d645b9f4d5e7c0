// A stack of rows over memory that a caller lends, for every kind of row.
ghost use Rattle.std.specs.Prelude.{◌≡◌, ℕ, ◌+◌, ◌<◌, ◌≤◌, length, MatchResult, slice_set};

// The rows below `used` are on the stack, and the others are free. A count beside lent memory, and
// no Vec, since there is to be no heap.
#[derive(Drop)]
pub struct RowStack<'a, T> {
    rows: &'a mut [T],
    used: usize,
}

// No row is free.
#[derive(Clone, Copy, Debug, PartialEq, Eq)]
pub struct NoFreeRow;

impl<'a, T: Copy> RowStack<'a, T> {
    // The stack over these rows, of which so many are used.
    pub fn over(rows: &'a mut [T], used: usize) -> RowStack<'a, T>
        ensures same { result.rows.now ≡ rows.old }
        ensures lent { result.rows.ghost_name ≡ rows.entry.ghost_name }
        ensures used { result.used ≡ used }
    {
        RowStack { rows, used }
    }

    // Puts a row on top, or refuses and leaves everything as it was. `lent` says that the rows
    // written to are the caller's.
    pub fn push(&mut self, row: T) -> Result<(), NoFreeRow>
        ensures lent { self.new.rows.ghost_name ≡ self.old.rows.ghost_name }
        ensures pushed { MatchResult result (λ _. (self.old.used < length self.old.rows.now) × (self.new.rows.now ≡ slice_set self.old.rows.now self.old.used row) × (self.new.used ≡ self.old.used + 1)) (λ _. (length self.old.rows.now ≤ self.old.used) × (self.new.rows.now ≡ self.old.rows.now) × (self.new.used ≡ self.old.used)) }
    {
        if self.used >= self.rows.len() {
            return Err(NoFreeRow);
        }
        self.rows[self.used] = row;
        self.used += 1;
        Ok(())
    }

    // How many rows are used.
    pub fn used(&self) -> usize
        ensures { result ≡ self.now.used }
    {
        self.used
    }
}

// Puts one row behind the used ones, and answers how many are used then.
pub fn put<T: Copy>(rows: &mut [T], used: usize, row: T) -> Result<usize, NoFreeRow>
    ensures { MatchResult result (λ n. (used < length rows.old) × (rows.new ≡ slice_set rows.old used row) × (n ≡ used + 1)) (λ _. (length rows.old ≤ used) × (rows.new ≡ rows.old)) }
{
    let mut stack = RowStack::over(rows, used);
    stack.push(row)?;
    Ok(stack.used())
}
