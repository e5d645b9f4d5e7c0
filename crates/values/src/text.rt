// The text that a row points to.
ghost use Rattle.std.specs.Prelude.{◌≡◌, true, false, MatchOption};
ghost use Rattle.values.specs.Rows.{text_at, inside};

use crate::row::ValueRow;

// The text of a row over these bytes, or none where it lies outside of them.
pub fn text_of(bytes: &[u8], row: ValueRow) -> Option<&[u8]>
    ensures { MatchOption result (inside bytes.now row ≡ false) (λ t. (inside bytes.now row ≡ true) × (t.now ≡ text_at bytes.now row)) }
{
    let from = row.place.checked_sub(1)?;
    // Compared here and cut once: two cuts by `get` took four times as long.
    if row.length > bytes.len() || from > bytes.len() - row.length {
        return None;
    }
    Some(&bytes[from..from + row.length])
}
