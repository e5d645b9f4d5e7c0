// Writing a layout set in strips.
ghost use Rattle.std.specs.Prelude.{◌≡◌, ◌++◌, IfOk, OnOk};
ghost use Rattle.std.specs.List.{flat_map};
ghost use Rattle.basics.specs.Decimals.{digits};
ghost use Rattle.layouts.specs.Layouts.{layout_at};
ghost use Rattle.strips.specs.Strips.{body, strip_of, strips_of};

use basics::decimal::last_digits;
use lawful::layout::letter_of;
use layouts::field::Field;
use layouts::fields::fields_of;
use layouts::set::LayoutSet;
use std::alloc::{AllocError, Global};

// Adds two numbers of two digits.
fn put_pair(out: &mut Vec<u8>, low: u8, high: u8) -> Result<(), AllocError>
    ensures { OnOk result (out.new.items ≡ out.old.items ++ (digits 2 low ++ digits 2 high)) }
{
    out.extend_from_slice(&last_digits::<2>(u64::from(low)))?;
    out.extend_from_slice(&last_digits::<2>(u64::from(high)))
}

// Adds the field's body.
fn put_body(out: &mut Vec<u8>, f: Field) -> Result<(), AllocError>
    ensures { OnOk result (out.new.items ≡ out.old.items ++ body f) }
{
    match f {
        Field::Record(d) => out.extend_from_slice(&last_digits::<5>(u64::from(d))),
        Field::Range(low, high) | Field::Lines(low, high) => put_pair(out, low, high),
        Field::Number(w) | Field::Zeros(w) | Field::AllOrNoLines(w) => {
            out.extend_from_slice(&last_digits::<2>(u64::from(w)))
        }
        Field::Text(w) | Field::FilledText(w) | Field::Blanks(w) => {
            out.extend_from_slice(&last_digits::<3>(u64::from(w)))
        }
        Field::Day | Field::DayOrZero | Field::Amount | Field::Currency => Ok(()),
        Field::OneOf(a, b, c, d) => out.extend_from_slice(&[a, b, c, d]),
    }
}

// Adds the field's letter and body.
fn put_field(out: &mut Vec<u8>, f: Field) -> Result<(), AllocError>
    ensures { OnOk result (out.new.items ≡ out.old.items ++ strip_of f) }
{
    out.push(letter_of(f))?;
    put_body(out, f)
}

// Adds the fields of layout j.
fn put_layout<S: LayoutSet>(set: &S, j: usize, out: &mut Vec<u8>) -> Result<(), AllocError>
    ensures { OnOk result (out.new.items ≡ out.old.items ++ flat_map strip_of (layout_at (S.meaning set.now) j)) }
{
    for f in fields_of(set, j) {
        put_field(out, f)?;
    }
    Ok(())
}

// The strips of any layout set.
pub fn write<S: LayoutSet>(set: &S, heap: Global) -> Result<Vec<u8>, AllocError>
    ensures { IfOk result (λ v. v.items ≡ strips_of (S.meaning set.now)) }
{
    let mut out = Vec::new(heap);
    // By number, by which alone a set is asked.
    for j in 1..=set.layouts() {
        put_layout(set, j, &mut out)?;
    }
    Ok(out)
}
