// The worked examples, as facts of the rules themselves.
ghost use Rattle.std.specs.Prelude.{◌≡◌, true, false, [], ◌∷◌, length, Ok, Err, codes};
ghost use Rattle.basics.specs.Days.{is_day};
ghost use Rattle.basics.specs.Refusals.{refusal};
ghost use Rattle.layouts.specs.Layouts.{full_width};
ghost use Rattle.strips.specs.Loads.{read};
ghost use Rattle.lines.specs.Judging.{judged};
ghost use Rattle.values.specs.Values.{is_number, is_text, values_of};
ghost use Rattle.edi4.specs.Examples.{small_layout, small};

// Does nothing: what it promises holds of the definitions that the contracts of the calls cite.
pub fn worked_examples_hold()
    ensures strips_load { (read (codes "U99900PV") ≡ Ok small) × (length small_layout ≡ 3) × (full_width small_layout ≡ 26) }
    ensures a_layout_needs_a_currency { read (codes "U99900P") ≡ Err (refusal 6 1 0 0 1) }
    ensures no_two_layouts_have_the_same_digits { read (codes "U99900PVU99900PV") ≡ Err (refusal 7 1 0 0 9) }
    ensures a_line_has_its_values { (judged small (codes "UBT99900000000000017525DKK") ≡ Ok 1) × (values_of small_layout (codes "UBT99900000000000017525DKK") ≡ is_number 17525 ∷ is_text (codes "DKK") ∷ []) }
    ensures amount_zero { judged small (codes "UBT99900000000000000000DKK") ≡ Err (refusal 17 2 0 2 9) }
    ensures a_small_letter { judged small (codes "UBT99900000000000017525DkK") ≡ Err (refusal 13 2 0 3 25) }
    ensures a_line_that_ends_early { judged small (codes "UBT99900000000000017525DK") ≡ Err (refusal 11 2 0 3 26) }
    ensures a_byte_left_over { judged small (codes "UBT99900000000000017525DKKX") ≡ Err (refusal 18 2 0 4 27) }
    ensures days { (is_day 20240229 ≡ true) × (is_day 20000229 ≡ true) × (is_day 20230229 ≡ false) × (is_day 19000229 ≡ false) }
{}
