//! Laws about the table, as contracts of functions with empty bodies.

ghost use Rattle.std.specs.Prelude.{◌≡◌, ◌<◌, ◌^◌, ℕ, Some, decimal, map, filter_map};
ghost use Rattle.wq_explain.specs.Explaining.{explained_end, explanations, names, number_end, numbers};

/// Each of these numbers has one explanation, and no other number has one.
pub fn each_number_has_one_explanation()
    ensures { filter_map (λ row. row.code) explanations ≡ numbers }
{}

/// Each of these names has one explanation, and no other name has one.
pub fn each_name_has_one_explanation()
    ensures { map (λ row. row.name) explanations ≡ names }
{}

/// A number is found by the word of its digits exactly if it has an explanation.
pub fn a_number_is_found_by_its_digits()
    ensures { (code : ℕ) → code < 2 ^ 32 → explained_end (Some (decimal code)) ≡ number_end code }
{}
