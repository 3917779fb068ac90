//! Laws about directives, as contracts of functions with empty bodies.

ghost use Rattle.std.specs.Prelude.{◌≡◌, ◌↔◌, ℕ, List, Err, None, Some, IsOk};
ghost use Rattle.std.specs.List.{All, Any};
ghost use Rattle.wq_text.specs.Lines.{LineView};
ghost use Rattle.wq_decl.specs.declared.directive.Directive.{Directive};
ghost use Rattle.wq_decl.specs.declared.fault.DeclError.{DeclError};
ghost use Rattle.wq_decl.specs.Reading.{directives, first_fault, reading};
ghost use Rattle.wq_decl.specs.Faults.{AllRead, IsLowestDeclFault};
ghost use Rattle.wq_decl.specs.Origins.{IsFrom};
ghost use Rattle.wq_decl.specs.Rows.{BreaksRow, BreaksFirst};

/// Lines have no fault exactly if each of them reads as blank or as a directive. Otherwise the first fault is that of
/// the first line that doesn't.
pub fn first_fault_is_the_lowest()
    ensures none { (lines : List LineView) → (first_fault lines ≡ None) ↔ AllRead lines }
    ensures some { (lines : List LineView) (e : DeclError) → (first_fault lines ≡ Some e) ↔ IsLowestDeclFault lines e }
{}

/// A line has no fault exactly if it breaks no row of the table of refusals. Otherwise its fault is that of the
/// first row that it breaks: 3, 4, 5, 12 and 6, in this order.
pub fn the_first_row_of_a_line_decides()
    ensures none { (line : LineView) → IsOk (reading line) ↔ ((e : DeclError) → ¬ BreaksRow line e) }
    ensures fault { (line : LineView) (e : DeclError) → (reading line ≡ Err e) ↔ BreaksFirst line e }
{}

/// Each directive has the number of its line, and all words of that line except the first.
pub fn words_are_those_of_the_lines()
    ensures { (lines : List LineView) → All (λ (d : ℕ × Directive). Any (IsFrom d) lines) (directives lines) }
{}
