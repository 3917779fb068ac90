//! Laws about the answers of `run`, as contracts of functions with empty bodies.

ghost use Rattle.std.specs.Prelude.{◌≡◌, ◌≢◌, ◌↔◌, ℕ, List};
ghost use Rattle.wq_commands.specs.declared.end.End.{End};
ghost use Rattle.wq_commands.specs.declared.end.End.TheVariants.{Good, Bad, Refused};
ghost use Rattle.wq_commands.specs.Answer.{Answers};
ghost use Rattle.wq_run.specs.Running.{IsRunnable, RunsPlan};

/// A text has one end of `run`, whatever the number of helpers. Unless that is a
/// plan that was run, one text is printed for it.
pub fn a_text_has_one_end()
    ensures end { (helpers others : ℕ) (text : List ℕ) (end other : End) (out printed : List ℕ) →
        RunsPlan helpers text end out → RunsPlan others text other printed → end ≡ other }
    ensures out { (helpers others : ℕ) (text : List ℕ) (end : End) (out printed : List ℕ) → end ≢ Good →
        RunsPlan helpers text end out → RunsPlan others text end printed → out ≡ printed }
{}

/// If `plan` prints a circle, `run` prints the same text.
pub fn a_circle_is_printed_as_by_plan()
    ensures { (helpers : ℕ) (text out : List ℕ) → RunsPlan helpers text Bad out ↔ Answers text Bad out }
{}

/// If `plan` refuses a text, `run` refuses it in the same words.
pub fn a_refusal_is_printed_as_by_plan()
    ensures { (helpers : ℕ) (text out : List ℕ) → Answers text Refused out → RunsPlan helpers text Refused out }
{}

/// A plan is run exactly if a text declares items whose plan a runtime can have: at most 256 workqueues.
pub fn what_is_runnable_is_run()
    ensures run { (helpers : ℕ) (text : List ℕ) (end : End) (out : List ℕ) → IsRunnable text →
        RunsPlan helpers text end out → end ≡ Good }
    ensures runnable { (helpers : ℕ) (text out : List ℕ) → RunsPlan helpers text Good out → IsRunnable text }
{}
