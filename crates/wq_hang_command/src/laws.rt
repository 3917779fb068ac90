//! Laws about the answers of `hang`, as contracts of functions with empty bodies.

ghost use Rattle.std.specs.Prelude.{ℕ, List};
ghost use Rattle.wq_commands.specs.declared.end.End.{End};
ghost use Rattle.wq_commands.specs.HangPromise.{KeepsHang, KeepsHold};
ghost use Rattle.wq_hang_command.specs.Hanging.{Hangs};
ghost use Rattle.wq_hang_command.specs.Holding.{Holds};

/// An answer of `hang` keeps its promise.
pub fn a_hang_keeps_its_promise()
    ensures { (declared lanes : List ℕ) (end : End) (out : List ℕ) → Hangs declared lanes end out
        → KeepsHang declared lanes end out }
{}

/// An answer of `hang` where items must go on keeps its promise.
pub fn a_hold_keeps_its_promise()
    ensures { (names : List (List ℕ)) (declared lanes : List ℕ) (end : End) (out : List ℕ)
        → Holds names declared lanes end out → KeepsHold names declared lanes end out }
{}
