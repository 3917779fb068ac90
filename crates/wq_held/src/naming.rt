//! Which runtime a value belongs to.
//!
//! What a lock protects is known by its type alone. So the type of a runtime, of its
//! seats and of `Closed` names the runtime: what it was made of, and the ledger in
//! which its seats count. The names occur in proofs only; no code runs here.

use std::marker::Brand;
use std::sync::ledger::Ledger;

/// The name of one runtime: its ledger, the wiring of its declaration and
/// assignment, and how many rows it has room for.
///
/// A caller writes its code for every `N: Naming`. At one call it names one runtime, by `Brand`.
pub trait Naming: Ledger {
    ghost use Rattle.std.specs.Prelude.{ℕ};
    ghost use Rattle.wq_core.specs.Wiring.{Wiring};

    ghost wiring: { Wiring };

    ghost rows: { ℕ };
}

impl Naming for Brand {
    ghost use Rattle.std.specs.Prelude.{[]};

    ghost wiring = { record { waits = []; lane_of_item = []; lanes = 0; ordered = []; bare = []; helpers = 0 } };

    ghost rows = { 0 };
}
