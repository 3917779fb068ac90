//! Laws about workqueues that stay as they are, as contracts of functions with empty bodies.

ghost use Rattle.std.specs.Prelude.{◌≡◌, ℕ, ◌+◌, ◌<◌, List};
ghost use Rattle.std.specs.List.{All};
ghost use Rattle.wq_items.specs.Chain.{IsChain, Circle};
ghost use Rattle.wq_items.specs.Table.{ItemWaits};
ghost use Rattle.wq_groups.specs.Declaration.{Declaration, IsDeclaration};
ghost use Rattle.wq_groups.specs.Assignment.{IsAssignment, IsAssignmentOf};
ghost use Rattle.wq_core.specs.Wiring.{HasRescuer, RescuedWaits, lane_of};
ghost use Rattle.wq_core.specs.Workqueues.{Workqueues, wiring_of};
ghost use Rattle.wq_core.specs.Deadlock.{Deadlocks};
ghost use Rattle.wq_fixed.specs.Fixed.{Fixed, IsFixed, Keeps, AllDeadlock, fixed_lanes, start, new_among};

/// The start keeps the fixed workqueues, and is an assignment of the groups to at most 4,096.
pub fn the_start_keeps_them()
    ensures { (groups : ℕ) (f : Fixed) → IsFixed groups f →
        Keeps f (start f) × IsAssignmentOf groups (start f).assignment }
{}

/// If lanes of the start that have a rescuer wait for one another in a chain, any workqueues that keep the fixed ones
/// and have fewer new ones than the chain deadlock.
pub fn a_chain_of_the_start_shows_the_fewest()
    ensures { (d : Declaration) (f : Fixed) (ws : Workqueues) (lanes : List ℕ) → IsDeclaration d → IsFixed d.groups f →
        IsAssignment d.groups ws.assignment → Keeps f ws → IsChain (RescuedWaits (wiring_of d (start f))) lanes →
        All (λ q. q < (start f).assignment.lanes) lanes →
        ws.assignment.lanes < fixed_lanes f + new_among f lanes → Deadlocks (wiring_of d ws) }
{}

/// If lanes of the start that have a rescuer wait in a circle, or an item on such a lane waits for one on a bare lane,
/// any workqueues that keep the fixed ones deadlock.
pub fn a_start_that_hangs_shows_that_all_do()
    ensures circle { (d : Declaration) (f : Fixed) → IsDeclaration d → IsFixed d.groups f →
        Circle (RescuedWaits (wiring_of d (start f))) → AllDeadlock d f }
    ensures no_rescuer { (d : Declaration) (f : Fixed) (i j : ℕ) → IsDeclaration d → IsFixed d.groups f →
        ItemWaits d.waits i j → HasRescuer (wiring_of d (start f)) (lane_of (wiring_of d (start f)) i) →
        (¬ HasRescuer (wiring_of d (start f)) (lane_of (wiring_of d (start f)) j)) → AllDeadlock d f }
{}
