//! Laws about the answers of `plan` and `check` around fixed workqueues, as contracts of functions with empty bodies.

ghost use Rattle.std.specs.Prelude.{◌≡◌, ℕ, ◌+◌, ◌-◌, ◌<◌, ◌≤◌, ◌==◌, if◌then◌else◌, List, [], length, Option, Some};
ghost use Rattle.std.specs.Prelude.{IfSome, Ok};
ghost use Rattle.std.specs.List.{All};
ghost use Rattle.wq_items.specs.Table.{Table, IsTable};
ghost use Rattle.wq_groups.specs.Partition.{Partition, IsPartition};
ghost use Rattle.wq_groups.specs.Assignment.{IsAssignment, item_lanes};
ghost use Rattle.wq_core.specs.declared.step.Step.{Step};
ghost use Rattle.wq_core.specs.Workqueues.{Workqueues};
ghost use Rattle.wq_fixed.specs.Fixed.{Fixed, IsFixed, Keeps, fixed_lanes};
ghost use Rattle.wq_cert.specs.AroundReading.{OfPlanAround, OfCircleAround, OfNoRescuer, around_of_text};
ghost use Rattle.wq_cert.specs.AroundText.{around_text, norescuer_text};
ghost use Rattle.wq_cert.specs.CircleText.{circle_text};
ghost use Rattle.wq_cert.specs.Ranges.{IsArcOf, IsStepOf};
ghost use Rattle.wq_cert.specs.Texts.{max_certificate};
ghost use Rattle.wq_commands.specs.declared.end.End.{End};
ghost use Rattle.wq_commands.specs.declared.end.End.TheVariants.{Good};
ghost use Rattle.wq_around_command.specs.Checking.{ChecksAround};
ghost use Rattle.wq_around_command.specs.Planning.{Plans};
ghost use Rattle.wq_around_command.specs.PrintedChecked.{ChecksYesAround};
ghost use Rattle.wq_around_command.specs.Promise.{KeepsAround, YesIsTrueAround};

/// An answer of `plan` around fixed workqueues keeps its promise.
pub fn a_plan_around_keeps_its_promise()
    ensures { (declared fixed : List ℕ) (end : End) (out : List ℕ) → Plans declared fixed end out
        → KeepsAround declared fixed end out }
{}

/// A yes that `check` prints around fixed workqueues is true.
pub fn a_yes_around_is_true()
    ensures { (declared text fixed out : List ℕ) → ChecksAround declared text fixed Good out
        → YesIsTrueAround declared text fixed out }
{}

/// Around fixed workqueues, the text of a plan says which workqueues there are, their order and the chain. The chain
/// has one lane more than arcs, or none if no workqueue is new. The text of a circle says its arcs and, if there is a
/// run after them, its steps; and a norescuer text its flush and its steps, if it isn't too long.
pub fn a_text_around_is_read_back()
    ensures plan { (t : Table) (p : Partition) (f : Fixed) (ws : Workqueues) (order : List ℕ) (chain : List (ℕ × ℕ)) →
        IsTable t → IsPartition p → length p.group_of ≡ length t.names → IsFixed p.groups f →
        IsAssignment p.groups ws.assignment → Keeps f ws → ws.assignment.lanes ≤ 4096 →
        All (λ q. q < ws.assignment.lanes) order → length order ≤ 4096 →
        All (IsArcOf (length t.names)) chain → length chain ≤ 4095 →
        (ws.assignment.lanes ≡ fixed_lanes f → chain ≡ []) →
        around_of_text t.names p f (around_text t.names (fixed_lanes f) ws.assignment.lanes
        (item_lanes ws.assignment p.group_of) order chain)
        ≡ Ok (OfPlanAround (record {
          assignment = ws.assignment;
          order = order;
          length = if ws.assignment.lanes - fixed_lanes f == 0 then 0 else length chain + 1;
          arcs = chain;
        })) }
    ensures circle { (t : Table) (p : Partition) (f : Fixed) (arcs : List (ℕ × ℕ)) (steps : Option (List Step)) →
        IsTable t → 0 < length arcs → length arcs ≤ 4096 → All (IsArcOf (length t.names)) arcs →
        IfSome steps (All (IsStepOf (length t.names))) →
        length (circle_text t.names arcs steps) ≤ max_certificate →
        around_of_text t.names p f (circle_text t.names arcs steps)
        ≡ Ok (OfCircleAround (record { arcs = arcs; steps = steps })) }
    ensures norescuer { (t : Table) (p : Partition) (f : Fixed) (arc : ℕ × ℕ) (steps : List Step) →
        IsTable t → IsArcOf (length t.names) arc → All (IsStepOf (length t.names)) steps →
        length (norescuer_text t.names arc steps) ≤ max_certificate →
        around_of_text t.names p f (norescuer_text t.names arc steps)
        ≡ Ok (OfNoRescuer (record { arc = arc; steps = Some steps })) }
{}

/// What `plan` prints is answered with yes by `check` around the same fixed workqueues: a plan with K new workqueues
/// with `yes K`, a circle of N arcs with its run with `yes circle N`, and a flush to no rescuer with its run with
/// `yes norescuer`.
pub fn a_printed_answer_around_is_checked_with_yes()
    ensures { (declared fixed out : List ℕ) (end : End) → Plans declared fixed end out
        → ChecksYesAround declared fixed out end }
{}
