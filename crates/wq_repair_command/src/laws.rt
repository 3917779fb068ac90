//! Laws about what `repair` prints, as contracts of functions with empty bodies. No code runs here: the clauses are the
//! laws.

ghost use Rattle.std.specs.Prelude.{◌≡◌, ◌≢◌, ℕ, ◌≤◌, false, List, [], Ok, length, map, slice_index_or};
ghost use Rattle.std.specs.List.{range_with_len};
ghost use Rattle.wq_items.specs.Table.{Table, IsTable};
ghost use Rattle.wq_groups.specs.Assignment.{IsAssignment};
ghost use Rattle.wq_groups.specs.Partition.{Partition, IsPartition};
ghost use Rattle.wq_core.specs.Workqueues.{Workqueues};
ghost use Rattle.wq_cert.specs.Part.{has_unsure};
ghost use Rattle.wq_cert.specs.Texts.{workqueues_of_text};
ghost use Rattle.wq_names.specs.Names.{names_of};
ghost use Rattle.wq_commands.specs.declared.end.End.{End};
ghost use Rattle.wq_commands.specs.declared.end.End.TheVariants.{Good, Bad, Refused};
ghost use Rattle.wq_groups.specs.DeclaredGroups.{Declared};
ghost use Rattle.wq_commands.specs.Declaration.{declaration};
ghost use Rattle.wq_commands.specs.Deadlocking.{safe_text, Judges, JudgesDeclared};
ghost use Rattle.wq_commands.specs.PrintedChecked.{ChecksYesCircle};
ghost use Rattle.wq_repair_command.specs.AssignmentText.{assignment_text};
ghost use Rattle.wq_repair_command.specs.ReadBack.{with_each};
ghost use Rattle.wq_repair_command.specs.Repairing.{PrintsNeededCircle, PrintsTooFew, Repairs};

/// The text of up to 4,096 workqueues is read back, whatever text they have their names from: it says of each item and
/// of each workqueue what was printed.
pub fn an_assignment_text_is_read_back()
    ensures { (t : Table) (p : Partition) (ws : Workqueues) (text : List ℕ) → IsTable t → IsPartition p →
        length p.group_of ≡ length t.names → IsAssignment p.groups ws.assignment → ws.assignment.lanes ≤ 4096 →
        workqueues_of_text t.names p (assignment_text t.names p ws (names_of text)) ≡ Ok (with_each ws) }
{}

/// If workqueues are printed, `deadlock` answers `safe` to them.
pub fn what_is_printed_is_judged_safe()
    ensures { (names : List (List ℕ)) (declared text out : List ℕ) → Repairs names declared text Good out →
        Judges declared out Good safe_text }
{}

/// The names are kept: in the text that is printed each workqueue has the name that it has in the text from which the
/// names come, and one that had none, or is new, has none.
pub fn names_are_kept()
    ensures { (t : Table) (p : Partition) (ws : Workqueues) (text : List ℕ) → IsTable t → IsPartition p →
        length p.group_of ≡ length t.names → IsAssignment p.groups ws.assignment → ws.assignment.lanes ≤ 4096 →
        names_of (assignment_text t.names p ws (names_of text))
        ≡ map (λ (q : ℕ). slice_index_or (names_of text) q []) (range_with_len 0 ws.assignment.lanes) }
{}

/// Repaired workqueues are repaired to themselves: if workqueues are printed, `repair` answers to this text with the
/// text itself, whichever items may move then, unless a name is refused.
pub fn what_is_printed_is_repaired_to_itself()
    ensures { (names more : List (List ℕ)) (declared text out again : List ℕ) (end : End) →
        Repairs names declared text Good out → Repairs more declared out end again → end ≢ Refused →
        (end ≡ Good) × (again ≡ out) }
{}

/// Only one of these can be printed: workqueues, a circle or a run, or a refusal. A printed circle, with its run, is
/// the only one that can be.
pub fn repair_has_one_end()
    ensures end { (names : List (List ℕ)) (declared text : List ℕ) (end other : End) (out printed : List ℕ) →
        Repairs names declared text end out → Repairs names declared text other printed → end ≡ other }
    ensures circle { (declared : List ℕ) (s : Declared) (old : Workqueues) (out printed : List ℕ)
        → declaration declared ≡ Ok s →
        PrintsNeededCircle s old out → PrintsNeededCircle s old printed → out ≡ printed }
{}

/// `check` says yes to a printed circle: it prints `yes circle N`, where N is the number of its arcs.
pub fn a_printed_circle_is_checked_with_yes()
    ensures { (declared : List ℕ) (s : Declared) (old : Workqueues) (out : List ℕ) → declaration declared ≡ Ok s →
        PrintsNeededCircle s old out → ChecksYesCircle s out }
{}

/// A run that is printed is that of the start: if no flush is unsure, `deadlock` prints it of the start's text,
/// whatever text its names come from. (Else `deadlock` prints an unsure part, and a run of its reading.)
pub fn a_printed_run_is_that_of_the_start()
    ensures { (declared : List ℕ) (s : Declared) (old : Workqueues) (moving text out : List ℕ)
        → declaration declared ≡ Ok s → has_unsure s.table.waits ≡ false →
        old.assignment.lanes ≤ 4096 → (few : PrintsTooFew s old moving out) →
        JudgesDeclared s (assignment_text s.table.names s.partition few.start (names_of text)) Bad out }
{}
