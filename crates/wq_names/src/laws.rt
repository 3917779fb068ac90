//! Laws about names, as contracts of functions with empty bodies.

ghost use Rattle.std.specs.Prelude.{◌≡◌, ℕ, List, Ok, decimal, filter, length, map};
ghost use Rattle.std.specs.List.{range_with_len};
ghost use Rattle.wq_text.specs.Lines.{lines_of};
ghost use Rattle.wq_groups.specs.Partition.{Partition};
ghost use Rattle.wq_core.specs.Workqueues.{Workqueues};
ghost use Rattle.wq_cert.specs.Texts.{workqueues_of_text};
ghost use Rattle.wq_names.specs.Names.{is_workqueue_line, names_of, spelled_number};

/// Each workqueue has the name on its own line: a text that says which workqueues there are has a line for each, and
/// these lines, from which the names are read in order, spell the numbers 0, 1, 2 and so on.
pub fn names_come_in_the_order_of_numbers()
    ensures numbers { (names : List (List ℕ)) (p : Partition) (text : List ℕ) (ws : Workqueues) →
        length names ≡ length p.group_of → workqueues_of_text names p text ≡ Ok ws →
        map spelled_number (filter is_workqueue_line (lines_of text))
        ≡ map decimal (range_with_len 0 ws.assignment.lanes) }
    ensures one_each { (names : List (List ℕ)) (p : Partition) (text : List ℕ) (ws : Workqueues) →
        length names ≡ length p.group_of → workqueues_of_text names p text ≡ Ok ws →
        length (names_of text) ≡ ws.assignment.lanes }
{}
