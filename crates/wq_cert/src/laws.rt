//! Laws about certificates, as contracts of functions with empty bodies: what is read is in range; which fault is
//! returned; what is printed is read back; and what is printed keeps the limits of what is read.
//!
//! They speak of the definitions of what is printed and read, whatever code prints and reads.

ghost use Rattle.std.specs.Prelude.{◌≡◌, ℕ, ◌+◌, ◌<◌, ◌≤◌, ◌==◌, if◌then◌else◌, List, [], ◌∷◌, ◌++◌, length, Option};
ghost use Rattle.std.specs.Prelude.{IfSome, Ok, ◌≢◌, ◌↔◌, take, AllPairs, Some, None, Err, codes, true, false};
ghost use Rattle.std.specs.Prelude.{slice_index_or};
ghost use Rattle.std.specs.List.{All, list_any};
ghost use Rattle.wq_text.specs.Lines.{LineView, lines_of};
ghost use Rattle.wq_text.specs.Numbers.{Spells};
ghost use Rattle.wq_items.specs.Building.{and_then};
ghost use Rattle.wq_items.specs.Table.{Table, IsTable};
ghost use Rattle.wq_items.specs.declared.target.Target.{Target};
ghost use Rattle.wq_groups.specs.Partition.{Partition, IsPartition};
ghost use Rattle.wq_groups.specs.Assignment.{Assignment, IsAssignment, item_lane, item_lanes, IsAssignmentOf};
ghost use Rattle.wq_core.specs.Workqueues.{Workqueues};
ghost use Rattle.wq_core.specs.declared.step.Step.{Step};
ghost use Rattle.wq_cert.specs.Certificate.{OfPlan, OfCircle, PlanCertificate, CircleCertificate, Certificate};
ghost use Rattle.wq_cert.specs.CircleText.{circle_text};
ghost use Rattle.wq_cert.specs.PlanText.{plan_line, plan_text};
ghost use Rattle.wq_cert.specs.Part.{AreKeptPlaces, has_unsure, made_of, reading_text};
ghost use Rattle.wq_cert.specs.RunText.{run_text};
ghost use Rattle.wq_cert.specs.Texts.{max_certificate, max_certificate_line, answer_of, assignment_of_text};
ghost use Rattle.wq_cert.specs.Texts.{workqueues_of_text, run_of};
ghost use Rattle.wq_cert.specs.declared.fault.CertError.{CertError};
ghost use Rattle.wq_cert.specs.declared.fault.CertError.TheVariants.{BadCertLine, NotAllItems};
ghost use Rattle.wq_cert.specs.FirstFaults.{line_of, NoLineIsAtFault, IsOfTheFirstLine};
ghost use Rattle.wq_cert.specs.Forms.{number_of, begins_with};
ghost use Rattle.wq_cert.specs.Ranges.{IsArcOf, IsStepOf, AreWorkqueuesOf, IsRunOf, IsCertificateOf};
ghost use Rattle.wq_cert.specs.LineRows.{LineForm, StandsInPlan, StandsInCircle, StandsInRun, BreaksLine, KeepsLine};
ghost use Rattle.wq_cert.specs.Lines.{CertLine, cert_lines};
ghost use Rattle.wq_cert.specs.Reading.{assignment_of, is_bare_line, plan_reading, circle_reading, run_reading};
ghost use Rattle.wq_cert.specs.Reading.{workqueues_reading};
ghost use Rattle.wq_cert.specs.WorkqueueRows.{AreFirstWorkqueues, BreaksWorkqueueRow, AllStand, begins_workqueue};
ghost use Rattle.wq_cert.specs.Spelled.{words_of_lines, words_of_text, workqueue_lines, IsOnWorkqueue, AreWorkqueues};
ghost use Rattle.wq_cert.specs.Spelled.{SpellsPlan, SpellsCircle, SpellsRun, SpellsWorkqueues, SpellsCertificate};
ghost use Rattle.wq_cert.specs.Spelled.{SpellsAssignment, KeepsLimits};

/// What is read is in range: declared items, groups on at most 4,096 workqueues, as many arcs as the text says, and
/// fewer than 2^32 steps.
pub fn what_is_read_is_in_range()
    ensures answer { (names : List (List ℕ)) (p : Partition) (text : List ℕ) (c : Certificate) → IsPartition p →
        length names ≡ length p.group_of → answer_of names p text ≡ Ok c → IsCertificateOf (length names) p.groups c }
    ensures assignment { (names : List (List ℕ)) (p : Partition) (text : List ℕ) (a : Assignment) → IsPartition p →
        length names ≡ length p.group_of → assignment_of_text names p text ≡ Ok a → IsAssignmentOf p.groups a }
    ensures workqueues { (names : List (List ℕ)) (p : Partition) (text : List ℕ) (ws : Workqueues) → IsPartition p →
        length names ≡ length p.group_of → workqueues_of_text names p text ≡ Ok ws → AreWorkqueuesOf p.groups ws }
    ensures run { (names : List (List ℕ)) (text : List ℕ) (steps : List Step) → run_of names text ≡ Ok steps →
        IsRunOf (length names) steps }
    ensures made { (names : List (List ℕ)) (waits : List (List Target)) (text : List ℕ) (kept : Option (List ℕ))
        (steps : List Step) → made_of names waits text ≡ Ok (kept, steps) → IsRunOf (length names) steps }
{}

/// If no line of a text of workqueues begins with `norescuer`, reading it gives the same as reading it as an
/// assignment: the same refusal, or the same assignment, with a rescuer for each workqueue.
pub fn a_text_without_norescuer_lines_is_that_of_an_assignment()
    ensures assignment { (names : List (List ℕ)) (p : Partition) (text : List ℕ) →
        list_any is_bare_line (cert_lines (lines_of text)) ≡ false →
        and_then (λ (ws : Workqueues). Ok ws.assignment) (workqueues_of_text names p text)
        ≡ assignment_of_text names p text }
    ensures rescuers { (names : List (List ℕ)) (p : Partition) (text : List ℕ) (ws : Workqueues) (q : ℕ) →
        list_any is_bare_line (cert_lines (lines_of text)) ≡ false →
        workqueues_of_text names p text ≡ Ok ws → slice_index_or ws.bare q false ≡ false }
{}

/// All certificates that are too long are refused in the same way, and the bytes up to the first one too many show it:
/// what comes after them makes no difference.
pub fn a_long_certificate_is_refused_by_its_prefix()
    ensures answer { (names : List (List ℕ)) (p : Partition) (text : List ℕ) → max_certificate < length text →
        answer_of names p text ≡ Err (BadCertLine 0) }
    ensures assignment { (names : List (List ℕ)) (p : Partition) (text : List ℕ) → max_certificate < length text →
        assignment_of_text names p text ≡ Err (BadCertLine 0) }
    ensures workqueues { (names : List (List ℕ)) (p : Partition) (text : List ℕ) → max_certificate < length text →
        workqueues_of_text names p text ≡ Err (BadCertLine 0) }
    ensures run { (names : List (List ℕ)) (text : List ℕ) → max_certificate < length text →
        run_of names text ≡ Err (BadCertLine 0) }
    ensures prefix_of_answer { (names : List (List ℕ)) (p : Partition) (text : List ℕ) →
        answer_of names p (take (max_certificate + 1) text) ≡ answer_of names p text }
    ensures prefix_of_assignment { (names : List (List ℕ)) (p : Partition) (text : List ℕ) →
        assignment_of_text names p (take (max_certificate + 1) text) ≡ assignment_of_text names p text }
    ensures prefix_of_workqueues { (names : List (List ℕ)) (p : Partition) (text : List ℕ) →
        workqueues_of_text names p (take (max_certificate + 1) text) ≡ workqueues_of_text names p text }
    ensures prefix_of_run { (names : List (List ℕ)) (text : List ℕ) →
        run_of names (take (max_certificate + 1) text) ≡ run_of names text }
{}

/// A word is read as a number exactly if it is the one spelling of that number.
pub fn a_number_is_read_by_its_spelling()
    ensures { (word : List ℕ) (n : ℕ) → (number_of word ≡ Some n) ↔ Spells word n }
{}

/// Lines are read exactly if their words are those of the forms that follow one another, and then as what these forms
/// say: a plan, a circle, a run, or the workqueues of an assignment.
pub fn lines_are_read_where_they_spell()
    ensures plan { (names : List (List ℕ)) (p : Partition) (lines : List CertLine) (c : PlanCertificate) →
        AllPairs (λ (a b : List ℕ). a ≢ b) names → length names ≡ length p.group_of →
        (plan_reading names p lines ≡ Ok c) ↔ SpellsPlan names p (words_of_lines lines) c }
    ensures circle { (names : List (List ℕ)) (lines : List CertLine) (c : CircleCertificate) →
        AllPairs (λ (a b : List ℕ). a ≢ b) names →
        (circle_reading names lines ≡ Ok c) ↔ SpellsCircle names (words_of_lines lines) c }
    ensures run { (names : List (List ℕ)) (lines : List CertLine) (steps : List Step) →
        AllPairs (λ (a b : List ℕ). a ≢ b) names →
        (run_reading names lines ≡ Ok steps) ↔ SpellsRun names (words_of_lines lines) steps }
    ensures workqueues { (names : List (List ℕ)) (p : Partition) (lines : List CertLine) (a : Assignment) →
        AllPairs (λ (a b : List ℕ). a ≢ b) names → length names ≡ length p.group_of →
        (workqueues_reading names p lines ≡ Ok a) ↔ SpellsWorkqueues names p (words_of_lines lines) a }
{}

/// A text is read exactly if it keeps the limits and the words of its lines are those of an answer, of an assignment or
/// of a run, and then as what these say.
pub fn texts_are_read_where_they_spell()
    ensures answer { (names : List (List ℕ)) (p : Partition) (text : List ℕ) (c : Certificate) →
        AllPairs (λ (a b : List ℕ). a ≢ b) names → length names ≡ length p.group_of →
        (answer_of names p text ≡ Ok c) ↔ (KeepsLimits text × SpellsCertificate names p (words_of_text text) c) }
    ensures assignment { (names : List (List ℕ)) (p : Partition) (text : List ℕ) (a : Assignment) →
        AllPairs (λ (a b : List ℕ). a ≢ b) names → length names ≡ length p.group_of →
        (assignment_of_text names p text ≡ Ok a)
        ↔ (KeepsLimits text × SpellsAssignment names p (words_of_text text) a) }
    ensures run { (names : List (List ℕ)) (text : List ℕ) (steps : List Step) →
        AllPairs (λ (a b : List ℕ). a ≢ b) names →
        (run_of names text ≡ Ok steps) ↔ (KeepsLimits text × SpellsRun names (words_of_text text) steps) }
{}

/// If a text within the limits is refused at a line, that line is the first at fault: the text has the line; whatever
/// comes after it changes nothing; and a text of fewer of its lines is read, or refused at no line.
pub fn a_refusal_is_of_the_first_line_at_fault()
    ensures answer { (names : List (List ℕ)) (p : Partition) (text : List ℕ) (fault : CertError) → KeepsLimits text →
        answer_of names p text ≡ Err fault → 0 < line_of fault → IsOfTheFirstLine (answer_of names p) text fault }
    ensures assignment { (names : List (List ℕ)) (p : Partition) (text : List ℕ) (fault : CertError) →
        KeepsLimits text →
        assignment_of_text names p text ≡ Err fault → 0 < line_of fault →
        IsOfTheFirstLine (assignment_of_text names p) text fault }
    ensures run { (names : List (List ℕ)) (text : List ℕ) (fault : CertError) → KeepsLimits text →
        run_of names text ≡ Err fault → 0 < line_of fault → IsOfTheFirstLine (run_of names) text fault }
{}

/// After the lines of workqueues, a line that isn't that of the next one is refused by the first row that it breaks,
/// whatever comes after it: its form (40), its number (43), an item that is already on a workqueue (41), a group that
/// is split (42).
pub fn the_line_of_a_workqueue_is_refused_by_its_first_row()
    ensures plan { (names : List (List ℕ)) (p : Partition) (k : ℕ) (workqueues : List (List ℕ)) (before : List CertLine)
        (line : CertLine) (after : List CertLine) (fault : CertError) → AllPairs (λ (a b : List ℕ). a ≢ b) names →
        k ≤ 4096 → length workqueues < k → words_of_lines before ≡ plan_line k ∷ workqueue_lines names workqueues →
        AreFirstWorkqueues (length names) p.group_of workqueues →
        BreaksWorkqueueRow names p.group_of workqueues line fault →
        plan_reading names p (before ++ (line ∷ after)) ≡ Err fault }
    ensures workqueues { (names : List (List ℕ)) (p : Partition) (workqueues : List (List ℕ)) (before : List CertLine)
        (line : CertLine) (after : List CertLine) (fault : CertError) → AllPairs (λ (a b : List ℕ). a ≢ b) names →
        words_of_lines before ≡ workqueue_lines names workqueues → begins_with (codes "wq") line.words ≡ true →
        AreFirstWorkqueues (length names) p.group_of workqueues →
        BreaksWorkqueueRow names p.group_of workqueues line fault →
        workqueues_reading names p (before ++ (line ∷ after)) ≡ Err fault }
{}

/// If a `plan`, `chain`, `circle`, `arc` or `run` line or that of a step comes next, a line is refused by the first row
/// that it breaks, whatever comes after it: its form (40), its number (43).
pub fn each_other_line_is_refused_by_its_first_row()
    ensures plan { (names : List (List ℕ)) (p : Partition) (form : LineForm) (before : List CertLine) (line : CertLine)
        (after : List CertLine) (fault : CertError) → AllPairs (λ (a b : List ℕ). a ≢ b) names →
        length names ≡ length p.group_of →
        StandsInPlan names p (words_of_lines before) form → BreaksLine names form line fault →
        plan_reading names p (before ++ (line ∷ after)) ≡ Err fault }
    ensures circle { (names : List (List ℕ)) (form : LineForm) (before : List CertLine) (line : CertLine)
        (after : List CertLine) (fault : CertError) → AllPairs (λ (a b : List ℕ). a ≢ b) names →
        StandsInCircle names (words_of_lines before) form → BreaksLine names form line fault →
        circle_reading names (before ++ (line ∷ after)) ≡ Err fault }
    ensures run { (names : List (List ℕ)) (form : LineForm) (before : List CertLine) (line : CertLine)
        (after : List CertLine) (fault : CertError) → AllPairs (λ (a b : List ℕ). a ≢ b) names →
        StandsInRun names (words_of_lines before) form → BreaksLine names form line fault →
        run_reading names (before ++ (line ∷ after)) ≡ Err fault }
{}

/// If a line is there and breaks no row, neither it nor any line before it is at fault.
pub fn a_line_that_breaks_no_row_is_no_fault()
    ensures plan { (names : List (List ℕ)) (p : Partition) (form : LineForm) (before : List CertLine)
        (line : CertLine) →
        AllPairs (λ (a b : List ℕ). a ≢ b) names → length names ≡ length p.group_of →
        StandsInPlan names p (words_of_lines before) form → KeepsLine names form line →
        NoLineIsAtFault (plan_reading names p (before ++ (line ∷ []))) }
    ensures circle { (names : List (List ℕ)) (form : LineForm) (before : List CertLine) (line : CertLine) →
        AllPairs (λ (a b : List ℕ). a ≢ b) names → StandsInCircle names (words_of_lines before) form →
        KeepsLine names form line → NoLineIsAtFault (circle_reading names (before ++ (line ∷ []))) }
    ensures run { (names : List (List ℕ)) (form : LineForm) (before : List CertLine) (line : CertLine) →
        AllPairs (λ (a b : List ℕ). a ≢ b) names → StandsInRun names (words_of_lines before) form →
        KeepsLine names form line → NoLineIsAtFault (run_reading names (before ++ (line ∷ []))) }
{}

/// After the lines of the workqueues, an item that is on none is reported first (41, of no line), whatever comes there.
/// In an assignment by `wq` lines alone, a line with another first word is refused there (40) if no item is missing.
pub fn missing_items_are_answered_after_the_workqueues()
    ensures plan { (names : List (List ℕ)) (p : Partition) (workqueues : List (List ℕ)) (lines : List CertLine)
        (after : List (List (List ℕ))) → AllPairs (λ (a b : List ℕ). a ≢ b) names → length names ≡ length p.group_of →
        words_of_lines lines ≡ plan_line (length workqueues) ∷ (workqueue_lines names workqueues ++ after) →
        AreFirstWorkqueues (length names) p.group_of workqueues → ¬ (AllStand (length names) workqueues) →
        plan_reading names p lines ≡ Err (NotAllItems 0) }
    ensures workqueues { (names : List (List ℕ)) (p : Partition) (workqueues : List (List ℕ))
        (before after : List CertLine) →
        AllPairs (λ (a b : List ℕ). a ≢ b) names → length names ≡ length p.group_of →
        words_of_lines before ≡ workqueue_lines names workqueues → begins_workqueue after ≡ false →
        AreFirstWorkqueues (length names) p.group_of workqueues → ¬ (AllStand (length names) workqueues) →
        workqueues_reading names p (before ++ after) ≡ Err (NotAllItems 0) }
    ensures other { (names : List (List ℕ)) (p : Partition) (workqueues : List (List ℕ)) (before : List CertLine)
        (line : CertLine) (after : List CertLine) → AllPairs (λ (a b : List ℕ). a ≢ b) names →
        length names ≡ length p.group_of → words_of_lines before ≡ workqueue_lines names workqueues →
        begins_with (codes "wq") line.words ≡ false → AreWorkqueues (length names) p.group_of workqueues →
        workqueues_reading names p (before ++ (line ∷ after)) ≡ Err (BadCertLine line.no) }
{}

/// A line after the end of a plan, of a run, or of a circle with a run is refused (40).
pub fn a_line_after_the_end_is_refused()
    ensures plan { (names : List (List ℕ)) (p : Partition) (lines : List CertLine) (c : PlanCertificate)
        (line : CertLine)
        (after : List CertLine) → plan_reading names p lines ≡ Ok c →
        plan_reading names p (lines ++ (line ∷ after)) ≡ Err (BadCertLine line.no) }
    ensures circle { (names : List (List ℕ)) (lines : List CertLine) (c : CircleCertificate) (line : CertLine)
        (after : List CertLine) → circle_reading names lines ≡ Ok c → c.steps ≢ None →
        circle_reading names (lines ++ (line ∷ after)) ≡ Err (BadCertLine line.no) }
    ensures run { (names : List (List ℕ)) (lines : List CertLine) (steps : List Step) (line : CertLine)
        (after : List CertLine) → run_reading names lines ≡ Ok steps →
        run_reading names (lines ++ (line ∷ after)) ≡ Err (BadCertLine line.no) }
{}

/// A plan or a run that is cut before its last line ends too early (40, of no line).
pub fn a_certificate_cut_short_ends_too_early()
    ensures plan { (names : List (List ℕ)) (p : Partition) (lines cut : List CertLine) (c : PlanCertificate) →
        cut ≢ [] →
        plan_reading names p (lines ++ cut) ≡ Ok c → plan_reading names p lines ≡ Err (BadCertLine 0) }
    ensures run { (names : List (List ℕ)) (lines cut : List CertLine) (steps : List Step) → cut ≢ [] →
        run_reading names (lines ++ cut) ≡ Ok steps → run_reading names lines ≡ Err (BadCertLine 0) }
{}

/// The workqueue of an item is the one on whose line the item is.
pub fn an_item_is_on_the_workqueue_of_its_line()
    ensures { (p : Partition) (workqueues : List (List ℕ)) (i q : ℕ) → IsPartition p →
        AreWorkqueues (length p.group_of) p.group_of workqueues →
        i < length p.group_of →
        (item_lane (assignment_of p workqueues) p.group_of i ≡ q) ↔ IsOnWorkqueue workqueues q i }
{}

/// The text of a circle of 1 to 4,096 arcs that isn't too long says these arcs and, if there is a run after them, its
/// steps, whatever the groups are.
pub fn a_circle_text_is_read_back()
    ensures { (t : Table) (p : Partition) (arcs : List (ℕ × ℕ)) (steps : Option (List Step)) → IsTable t →
        0 < length arcs → length arcs ≤ 4096 → All (IsArcOf (length t.names)) arcs →
        IfSome steps (All (IsStepOf (length t.names))) →
        length (circle_text t.names arcs steps) ≤ max_certificate →
        answer_of t.names p (circle_text t.names arcs steps) ≡ Ok (OfCircle (record { arcs = arcs; steps = steps })) }
{}

/// The text of a circle of up to 4,096 arcs and a run of up to 65,536 steps keeps the limits of what is read: it has at
/// most 8,388,608 bytes, and at most 524,288 in a line.
pub fn a_circle_text_is_within_the_limits()
    ensures text { (t : Table) (arcs : List (ℕ × ℕ)) (steps : Option (List Step)) → IsTable t → length arcs ≤ 4096 →
        IfSome steps (All (IsStepOf (length t.names))) → IfSome steps (λ run. length run ≤ 65536) →
        length (circle_text t.names arcs steps) ≤ max_certificate }
    ensures lines { (t : Table) (arcs : List (ℕ × ℕ)) (steps : Option (List Step)) → IsTable t → length arcs ≤ 4096 →
        All (IsArcOf (length t.names)) arcs → IfSome steps (All (IsStepOf (length t.names))) →
        IfSome steps (λ run. length run ≤ 65536) →
        All (λ (line : LineView). length line.bytes
        ≤ max_certificate_line) (lines_of (circle_text t.names arcs steps)) }
{}

/// The text of a plan of up to 4,096 workqueues and 4,095 arcs says its assignment and its chain. The chain has one
/// group more than arcs, or none if there is no workqueue. Read as an assignment, the text says the same assignment.
pub fn a_plan_text_is_read_back()
    ensures answer { (t : Table) (p : Partition) (a : Assignment) (chain : List (ℕ × ℕ)) → IsTable t → IsPartition p →
        length p.group_of ≡ length t.names → IsAssignment p.groups a → a.lanes ≤ 4096 →
        All (IsArcOf (length t.names)) chain → length chain ≤ 4095 → (a.lanes ≡ 0 → chain ≡ []) →
        answer_of t.names p (plan_text t.names a.lanes (item_lanes a p.group_of) chain)
        ≡ Ok (OfPlan (record { assignment = a; length = if a.lanes == 0 then 0 else length chain + 1; arcs = chain })) }
    ensures assignment { (t : Table) (p : Partition) (a : Assignment) (chain : List (ℕ × ℕ)) → IsTable t →
        IsPartition p →
        length p.group_of ≡ length t.names → IsAssignment p.groups a → a.lanes ≤ 4096 →
        All (IsArcOf (length t.names)) chain → length chain ≤ 4095 → (a.lanes ≡ 0 → chain ≡ []) →
        assignment_of_text t.names p (plan_text t.names a.lanes (item_lanes a p.group_of) chain) ≡ Ok a }
{}

/// The text of a plan of up to 4,096 workqueues and 4,096 arcs keeps the limits of what is read: it has at most
/// 8,388,608 bytes, and at most 524,288 in a line.
pub fn a_plan_text_is_within_the_limits()
    ensures text { (t : Table) (p : Partition) (a : Assignment) (chain : List (ℕ × ℕ)) → IsTable t →
        length p.group_of ≡ length t.names → a.lanes ≤ 4096 → length chain ≤ 4096 →
        length (plan_text t.names a.lanes (item_lanes a p.group_of) chain) ≤ max_certificate }
    ensures lines { (t : Table) (p : Partition) (a : Assignment) (chain : List (ℕ × ℕ)) → IsTable t →
        length p.group_of ≡ length t.names → a.lanes ≤ 4096 → All (IsArcOf (length t.names)) chain →
        length chain ≤ 4096 →
        All (λ (line : LineView). length line.bytes ≤ max_certificate_line)
        (lines_of (plan_text t.names a.lanes (item_lanes a p.group_of) chain)) }
{}

/// The text of a run that isn't too long says its steps.
pub fn a_run_text_is_read_back()
    ensures { (t : Table) (steps : List Step) → IsTable t → All (IsStepOf (length t.names)) steps →
        length (run_text t.names steps) ≤ max_certificate → run_of t.names (run_text t.names steps) ≡ Ok steps }
{}

/// The text of a run of up to 65,536 steps isn't too long.
pub fn a_run_text_is_within_the_limits()
    ensures { (t : Table) (steps : List Step) → IsTable t → All (IsStepOf (length t.names)) steps →
        length steps ≤ 65536 →
        length (run_text t.names steps) ≤ max_certificate }
{}

/// The text of a run that isn't too long, read as one that may have an unsure part, says its steps. An unsure part is
/// printed if some flush is unsure. It also says which unsure flushes are kept, if their places are in order and, of
/// several flushes declared in the same words, the first ones are kept.
pub fn a_run_text_with_an_unsure_part_is_read_back()
    ensures without { (t : Table) (steps : List Step) → IsTable t → All (IsStepOf (length t.names)) steps →
        length (run_text t.names steps) ≤ max_certificate →
        made_of t.names t.waits (run_text t.names steps) ≡ Ok (None, steps) }
    ensures part { (t : Table) (kept : List ℕ) (steps : List Step) → IsTable t →
        All (IsStepOf (length t.names)) steps → AreKeptPlaces t.waits kept → has_unsure t.waits ≡ true →
        length (reading_text t.names t.waits kept steps) ≤ max_certificate →
        made_of t.names t.waits (reading_text t.names t.waits kept steps) ≡ Ok (Some kept, steps) }
{}

/// The text of a run of up to 65,536 steps isn't too long with an unsure part either.
pub fn a_run_text_with_an_unsure_part_is_within_the_limits()
    ensures { (t : Table) (kept : List ℕ) (steps : List Step) → IsTable t → All (IsStepOf (length t.names)) steps →
        AreKeptPlaces t.waits kept → length steps ≤ 65536 →
        length (reading_text t.names t.waits kept steps) ≤ max_certificate }
{}
