//! Laws about answers and about ends, as contracts of functions with empty bodies.
//!
//! They speak of declarations, certificates and lists of steps alone, whatever code checks them.

ghost use Rattle.std.specs.Prelude.{◌≡◌, ◌↔◌, ℕ, ◌<◌, List, length, Result, IsOk};
ghost use Rattle.wq_items.specs.Chain.{Circle};
ghost use Rattle.wq_groups.specs.Declaration.{Declaration, IsDeclaration};
ghost use Rattle.wq_groups.specs.Assignment.{Assignment, IsAssignment};
ghost use Rattle.wq_core.specs.declared.step.Step.{Step};
ghost use Rattle.wq_core.specs.Wiring.{Wiring, LaneWaits, wiring};
ghost use Rattle.wq_core.specs.Deadlock.{IsSafe, Deadlocks, IsLeast};
ghost use Rattle.wq_fixed.specs.Fixed.{Fixed};
ghost use Rattle.wq_cert.specs.Certificate.{PlanCertificate, CircleCertificate, Certificate};
ghost use Rattle.wq_cert.specs.AroundReading.{AroundCertificate};
ghost use Rattle.wq_checker.specs.declared.answer.Yes.{Yes};
ghost use Rattle.wq_checker.specs.declared.answer.No.{No};
ghost use Rattle.wq_checker.specs.declared.around.YesAround.{YesAround};
ghost use Rattle.wq_checker.specs.declared.around.NoAround.{NoAround};
ghost use Rattle.wq_checker.specs.declared.run.RunEnd.{RunEnd};
ghost use Rattle.wq_checker.specs.Chains.{IsChainAlong, IsCircleAlong};
ghost use Rattle.wq_checker.specs.Answers.{IsGoodPlan, IsGoodCircle, IsPlanAsked, IsCircleAsked, IsAsked};
ghost use Rattle.wq_checker.specs.Answers.{AnswersCertificate};
ghost use Rattle.wq_checker.specs.Around.{AnswersAround, IsGoodAround};
ghost use Rattle.wq_core.specs.MustGoOn.{rescued_items};
ghost use Rattle.wq_checker.specs.RunEnds.{EndsAs, EndsFor};

/// A good plan is safe, and the workqueues of every assignment with fewer of them wait in a circle.
pub fn a_good_plan_is_safe_and_fewer_wait_in_a_circle()
    ensures safe { (d : Declaration) (c : PlanCertificate) → IsDeclaration d → IsGoodPlan d c →
        IsSafe (wiring d c.assignment) }
    ensures fewer { (d : Declaration) (c : PlanCertificate) (b : Assignment) → IsDeclaration d → IsPlanAsked d c →
        IsGoodPlan d c →
        IsAssignment d.groups b → b.lanes < c.assignment.lanes → Circle (LaneWaits (wiring d b)) }
{}

/// The assignment of a good plan is least: no run of it ends stuck, and every assignment to fewer workqueues deadlocks.
pub fn a_good_plan_is_least()
    ensures { (d : Declaration) (c : PlanCertificate) → IsDeclaration d → IsPlanAsked d c → IsGoodPlan d c →
        IsLeast d c.assignment }
{}

/// The chain of a good plan is a chain of groups, as many as there are workqueues: each waits for the next, along the
/// arcs.
pub fn a_good_plan_has_a_chain_of_groups()
    ensures { (d : Declaration) (c : PlanCertificate) → IsDeclaration d → IsPlanAsked d c → IsGoodPlan d c →
        (groups : List ℕ) × IsChainAlong d c.arcs groups × (length groups ≡ c.assignment.lanes) }
{}

/// A good circle goes round groups, one for each of its arcs: each waits for the next, and the last for the first.
pub fn a_good_circle_goes_round_groups()
    ensures { (d : Declaration) (c : CircleCertificate) → IsDeclaration d → IsCircleAsked d c → IsGoodCircle d c →
        IsCircleAlong d c.arcs }
{}

/// If a circle is good, the workqueues wait in a circle in every assignment.
pub fn a_good_circle_is_one_in_every_assignment()
    ensures { (d : Declaration) (c : CircleCertificate) (b : Assignment) → IsDeclaration d → IsCircleAsked d c →
        IsGoodCircle d c →
        IsAssignment d.groups b → Circle (LaneWaits (wiring d b)) }
{}

/// If a circle is good, every assignment deadlocks.
pub fn a_good_circle_deadlocks_every_assignment()
    ensures { (d : Declaration) (c : CircleCertificate) (b : Assignment) → IsDeclaration d → IsCircleAsked d c →
        IsGoodCircle d c →
        IsAssignment d.groups b → Deadlocks (wiring d b) }
{}

/// A certificate has at most one answer.
pub fn a_certificate_has_one_answer()
    ensures one { (d : Declaration) (c : Certificate) → IsDeclaration d →
        (r : Result Yes No) × AnswersCertificate d c r }
    ensures at_most_one { (d : Declaration) (c : Certificate) (r s : Result Yes No) → IsDeclaration d → IsAsked d c →
        AnswersCertificate d c r → AnswersCertificate d c s → r ≡ s }
{}

/// Around fixed workqueues, a yes is answered exactly to a good certificate.
pub fn a_yes_is_answered_exactly_to_a_good_certificate()
    ensures { (d : Declaration) (f : Fixed) (c : AroundCertificate) (r : Result YesAround NoAround) →
        AnswersAround d f c r → IsOk r ↔ IsGoodAround d f c }
{}

/// A list of steps has at most one end.
pub fn steps_have_one_end()
    ensures one { (w : Wiring) (steps : List Step) → (end : RunEnd) × EndsAs w steps end }
    ensures at_most_one { (w : Wiring) (steps : List Step) (r s : RunEnd) → EndsAs w steps r → EndsAs w steps s →
        r ≡ s }
{}

/// Where items must go on, a list of steps has only one end; and it ends as without names, if all items whose lanes
/// have a rescuer must.
pub fn steps_have_one_end_for_items()
    ensures one { (w : Wiring) (named : List ℕ) (steps : List Step) → (end : RunEnd) × EndsFor w named steps end }
    ensures at_most_one { (w : Wiring) (named : List ℕ) (steps : List Step) (r s : RunEnd) →
        EndsFor w named steps r → EndsFor w named steps s → r ≡ s }
    ensures all_rescued { (w : Wiring) (steps : List Step) (end : RunEnd) →
        EndsFor w (rescued_items w) steps end ↔ EndsAs w steps end }
{}
