//! The machine: what it says of steps, of the work that is left and of its lanes.
//!
//! The rules are those of "The machine" in docs/DEFINITIONS.md, from which each number and each refusal was worked out
//! by hand. Which steps are lawful and which numbers they give is tested in tests/cli/rows and tests/runtime/book, too.
//! The tests take time linear in the number of steps.

use crate::declared::{core_in, helped_core_in};
use std::alloc::{Allocator, Global};
use std::process::Abort;
use std::test::Fail;
use wq_core::{Core, Entry, HelpStep, RunError, Running, Step, StepError, Waiting};
use wq_groups::LaneId;
use wq_items::ItemId;

/// A step in the numbers of its lane and item.
#[derive(Clone, Copy)]
pub(crate) enum Made {
    Queue(u16),
    Cancel(u16),
    Start(u16, u16),
    Wait(u16, u16),
    Over(u16, u16),
    Finish(u16, u16),
}

use Made::{Cancel, Finish, Over, Queue, Start, Wait};

/// The step of these numbers.
pub(crate) fn step_of(made: Made) -> Step {
    match made {
        Queue(i) => Step::Queue(ItemId::new(i)),
        Cancel(i) => Step::Cancel(ItemId::new(i)),
        Start(q, i) => Step::Start(LaneId::new(q), ItemId::new(i)),
        Wait(q, i) => Step::Wait(LaneId::new(q), ItemId::new(i)),
        Over(q, i) => Step::Over(LaneId::new(q), ItemId::new(i)),
        Finish(q, i) => Step::Finish(LaneId::new(q), ItemId::new(i)),
    }
}

/// An item that flushes another, the first on lane 1 and the second on lane 0.
const PAIR: &str = "item a\nitem b\nflush a b\n";

const PAIR_LANES: &[u16] = &[1, 0];

/// A step of the pair, the number that it gives, if it is lawful, and the work that is left after it; and then the
/// lowest lane that can move, and the steps that lanes 0 and 1 make as declared.
type Played = (
    Made,
    Option<u32>,
    u64,
    Option<u16>,
    Option<Made>,
    Option<Made>,
);

const PLAYED: &[Played] = &[
    (Cancel(0), None, 0, None, None, None),
    (Queue(0), Some(0), 4, Some(1), None, Some(Start(1, 0))),
    (Queue(0), None, 4, Some(1), None, Some(Start(1, 0))),
    (Start(1, 0), Some(0), 3, Some(1), None, Some(Wait(1, 1))),
    (
        Queue(1),
        Some(1),
        5,
        Some(0),
        Some(Start(0, 1)),
        Some(Wait(1, 1)),
    ),
    (Wait(1, 1), Some(2), 4, Some(0), Some(Start(0, 1)), None),
    (Over(1, 1), None, 4, Some(0), Some(Start(0, 1)), None),
    (Queue(0), Some(2), 8, Some(0), Some(Start(0, 1)), None),
    (Start(0, 1), Some(1), 7, Some(0), Some(Finish(0, 1)), None),
    (Queue(1), Some(3), 9, Some(0), Some(Finish(0, 1)), None),
    (
        Finish(0, 1),
        Some(1),
        8,
        Some(0),
        Some(Start(0, 1)),
        Some(Over(1, 1)),
    ),
    (Cancel(1), Some(3), 6, Some(1), None, Some(Over(1, 1))),
    (Over(1, 1), Some(2), 5, Some(1), None, Some(Finish(1, 0))),
    (Finish(1, 0), Some(0), 4, Some(1), None, Some(Start(1, 0))),
    (Start(1, 0), Some(2), 3, Some(1), None, Some(Wait(1, 1))),
    (Finish(1, 0), Some(2), 0, None, None, None),
];

/// The number that a step would give, and the work that would be left after it; or, if it gives none, the work that is
/// left now.
fn looked_ahead(core: &Core<Global>, step: &Step) -> (Option<u32>, u64) {
    let left = core.work_left();
    match core.peek(step) {
        Some(number) => (Some(number), core.work_after(step, left)),
        None => (None, left),
    }
}

/// Makes a step, and asserts what it gives, what it would give, and the work that is left.
fn assert_step(
    rt: &impl Abort,
    core: &mut Core<Global>,
    step: Step,
    number: Option<u32>,
    left: u64,
) {
    let ahead = looked_ahead(core, &step);
    let gives = core.step(step).ok();
    assert!(rt; ahead == (number, left) && (gives, core.work_left()) == ahead);
    assert!(rt; core.is_idle() == (left == 0));
}

/// Asserts the lowest lane that can move, and the steps that two lanes make as declared.
fn assert_moves(
    rt: &impl Abort,
    core: &Core<Global>,
    enabled: Option<u16>,
    first: Option<Step>,
    second: Option<Step>,
) {
    assert!(rt; core.enabled() == enabled.map(LaneId::new));
    assert!(rt; core.declared(LaneId::new(0)) == first);
    assert!(rt; core.declared(LaneId::new(1)) == second && core.declared(LaneId::new(2)).is_none());
}

/// Makes the steps of the pair.
fn play(rt: &impl Abort, core: &mut Core<Global>) {
    for (made, number, left, enabled, first, second) in PLAYED {
        assert_step(rt, core, step_of(*made), *number, *left);
        assert_moves(rt, core, *enabled, first.map(step_of), second.map(step_of));
    }
}

#[test]
fn steps_and_lanes_move_as_declared(rt: HostRuntime) -> Result<(), Fail> {
    let mut core = core_in(rt.alloc(), rt.alloc(), PAIR, 2, PAIR_LANES)??;
    play(&rt, &mut core);
    Ok(())
}

/// Asserts the lanes and the targets of the pair.
fn assert_wiring(rt: &impl Abort, core: &Core<Global>) {
    let (a, b) = (ItemId::new(0), ItemId::new(1));
    assert!(rt; core.items() == 2 && core.lanes() == 2);
    assert!(rt; core.lane_of(a).get() == 1 && core.lane_of(b).get() == 0);
    assert!(rt; core.declares(a, false, b) && !core.declares(a, true, b));
    assert!(rt; core.waits(a).len() == 1 && core.waits(b).is_empty());
}

/// Has the first item run, wait for the second one, which is pending, and be queued again; then a step is refused.
fn wait_for_pending(rt: &impl Abort, core: &mut Core<Global>) {
    let steps = [
        step_of(Queue(0)),
        step_of(Start(1, 0)),
        step_of(Queue(1)),
        step_of(Wait(1, 1)),
        step_of(Queue(0)),
        step_of(Queue(0)),
    ];
    let why = StepError::NotLawful;
    assert!(rt; core.run(&steps) == Err(RunError { at: 5, why }) && core.next_number() == 3);
}

/// Asserts what a lane runs, and what it starts next.
fn assert_lane(
    rt: &impl Abort,
    core: &Core<Global>,
    lane: u16,
    runs: Option<Running>,
    first: Option<Entry>,
) {
    let q = LaneId::new(lane);
    assert!(rt;
        core.running_on(q) == runs && core.first_on(q) == first,
        "lane {lane}"
    );
}

/// Asserts what the lanes run and start next after that, and what is unfinished.
fn assert_stands(rt: &impl Abort, core: &Core<Global>) {
    let (a, b) = (ItemId::new(0), ItemId::new(1));
    let entry = Entry { number: 0, item: a };
    let waiting = Some(Waiting {
        target: b,
        whole: false,
        mark: 2,
    });
    let made = 1;
    let running = Running {
        entry,
        made,
        waiting,
    };
    assert_lane(rt, core, 0, None, Some(Entry { number: 1, item: b }));
    assert_lane(
        rt,
        core,
        1,
        Some(running),
        Some(Entry { number: 2, item: a }),
    );
    assert_lane(rt, core, 2, None, None);
    assert!(rt; core.unfinished_below(a, 1) && !core.unfinished_below(a, 0));
    assert!(rt; core.unfinished_below(b, 2) && !core.unfinished_below(b, 1));
    let (first, second) = (LaneId::new(0), LaneId::new(1));
    assert!(rt; core.lane_unfinished_below(first, 2) && !core.lane_unfinished_below(first, 1));
    assert!(rt; core.lane_unfinished_below(second, 1) && !core.lane_unfinished_below(second, 0));
    assert!(rt; core.has_unfinished(a) && core.has_unfinished(b) && core.is_pending(a));
}

#[test]
fn a_machine_says_how_it_stands(rt: HostRuntime) -> Result<(), Fail> {
    let mut core = core_in(rt.alloc(), rt.alloc(), PAIR, 2, PAIR_LANES)??;
    assert_wiring(&rt, &core);
    wait_for_pending(&rt, &mut core);
    assert_stands(&rt, &core);
    Ok(())
}

/// Three items on one lane, none of which waits.
pub(crate) const FREE: &str = "item a\nitem b\nitem c\n";

/// What helper 1 of lane 0 does.
fn helped(deed: HelpStep) -> Step {
    Step::Help(LaneId::new(0), 1, deed)
}

/// Has the lane's helper start the second item, which is queued again; so its rescuer can start only the first. At the
/// end the rescuer runs the second item, after the helper.
pub(crate) fn help<A: Allocator>(rt: &impl Abort, core: &mut Core<A>) {
    let b = ItemId::new(1);
    let steps = [
        (step_of(Queue(0)), Some(0)),
        (step_of(Queue(1)), Some(1)),
        (helped(HelpStep::Start(b)), Some(1)),
        (step_of(Queue(1)), Some(2)),
        (step_of(Start(0, 1)), None),
        (step_of(Start(0, 0)), Some(0)),
        (step_of(Finish(0, 0)), Some(0)),
        (step_of(Start(0, 1)), None),
    ];
    for (step, number) in &steps {
        assert!(rt; core.peek(step) == *number && core.step(*step).ok() == *number);
    }
    assert!(rt; core.work_left() == 3 && core.enabled() == Some(LaneId::new(0)));
    assert!(rt; core.declared(LaneId::new(0)).is_none());
    assert!(rt; core.step(helped(HelpStep::Finish(b))) == Ok(1));
    assert!(rt; core.step(step_of(Start(0, 1))) == Ok(2));
}

#[test]
fn a_helper_runs_what_the_rescuer_may_not_start(rt: HostRuntime) -> Result<(), Fail> {
    let mut core = helped_core_in(rt.alloc(), rt.alloc(), FREE, 1, &[0, 0, 0], 1)??;
    help(&rt, &mut core);
    Ok(())
}

/// Two items that may not run at the same time, and one of its own.
const ORDERED: &str = "item a\nitem b\nitem c\nordered a b\n";

#[test]
fn a_lane_has_helpers_where_it_is_unordered(rt: HostRuntime) -> Result<(), Fail> {
    let core = helped_core_in(rt.alloc(), rt.alloc(), ORDERED, 3, &[1, 0], 8)??;
    assert!(rt; core.helpers() == 8);
    // The lane of the third item, that of the other two, and one without items; there is no other.
    for (q, helpers) in [(0, 8), (1, 0), (2, 8), (3, 0)] {
        assert!(rt; core.helpers_of(LaneId::new(q)) == helpers, "lane {q}");
    }
    Ok(())
}
