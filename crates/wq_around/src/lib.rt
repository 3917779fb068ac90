//! Plans around workqueues that stay as they are: the fewest new ones for the groups that are on none of them.
//!
//! What the layer above relies on: no run of a plan ends stuck, and any workqueues that keep the fixed ones and are
//! fewer deadlock; or all that keep them do. The planner's code knows only arcs and numbers, no steps: what it says
//! about runs rests on laws of `wq_fixed`. It looks at the start, in which each group that is on none of the fixed
//! workqueues has one for itself. There a fixed workqueue is a vertex as others are, but it doesn't count: a chain
//! through it needs as many new workqueues as it has new vertices. The rules are those of "Planning around
//! workqueues" in docs/FORMAT.md. A plan takes the time of the wait graphs of the start and of the plan, and of their
//! ranks.
#![tactic(auto)]

mod answer;
mod chain;
mod heights;
mod ordering;
mod placing;
mod planning;

pub use answer::Around;
pub use planning::plan_around;
