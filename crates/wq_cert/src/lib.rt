//! Certificates: the texts of plans, circles and runs, printed and read, also around workqueues that stay.
//!
//! The layer above relies on this: the printed texts are functions of what they say. Each reader accepts exactly the
//! texts of the format, with what they say; for any other text, it returns the first fault. The formats are those of
//! docs/FORMAT.md. What is printed is read back, but for the texts of "Planning around workqueues": no law says it yet.
//!
//! Printing takes time linear in the length of the text and, for a plan, the number of items. Reading takes time linear
//! in the length of the text and the number of items.
#![tactic(auto)]

mod answer;
mod answer_reading;
mod arc_printing;
mod arc_reading;
mod around;
mod around_printing;
mod around_reading;
mod assignment_reading;
mod circle_printing;
mod fault;
mod fixed_reading;
mod form;
mod lanes_reading;
pub mod laws;
mod limits;
mod line_reading;
mod noted_workqueues;
mod opening;
mod part_printing;
mod part_reading;
mod plan_printing;
mod run_printing;
mod run_reading;
mod view;
mod workqueue_reading;

pub use answer::CertAnswer;
pub use answer_reading::read_answer;
pub use arc_printing::put_arc_line;
pub use around::AroundAnswer;
pub use around_printing::{around_text, norescuer_text};
pub use around_reading::read_around;
pub use assignment_reading::read_assignment;
pub use circle_printing::circle_text;
pub use fault::CertError;
pub use fixed_reading::read_fixed;
pub use lanes_reading::read_workqueues;
pub use limits::{MAX_CERTIFICATE, MAX_CERTIFICATE_LINE, MAX_COUNT};
pub use part_printing::{has_unsure, put_unsure_line, reading_text};
pub use part_reading::{ReadRun, read_made};
pub use plan_printing::plan_text;
pub use run_printing::run_text;
pub use run_reading::read_run;
pub use view::{CertLines, CertView};
