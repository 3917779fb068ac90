//! What every test of a runtime does: it reads a declaration and an assignment, makes a runtime from them with this
//! many rows, and prints what happened.

mod bed;
mod command_line;
mod counts;
mod ending;
mod files;
mod naming;
mod printing;

pub use bed::{Bed, make};
pub use command_line::{Setting, without_helpers, words};
pub use counts::{kind_word, put_closed, put_made, put_rows};
pub use ending::{ended, misused, print_answer, unread};
pub use files::{SEED, SettingTexts, read_file, read_texts};
pub use naming::{helper_of, item_of, lane_of};
pub use printing::{
    fault, mistake, put_code, put_context, put_done, put_item, put_item_or_none, put_waiting,
    refuse_text,
};
// The limits of an assignment are also those of a text that says what is to be done.
pub use wq_cert::{MAX_CERTIFICATE, MAX_CERTIFICATE_LINE};
pub use wq_core::MAX_HELPERS;
