//! The texts of help: for the program and for arguments. The texts of commands are in `commands`.

/// What the program is for.
pub(crate) const PROGRAM: &str = "\
Plans workqueues with WQ_MEM_RECLAIM: says which work item goes on which
workqueue, so that no item shares one with an item that it waits for. Runs such
a plan in threads.";

/// What FILE is.
pub(crate) const FILE: &str = "The declaration. Without FILE, or with `-`, standard input";

/// What DECL is.
pub(crate) const DECL: &str = "The declaration";

/// What CERT is.
pub(crate) const CERT: &str = "A plan or a circle, in the form in which `plan` prints it";

/// What ASSIGN is.
pub(crate) const ASSIGN: &str =
    "Which item is on which workqueue: `wq`, `norescuer` lines or a plan";

/// What FIXED is.
pub(crate) const FIXED: &str = "Which workqueues stay as they are, with which items: as ASSIGN";

/// What NAME is.
pub(crate) const NAME: &str = "An item that may move, with its group. Without NAME all may";

/// What RUN is.
pub(crate) const STEPS: &str = "The steps of a run";

/// What HELPERS is.
pub(crate) const HELPERS: &str = "Helpers of each unordered workqueue, 0 to 8; none if left out";

/// What CODE is.
pub(crate) const CODE: &str =
    "A number, as in `no CODE ..`, or a name. Without CODE all are listed";
