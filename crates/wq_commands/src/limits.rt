//! Which texts each command reads, and how long they may be.

ghost use Rattle.std.specs.Prelude.{◌≡◌};
ghost use Rattle.wq_commands.specs.Commands.{one_or_two_texts};

use crate::declaration::MAX_DECLARATION;
use wq_cert::MAX_CERTIFICATE;
use wq_meter::Limits;

/// A declaration.
pub const ONE_TEXT: Limits = Limits {
    first: MAX_DECLARATION,
    second: None,
    third: None,
};

/// A declaration, and a certificate or an assignment.
pub const TWO_TEXTS: Limits = Limits {
    first: MAX_DECLARATION,
    second: Some(MAX_CERTIFICATE),
    third: None,
};

/// A declaration, an assignment and a run.
pub const THREE_TEXTS: Limits = Limits {
    first: MAX_DECLARATION,
    second: Some(MAX_CERTIFICATE),
    third: Some(MAX_CERTIFICATE),
};

/// A declaration and, if `assigned`, an assignment.
pub fn one_or_two_texts(assigned: bool) -> Limits
    ensures { result ≡ one_or_two_texts assigned }
{
    if assigned { TWO_TEXTS } else { ONE_TEXT }
}
