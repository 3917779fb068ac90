//! What stands before the words of a wait: other words if its flush is unsure.
//!
//! The words are those of "Where workqueues can hang" in tests/DIAGNOSES.md. Nothing is computed here.

ghost use Rattle.std.specs.Prelude.{◌≡◌};
ghost use Rattle.wq_voice.specs.Reasons.{and_lead, can_hang_lead, can_hang_on_any_lead, lead_for};

use std::marker::Model;
use wq_hang::Hop;
use wq_names::messages;

/// What stands before a wait. Contracts see both: the words before a sure flush, and before an unsure one.
#[derive(Drop)]
pub struct Lead {
    sure: &'static [u8],
    unsure: &'static [u8],
}

impl Model for Lead {
    ghost use Rattle.std.specs.Prelude.{ℕ, List};

    ghost Value = { List ℕ × List ℕ };

    ghost view = { λ l. (l.sure.now, l.unsure.now) };
}

impl Lead {
    /// The words before a sure flush, and the words before an unsure one.
    pub fn new(sure: &'static [u8], unsure: &'static [u8]) -> Self
        ensures { result ≡ (sure.now, unsure.now) }
    {
        Lead { sure, unsure }
    }

    /// Before the first wait of workqueues that can hang.
    pub fn can_hang() -> Self
        ensures { result ≡ can_hang_lead }
    {
        Lead::new(messages::CAN_HANG, messages::CAN_HANG_IF)
    }

    /// Before the first wait of groups that can hang on any workqueues.
    pub(crate) fn can_hang_on_any() -> Self
        ensures { result ≡ can_hang_on_any_lead }
    {
        Lead::new(messages::CAN_HANG_ON_ANY, messages::CAN_HANG_ON_ANY_IF)
    }

    /// Before each further wait.
    pub(crate) fn and_further() -> Self
        ensures { result ≡ and_lead }
    {
        Lead::new(messages::AND_FURTHER, messages::AND_FURTHER_IF)
    }

    /// The words before this wait.
    pub(crate) fn before(&self, hop: &Hop) -> &'static [u8]
        ensures { result.now ≡ lead_for self.now hop.now }
    {
        if hop.flush.unsure {
            self.unsure
        } else {
            self.sure
        }
    }
}
