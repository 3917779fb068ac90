//! The disk and its server: what `rdisk.c` keeps in `struct rdisk`, and what its hardware does.
//!
//! One lock protects it, and nothing here waits. Each call takes time linear in the number of requests, and no memory.

use wq_api::CallError;

/// How many requests there are.
pub(crate) const REQUESTS: usize = 40;

/// The request at which the connection breaks, when it is sent for the first time.
const BREAKS_AT: usize = 10;

/// How far a request has come.
#[derive(Clone, Copy, PartialEq, Eq)]
enum RequestStage {
    Free,
    Waiting,
    Noted,
    Sent,
    Answered,
}

/// The connection to the server. It is lost once.
#[derive(Clone, Copy, PartialEq, Eq)]
enum Link {
    Fresh,
    Lost,
    Connecting,
    Mended,
}

/// All requests, and the connection.
#[derive(Drop)]
pub(crate) struct Disk {
    stages: [RequestStage; REQUESTS],
    link: Link,
    /// How many records the log has.
    pub(crate) noted: u32,
    /// How many requests were sent, including the one that was lost.
    pub(crate) sent: u32,
    /// The refusal that a work function met and went on after.
    pub(crate) warning: Option<CallError>,
}

impl Disk {
    /// A disk without requests.
    pub(crate) fn new() -> Disk {
        Disk {
            stages: [RequestStage::Free; REQUESTS],
            link: Link::Fresh,
            noted: 0,
            sent: 0,
            warning: None,
        }
    }

    /// Adds a request that has come in.
    pub(crate) fn submit(&mut self, request: usize) {
        if let Some(stage) = self.stages.get_mut(request) {
            *stage = RequestStage::Waiting;
        }
    }

    /// Writes a record of each request that is waiting.
    pub(crate) fn note(&mut self) {
        for stage in self.stages.iter_mut() {
            if *stage == RequestStage::Waiting {
                *stage = RequestStage::Noted;
                self.noted = self.noted.saturating_add(1);
            }
        }
    }

    /// Sends the requests that have a record, as long as there is a connection.
    pub(crate) fn transmit(&mut self) {
        for (request, stage) in self.stages.iter_mut().enumerate() {
            let is_up = matches!(self.link, Link::Fresh | Link::Mended);
            if !is_up || *stage != RequestStage::Noted {
                continue;
            }
            self.sent = self.sent.saturating_add(1);
            if request == BREAKS_AT && self.link == Link::Fresh {
                self.link = Link::Lost;
            } else {
                *stage = RequestStage::Sent;
            }
        }
    }

    /// Ends the requests that the server has answered, which are all that it
    /// received. True if the connection turns out to be lost.
    pub(crate) fn end_requests(&mut self) -> bool {
        for stage in self.stages.iter_mut() {
            if *stage == RequestStage::Sent {
                *stage = RequestStage::Answered;
            }
        }
        let is_lost = self.link == Link::Lost;
        if is_lost {
            self.link = Link::Connecting;
        }
        is_lost
    }

    /// Connects again.
    pub(crate) fn connect(&mut self) {
        self.link = Link::Mended;
    }

    /// Whether the requests from `first` on, up to `end`, were answered.
    pub(crate) fn are_answered(&self, first: usize, end: usize) -> bool {
        (first..end).all(|request| self.stages.get(request) == Some(&RequestStage::Answered))
    }
}
