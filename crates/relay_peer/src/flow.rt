//! The state that a link shares with the film that is sent over it, or with the output for the film that comes.

use std::sync::atomic::{AtomicBool, Ordering};

/// Tells a link when its server may be silent, and when the film may give its next bytes.
#[derive(Drop)]
pub struct Flow {
    // The server must send something: an answer, or the next bytes of a broadcast.
    owed: AtomicBool,
    // The client has asked for the film, and it isn't over.
    asked: AtomicBool,
}

impl Flow {
    /// The state of a new connection: the server owes its answers.
    pub fn new() -> Flow {
        Flow {
            owed: AtomicBool::new(true),
            asked: AtomicBool::new(false),
        }
    }

    /// Sets whether the server must send something.
    pub(crate) fn owe(&self, owed: bool) {
        self.owed.store(owed, Ordering::SeqCst);
    }

    pub(crate) fn is_owed(&self) -> bool {
        self.owed.load(Ordering::SeqCst)
    }

    /// The client asks for the film. It does so only after its publish has started, so from then on the server
    /// may be silent.
    pub(crate) fn ask(&self) {
        self.owe(false);
        self.asked.store(true, Ordering::SeqCst);
    }

    /// The film is over.
    pub(crate) fn end(&self) {
        self.asked.store(false, Ordering::SeqCst);
    }

    pub(crate) fn is_asked(&self) -> bool {
        self.asked.load(Ordering::SeqCst)
    }
}
