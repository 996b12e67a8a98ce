//! What a desk told a session.
ghost use Rattle.std.specs.Prelude.{◌≡◌};
ghost use Rattle.tip_session.specs.Desks.{noting, nothing};

use crate::desk::DeskFault;

/// What a desk told a session so far, and whether the session said that its connection is lost.
#[derive(Clone, Copy)]
pub struct Given {
    /// The connection is closed.
    pub gone: bool,
    /// No more lines are taken.
    pub refused: bool,
    pub stopped: bool,
    pub mismatch: bool,
    pub frozen: bool,
    pub memory: bool,
    /// The desk was told that the connection is lost.
    pub lost: bool,
    /// The session stopped the desk.
    pub halted: bool,
}

impl Given {
    /// What a desk told that was asked nothing yet.
    pub fn nothing() -> Given
        ensures { result ≡ nothing }
    {
        Given {
            gone: false,
            refused: false,
            stopped: false,
            mismatch: false,
            frozen: false,
            memory: false,
            lost: false,
            halted: false,
        }
    }

    /// Notes a fault that is told.
    pub fn note(&mut self, fault: DeskFault)
        ensures { self.new ≡ noting self.old fault }
    {
        match fault {
            DeskFault::Stopped => self.stopped = true,
            DeskFault::PassMismatch => self.mismatch = true,
            DeskFault::Frozen => self.frozen = true,
            DeskFault::Memory => self.memory = true,
        }
    }
}
