//! How a session ends.
ghost use Rattle.std.specs.Prelude.{◌≡◌};
ghost use Rattle.tip_session.specs.Refusals.{refusal_in};

use tip_line::Refusal;

/// How the reader or the writer of a connection ended.
#[derive(Clone, Copy, Debug, PartialEq, Eq)]
pub enum SessionEnd {
    /// The connection is closed, or takes no more lines.
    PeerClosed,
    ReadFault,
    /// A write failed, or the writer took nothing.
    WriteFault,
    /// As many reads were made as were allowed.
    TurnLimit,
    HostStopped,
    PassMismatch,
    /// The session then has stopped the desk.
    Memory,
}

impl SessionEnd {
    /// The refusal by which it is reported. That the peer closed is none.
    pub fn refusal(self) -> Option<Refusal>
        ensures { result ≡ refusal_in self }
    {
        match self {
            SessionEnd::PeerClosed => None,
            SessionEnd::ReadFault => Some(Refusal::ReadFault),
            SessionEnd::WriteFault => Some(Refusal::WriteFault),
            SessionEnd::TurnLimit => Some(Refusal::TurnLimit),
            SessionEnd::HostStopped => Some(Refusal::HostStopped),
            SessionEnd::PassMismatch => Some(Refusal::PassMismatch),
            SessionEnd::Memory => Some(Refusal::Memory),
        }
    }
}
