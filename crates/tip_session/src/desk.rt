//! What the two sides of a connection ask.
ghost use Rattle.std.specs.Prelude.{◌≡◌, false, Some, None};
ghost use Rattle.tip_session.specs.Desks.{IsOpen, Lines, Loses, Returns, giving, halting, waited};

use thiserror::Error;
use tip_line::Refusal;
use tip_machine::{Heard, Item};

/// Why a desk did not do what it was asked.
#[derive(Clone, Copy, Debug, PartialEq, Eq, Error)]
pub enum DeskFault {
    #[error("stopped")]
    Stopped,
    /// What the session noted of its steps is not what the desk noted.
    #[error("the pass does not have the steps that were taken")]
    PassMismatch,
    /// The realm takes no event any more until it starts again.
    #[error("the realm takes no more events")]
    Frozen,
    #[error("out of memory")]
    Memory,
}

impl From<DeskFault> for Refusal {
    ghost use Rattle.tip_session.specs.Refusals.{refusal_of};

    ghost from_gives = { λ fault result. result ≡ refusal_of fault };

    fn from(fault: DeskFault) -> Refusal {
        match fault {
            DeskFault::Stopped => Refusal::Stopped,
            DeskFault::PassMismatch => Refusal::PassMismatch,
            DeskFault::Frozen => Refusal::Frozen,
            DeskFault::Memory => Refusal::Memory,
        }
    }
}

/// Whether a further line could be handed in.
#[derive(Clone, Copy)]
pub enum Ready {
    Ready,
    Gone,
    Stopped,
}

/// What comes of a line. `W` is an errand.
#[derive(Drop)]
pub enum Came<W: Drop> {
    /// The connection is closed, and the line was not taken.
    Gone,
    /// No more lines are taken on this connection.
    Refused,
    Nothing,
    /// An errand, to be done where nothing waits for the desk.
    Work(W),
}

/// What a writer is given.
#[derive(Drop)]
pub enum Outgoing {
    Next(Item),
    Gone,
    Stopped,
}

/// What one connection's reader and writer ask of those that serve all. An errand is a type of the desk's own, and what it
/// is told of a session's order stands in `requires`: no step behind a closing, no line while an errand is out or where no
/// more are taken, the loss once.
pub trait Desk {
    ghost use Rattle.tip_session.specs.Desks.{Name, Seen};
    ghost use Rattle.tip_session.specs.declared.desk.Outgoing.{Outgoing};

    type Work: Drop;

    /// Whose errand it is, and which.
    ghost name: { Self.Work → Name };

    /// What it took from this session, and what it told it.
    ghost seen: { Self → Seen };

    /// How it gives what goes out.
    ghost gives: { Self → Outgoing → Self → Type 0 };

    /// Waits until a further line could be handed in, or none can. Nothing was told yet that ends the session, and no errand is out.
    fn wait_ready(&mut self) -> Ready
        requires open { IsOpen (seen self.old) }
        ensures { seen self.new ≡ waited (seen self.old) result };

    /// Waits until a line may be handed in, and hands it in. An errand that comes of it is out until it is done.
    fn line(&mut self, heard: Heard) -> Result<Came<Self::Work>, DeskFault>
        requires open { IsOpen (seen self.old) }
        ensures { Lines name heard (seen self.old) result (seen self.new) };

    /// Does the errand that is out, and hands it back; a further one may come of that. Where it is refused, none is out.
    fn done(&mut self, work: Self::Work) -> Result<Option<Self::Work>, DeskFault>
        requires out { (seen self.old).owed ≡ Some (name work) }
        requires there { (seen self.old).given.gone ≡ false }
        ensures { Returns name (name work) (seen self.old) result (seen self.new) };

    /// Says that no more lines come on this connection. An errand may come of that.
    fn lost(&mut self) -> Result<Option<Self::Work>, DeskFault>
        requires none_out { (seen self.old).owed ≡ None }
        requires there { (seen self.old).given.gone ≡ false }
        requires once { (seen self.old).given.lost ≡ false }
        ensures { Loses name (seen self.old) result (seen self.new) };

    /// Waits for what goes out next.
    fn next_out(&mut self) -> Outgoing
        requires there { (seen self.old).given.gone ≡ false }
        ensures told { seen self.new ≡ giving (seen self.old) result }
        ensures gave { gives self.old result self.new };

    /// Stops the desk for all.
    fn stop(&mut self)
        ensures { seen self.new ≡ halting (seen self.old) };
}
