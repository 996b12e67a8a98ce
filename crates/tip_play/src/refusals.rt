//! The refusal that each fault of a public call is.
ghost use Rattle.std.specs.Prelude.{◌≡◌};

use crate::fault::PlayFault;
use tip_line::Refusal;

impl From<PlayFault> for Refusal {
    ghost use Rattle.tip_play.specs.Refusals.{refusal_of};

    ghost from_gives = { λ fault refusal. refusal ≡ refusal_of fault };

    fn from(fault: PlayFault) -> Refusal {
        match fault {
            PlayFault::Script { .. } => Refusal::Script,
            PlayFault::Read => Refusal::ReadFault,
            PlayFault::Write => Refusal::WriteFault,
            PlayFault::Memory => Refusal::Memory,
            PlayFault::Store => Refusal::Store,
        }
    }
}
