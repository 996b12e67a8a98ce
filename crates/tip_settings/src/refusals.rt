//! The refusal that each fault of a public call is.
ghost use Rattle.std.specs.Prelude.{◌≡◌};

use crate::fault::ConfigFault;
use tip_line::Refusal;

impl From<ConfigFault> for Refusal {
    ghost use Rattle.tip_settings.specs.Refusals.{refusal_of};

    ghost from_gives = { λ fault refusal. refusal ≡ refusal_of fault };

    fn from(fault: ConfigFault) -> Refusal {
        match fault {
            ConfigFault::Memory => Refusal::Memory,
            ConfigFault::Syntax { .. } => Refusal::Config,
            ConfigFault::Store => Refusal::Config,
            ConfigFault::Realms => Refusal::Config,
            ConfigFault::Realm { .. } => Refusal::Config,
        }
    }
}
