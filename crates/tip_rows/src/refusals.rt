//! The refusal that each fault of a public call is.
ghost use Rattle.std.specs.Prelude.{◌≡◌};

use crate::label::LabelFault;
use crate::log::{LoadFault, RaiseFault};
use crate::text::RowFault;
use tip_line::Refusal;

impl From<RaiseFault> for Refusal {
    ghost use Rattle.tip_rows.specs.Refusals.{refusal_of_raise};

    ghost from_gives = { λ fault refusal. refusal ≡ refusal_of_raise fault };

    fn from(fault: RaiseFault) -> Refusal {
        match fault {
            RaiseFault::Refused => Refusal::Refused,
            RaiseFault::EpochEnd => Refusal::EpochEnd,
        }
    }
}

impl From<LoadFault> for Refusal {
    ghost use Rattle.tip_rows.specs.Refusals.{refusal_of_load};

    ghost from_gives = { λ fault refusal. refusal ≡ refusal_of_load fault };

    fn from(fault: LoadFault) -> Refusal {
        match fault {
            LoadFault::Refused => Refusal::Refused,
            LoadFault::BadRow => Refusal::BadRow,
            LoadFault::Memory => Refusal::Memory,
        }
    }
}

impl From<RowFault> for Refusal {
    ghost use Rattle.tip_rows.specs.Refusals.{refusal_of_row};

    ghost from_gives = { λ fault refusal. refusal ≡ refusal_of_row fault };

    fn from(fault: RowFault) -> Refusal {
        match fault {
            RowFault::BadRow => Refusal::BadRow,
            RowFault::Memory => Refusal::Memory,
        }
    }
}

impl From<LabelFault> for Refusal {
    ghost use Rattle.tip_rows.specs.Refusals.{refusal_of_label};

    ghost from_gives = { λ fault refusal. refusal ≡ refusal_of_label fault };

    fn from(fault: LabelFault) -> Refusal {
        match fault {
            LabelFault::BadLabel => Refusal::BadLabel,
            LabelFault::Memory => Refusal::Memory,
        }
    }
}
