//! Why a run halts.
ghost use Rattle.std.specs.Prelude.{◌≡◌};
ghost use Rattle.tip_branch.specs.Always.{Always};

use crate::shown::Shown;
use std::alloc::AllocError;
use thiserror::Error;
use tip_honest::Entry;
use tip_host::{Ended, Host};
use tip_journal::Pass;
use tip_rows::RowLog;
use tip_stored::{LoadFault, RenewFault};

/// Why a move was not made.
#[derive(Clone, Copy, Debug, Error)]
pub enum RunFault {
    #[error("{0}")]
    Load(LoadFault),
    #[error("{0}")]
    Renew(RenewFault),
    #[error("the boxes are not one for each branch of each row")]
    Boxes,
    #[error("out of memory")]
    Memory,
}

/// A run that has halted. Its host is gone, and so are the moves that were left.
#[derive(Drop)]
pub struct Halt<S> {
    /// What was shown by the moves before, one for each: so many were made.
    pub shown: Vec<Shown>,
    /// Why the next one was not made.
    pub fault: RunFault,
    /// The entries of the run.
    pub pass: Pass<Entry>,
    /// The store, with what was stored before that move, or on the way of the epochs to a start.
    pub store: S,
}

/// Why a move was not made, and the store that is left.
#[derive(Drop)]
pub(crate) struct Stuck<S> {
    pub(crate) fault: RunFault,
    pub(crate) store: S,
}

impl<S: RowLog + Drop> Stuck<S> {
    /// The host ends, since a move was not made.
    pub(crate) fn at(host: Host<S>, fault: RunFault) -> Stuck<S>
        requires { Always }
        ensures fault { result.fault ≡ fault }
        ensures store { result.store ≡ host.stored.store }
    {
        let Ended { store, .. } = host.shut();
        Stuck { fault, store }
    }
}

impl From<AllocError> for RunFault {
    ghost use Rattle.tip_run.specs.declared.halt.RunFault.TheVariants.{Memory};

    ghost from_gives = { λ _ fault. fault ≡ Memory };

    fn from(_: AllocError) -> RunFault {
        RunFault::Memory
    }
}
