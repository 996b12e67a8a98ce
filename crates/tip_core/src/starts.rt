//! The realms that are to start.
ghost use Rattle.std.specs.Prelude.{◌≡◌, ◌++◌, ◌∷◌, [], true, false, length, OnOk, OnErr, IsErrOf};
ghost use Rattle.std.specs.List.{All, list_all};
ghost use Rattle.tip_core.specs.Hosted.{HasEpoch};
ghost use Rattle.tip_machine.specs.Heads.{have_names, is_other};
ghost use Rattle.tip_core.specs.declared.starts.StartFault.TheVariants.{NoEpoch, SameName};

use std::alloc::{AllocFailed, Global};
use std::marker::Model;
use thiserror::Error;
use tip_machine::Start;

/// Why a realm was not added to those that are to start.
#[derive(Clone, Copy, Debug, PartialEq, Eq, Error)]
pub enum StartFault {
    #[error("a realm of this name is there already")]
    SameName,
    #[error("a realm starts in epoch 1 or later")]
    NoEpoch,
    #[error("out of memory")]
    Memory,
}

impl<T: Drop> From<AllocFailed<T>> for StartFault {
    ghost use Rattle.tip_core.specs.declared.starts.StartFault.TheVariants.{Memory};

    ghost from_gives = { λ _ fault. fault ≡ Memory };

    fn from(_: AllocFailed<T>) -> StartFault {
        StartFault::Memory
    }
}

/// The realms that are to start, in the order of declaration. Each has a name of its own.
#[derive(Drop)]
pub struct Starts {
    items: Vec<Start>,
}

impl Model for Starts {
    ghost use Rattle.std.specs.Prelude.{◌≡◌, true, List};
    ghost use Rattle.std.specs.List.{All};
    ghost use Rattle.tip_machine.specs.Heads.{have_names};
    ghost use Rattle.tip_machine.specs.declared.head.Start.{Start};
    ghost use Rattle.tip_core.specs.Hosted.{HasEpoch};

    ghost Value = { List Start };

    ghost view = { λ s. s.items.items };

    ghost invariant = { λ s. (have_names s.items.items ≡ true) × All HasEpoch s.items.items };
}

impl Starts {
    /// None so far.
    pub fn new(alloc: Global) -> Starts
        ensures { result ≡ [] }
    {
        Starts {
            items: Vec::new(alloc),
        }
    }

    /// One realm more, unless its epoch is 0, which no start has, or one of its name is there.
    #[tactic(auto, using(crate::proofs::Naming::adding))]
    pub fn add(&mut self, start: Start) -> Result<(), StartFault>
        ensures ok { OnOk result (self.new ≡ self.old ++ start ∷ []) }
        ensures new { OnOk result (list_all (is_other start.name) self.old ≡ true) }
        ensures taken { IsErrOf result SameName → list_all (is_other start.name) self.old ≡ false }
        ensures epoch { OnOk result (HasEpoch start) }
        ensures no_epoch { IsErrOf result NoEpoch → start.epoch ≡ 0 }
        ensures err { OnErr result (self.new ≡ self.old) }
    {
        if start.epoch == 0 {
            return Err(StartFault::NoEpoch);
        }
        if !is_new(&self.items, start.name.as_str()) {
            return Err(StartFault::SameName);
        }
        Ok(self.items.push(start)?)
    }

    /// The realms, in the order of declaration.
    pub fn as_slice(&self) -> &[Start]
        ensures same { result.now ≡ self.now }
        ensures named { have_names self.now ≡ true }
        ensures epochs { All HasEpoch self.now }
    {
        &self.items
    }

    /// The realms as a vector, in the order of declaration, without taking memory.
    pub fn into_vec(self) -> Vec<Start>
        ensures same { result.items ≡ self }
        ensures named { have_names self ≡ true }
        ensures epochs { All HasEpoch self }
    {
        self.items
    }
}

/// Whether no realm has this name.
fn is_new(starts: &[Start], name: &str) -> bool
    ensures { result ≡ list_all (is_other name.now) starts.now }
{
    starts.iter().all(|start| start.name.as_str() != name)
}
