//! The names of local branches.
ghost use Rattle.std.specs.Prelude.{◌≡◌, ◌↔◌, true, false, IfOk, OnOk, IsErrOf};
ghost use Rattle.std.specs.List.{list_all};
ghost use Rattle.tip_rows.specs.Labels.{is_label, is_label_octet};
ghost use Rattle.tip_rows.specs.declared.label.LabelFault.TheVariants.{BadLabel};

use std::alloc::{AllocError, Global};
use std::fmt;
use std::marker::Model;
use thiserror::Error;
use tip_line::Word;

/// How many octets a label may have.
const LONGEST_LABEL: usize = 16;

/// Why octets are no label.
#[derive(Clone, Copy, Debug, PartialEq, Eq, Error)]
pub enum LabelFault {
    #[error("no label of a branch")]
    BadLabel,
    #[error("out of memory")]
    Memory,
}

/// The name of a local branch: a letter from `a` to `z`, then letters or digits, 1 to 16 octets. Copies share the octets.
#[derive(Drop)]
pub struct Label {
    word: Word,
}

impl Model for Label {
    ghost use Rattle.std.specs.Prelude.{◌≡◌, true, ℕ, List};
    ghost use Rattle.tip_rows.specs.Labels.{is_label};

    ghost Value = { List ℕ };

    ghost view = { λ l. l.word };

    ghost invariant = { λ l. is_label l.word ≡ true };
}

impl Label {
    /// The label of these octets.
    #[tactic(auto, using(crate::proofs::LabelLemmas::label_is_word))]
    pub fn new(alloc: Global, octets: &[u8]) -> Result<Label, LabelFault>
        ensures same { IfOk result (λ label. label ≡ octets.now) }
        ensures label { OnOk result (is_label octets.now ≡ true) }
        ensures bad_label { IsErrOf result BadLabel ↔ (is_label octets.now ≡ false) }
    {
        if !is_label(octets) {
            return Err(LabelFault::BadLabel);
        }
        Ok(Label {
            word: Word::new(alloc, octets).map_err(|_| LabelFault::Memory)?,
        })
    }

    /// An equal label, which shares the octets and takes no memory.
    pub fn copy(&self) -> Result<Label, AllocError>
        ensures { IfOk result (λ label. label ≡ self.now) }
    {
        Ok(Label {
            word: self.word.copy()?,
        })
    }

    /// The label as text.
    pub fn as_str(&self) -> &str
        ensures same { result.now ≡ self.now }
        ensures label { is_label self.now ≡ true }
    {
        self.word.as_str()
    }
}

impl fmt::Display for Label {
    ghost use Rattle.std.specs.Prelude.{Some};

    ghost output = { λ l. Some l };

    fn fmt<W: fmt::Write>(&self, f: &mut fmt::Formatter<W>) -> fmt::Result {
        self.word.fmt(f)
    }
}

impl PartialEq for Label {
    ghost use Rattle.std.specs.Str.{bytes_eq};
    ghost use Rattle.std.proofs.Common.{rules};
    ghost use Rattle.std.specs.Cmp.Rules.{comparing};

    ghost eq = { bytes_eq };

    ghost laws = { Prim.search (comparing, rules) };

    fn eq(&self, other: &Label) -> bool {
        self.word == other.word
    }
}

/// Whether octets are a label.
fn is_label(octets: &[u8]) -> bool
    ensures { result ≡ is_label octets.now }
{
    match octets {
        [] => false,
        [first, rest @ ..] => {
            octets.len() <= LONGEST_LABEL && first.is_ascii_lowercase() && are_label_octets(rest)
        }
    }
}

/// Whether each octet is a letter from `a` to `z` or a digit.
fn are_label_octets(octets: &[u8]) -> bool
    ensures { result ≡ list_all is_label_octet octets.now }
{
    octets.iter().all(|octet| octet.is_ascii_lowercase() || octet.is_ascii_digit())
}
