//! The names of realms.
ghost use Rattle.std.specs.Prelude.{◌≡◌, ◌↔◌, true, false, IfOk, OnOk, IsErrOf};
ghost use Rattle.std.specs.List.{list_all};
ghost use Rattle.tip_line.specs.Words.{is_realm, is_letter};
ghost use Rattle.tip_line.specs.declared.fault.WordFault.TheVariants.{NotWord};

use crate::fault::WordFault;
use crate::word::Word;
use std::alloc::{AllocError, Global};
use std::fmt;
use std::marker::Model;

/// How many letters the name of a realm may have.
const LONGEST_NAME: usize = 16;

/// The name of a realm: 1 to 16 letters from `a` to `z`. Copies share the octets.
#[derive(Debug, Drop)]
pub struct Realm {
    word: Word,
}

impl Model for Realm {
    ghost use Rattle.std.specs.Prelude.{◌≡◌, true, ℕ, List};
    ghost use Rattle.tip_line.specs.Words.{is_realm};

    ghost Value = { List ℕ };

    ghost view = { λ r. r.word };

    ghost invariant = { λ r. is_realm r.word ≡ true };
}

impl Realm {
    /// The realm of this name.
    #[tactic(auto, using(crate::proofs::WordLemmas::realm_is_word))]
    pub fn new(alloc: Global, octets: &[u8]) -> Result<Realm, WordFault>
        ensures same { IfOk result (λ realm. realm ≡ octets.now) }
        ensures realm { OnOk result (is_realm octets.now ≡ true) }
        ensures not_word { IsErrOf result NotWord ↔ (is_realm octets.now ≡ false) }
    {
        if !is_realm(octets) {
            return Err(WordFault::NotWord);
        }
        Ok(Realm {
            word: Word::new(alloc, octets)?,
        })
    }

    /// An equal name, which shares the octets and takes no memory.
    pub fn copy(&self) -> Result<Realm, AllocError>
        ensures { IfOk result (λ realm. realm ≡ self.now) }
    {
        Ok(Realm {
            word: self.word.copy()?,
        })
    }

    /// The name as text.
    pub fn as_str(&self) -> &str
        ensures same { result.now ≡ self.now }
        ensures realm { is_realm self.now ≡ true }
    {
        self.word.as_str()
    }
}

impl fmt::Display for Realm {
    ghost use Rattle.std.specs.Prelude.{Some};

    ghost output = { λ r. Some r };

    fn fmt<W: fmt::Write>(&self, f: &mut fmt::Formatter<W>) -> fmt::Result {
        self.word.fmt(f)
    }
}

impl PartialEq for Realm {
    ghost use Rattle.std.specs.Str.{bytes_eq};
    ghost use Rattle.std.proofs.Common.{rules};
    ghost use Rattle.std.specs.Cmp.Rules.{comparing};

    ghost eq = { bytes_eq };

    ghost laws = { Prim.search (comparing, rules) };

    fn eq(&self, other: &Realm) -> bool {
        self.word == other.word
    }
}

/// Whether octets name a realm.
pub fn is_realm(octets: &[u8]) -> bool
    ensures { result ≡ is_realm octets.now }
{
    !octets.is_empty() && octets.len() <= LONGEST_NAME && are_letters(octets)
}

/// Whether each octet is a letter from `a` to `z`.
fn are_letters(octets: &[u8]) -> bool
    ensures { result ≡ list_all is_letter octets.now }
{
    octets.iter().all(|octet| octet.is_ascii_lowercase())
}
