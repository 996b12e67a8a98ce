//! Identifiers of transactions (RFC 2371, section 5).
ghost use Rattle.std.specs.Prelude.{◌≡◌, ◌↔◌, ◌++◌, ◌∷◌, ◌<◌, ◌^◌, ℕ, List, true, false, IfOk, OnOk, IsErrOf, IfSome, IsSomeAnd, Some};
ghost use Rattle.std.specs.Fmt.{decimal};
ghost use Rattle.tip_line.specs.Words.{is_word};
ghost use Rattle.tip_line.specs.Ids.{id_of, dash, has_no_dash, is_canonical, number_in, IsGiven};
ghost use Rattle.tip_line.specs.declared.fault.WordFault.TheVariants.{NotWord};

use crate::fault::WordFault;
use crate::realm::{Realm, is_realm};
use crate::word::Word;
use std::alloc::{AllocError, Global};
use std::fmt;
use std::marker::Model;

/// An identifier of a transaction, of ours or of a peer's: any word. Copies share the octets.
#[derive(Drop)]
pub struct Id {
    word: Word,
}

impl Model for Id {
    ghost use Rattle.std.specs.Prelude.{◌≡◌, true, ℕ, List};
    ghost use Rattle.tip_line.specs.Words.{is_word};

    ghost Value = { List ℕ };

    ghost view = { λ i. i.word };

    ghost invariant = { λ i. is_word i.word ≡ true };
}

/// What an identifier that a realm gave was made of.
#[derive(Clone, Copy)]
pub struct IdParts<'a> {
    pub realm: &'a str,
    pub epoch: u32,
    pub connection: u32,
    pub number: u32,
}

impl Id {
    /// The identifier of these octets.
    pub fn new(alloc: Global, octets: &[u8]) -> Result<Id, WordFault>
        ensures same { IfOk result (λ id. id ≡ octets.now) }
        ensures word { OnOk result (is_word octets.now ≡ true) }
        ensures not_word { IsErrOf result NotWord ↔ (is_word octets.now ≡ false) }
    {
        Ok(Id {
            word: Word::new(alloc, octets)?,
        })
    }

    /// The identifier that a realm gives to its transaction of this epoch, connection and number.
    pub fn of(
        alloc: Global,
        realm: &Realm,
        epoch: u32,
        connection: u32,
        number: u32,
    ) -> Result<Id, AllocError>
        ensures { IfOk result (λ id. id ≡ id_of realm.now epoch connection number) }
    {
        let name = realm.as_str();
        let text = format!(in alloc; "{name}-{epoch}-{connection}-{number}")?;
        Ok(Id {
            word: Word::from_text(text)?,
        })
    }

    /// What the identifier was made of, if a realm may have given it.
    pub fn parts(&self) -> Option<IdParts<'_>>
        ensures given { IfSome result
            (λ parts. IsGiven self.now parts.realm.now parts.epoch parts.connection parts.number) }
        ensures only { (realm : List ℕ) (epoch connection number : ℕ) →
            IsGiven self.now realm epoch connection number →
            IsSomeAnd result (λ parts. (parts.realm.now ≡ realm) × (parts.epoch ≡ epoch)
            × (parts.connection ≡ connection) × (parts.number ≡ number)) }
    {
        let (realm, rest) = cut(self.as_str())?;
        let (epoch, rest) = cut(rest)?;
        let (connection, number) = cut(rest)?;
        if !is_realm(realm.as_bytes()) {
            return None;
        }
        Some(IdParts {
            realm,
            epoch: number_of(epoch)?,
            connection: number_of(connection)?,
            number: number_of(number)?,
        })
    }

    /// An equal identifier, which shares the octets and takes no memory.
    pub fn copy(&self) -> Result<Id, AllocError>
        ensures { IfOk result (λ id. id ≡ self.now) }
    {
        Ok(Id {
            word: self.word.copy()?,
        })
    }

    /// The identifier as text.
    pub fn as_str(&self) -> &str
        ensures same { result.now ≡ self.now }
        ensures word { is_word self.now ≡ true }
    {
        self.word.as_str()
    }
}

impl fmt::Display for Id {
    ghost use Rattle.std.specs.Prelude.{Some};

    ghost output = { λ i. Some i };

    fn fmt<W: fmt::Write>(&self, f: &mut fmt::Formatter<W>) -> fmt::Result {
        self.word.fmt(f)
    }
}

impl PartialEq for Id {
    ghost use Rattle.std.specs.Str.{bytes_eq};
    ghost use Rattle.std.proofs.Common.{rules};
    ghost use Rattle.std.specs.Cmp.Rules.{comparing};

    ghost eq = { bytes_eq };

    ghost laws = { Prim.search (comparing, rules) };

    fn eq(&self, other: &Id) -> bool {
        self.word == other.word
    }
}

/// What stands before the first dash of a text, and behind it.
fn cut(text: &str) -> Option<(&str, &str)>
    ensures cut { IfSome result (λ parts. text.now ≡ parts.0.now ++ dash ∷ parts.1.now) }
    ensures only { (front back : List ℕ) → has_no_dash front ≡ true →
        text.now ≡ front ++ dash ∷ back →
        IsSomeAnd result (λ parts. (parts.0.now ≡ front) × (parts.1.now ≡ back)) }
{
    text.split_once('-')
}

/// The number that a text says in decimal without leading zeros.
pub fn number_of(text: &str) -> Option<u32>
    ensures said { IfSome result (λ number. (text.now ≡ decimal number) × (number < 2 ^ 32)) }
    ensures only { (number : ℕ) → number < 2 ^ 32 → text.now ≡ decimal number →
        result ≡ Some number }
    ensures steps { result ≡ number_in text.now }
{
    match text.parse() {
        Ok(number) if is_canonical(text.as_bytes()) => Some(number),
        _ => None,
    }
}

/// Whether no plus and no leading zero stands before digits.
fn is_canonical(digits: &[u8]) -> bool
    ensures { result ≡ is_canonical digits.now }
{
    !matches!(digits, [b'+', ..] | [b'0', _, ..])
}
