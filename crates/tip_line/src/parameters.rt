//! The words behind a name, as commands and responses keep them.
ghost use Rattle.std.specs.Prelude.{◌≡◌, ◌∷◌, [], true, MatchResult, IfOk, IfErr};
ghost use Rattle.tip_line.specs.Words.{is_word, words_of};
ghost use Rattle.tip_line.specs.Command.{peer_of};
ghost use Rattle.tip_line.specs.declared.fault.ParseFault.TheVariants.{Memory, Missing};

use crate::fault::{ParseFault, WordFault};
use crate::id::Id;
use crate::word::{Address, Word};
use crate::words::Words;
use std::alloc::Global;

/// Takes the next word, which must be there.
pub fn required<'a>(words: &mut Words<'a>) -> Result<&'a [u8], ParseFault>
    ensures { MatchResult result (λ word. (words_of words.old.rest.now
        ≡ word.now ∷ words_of words.new.rest.now) × (is_word word.now ≡ true))
        (λ fault. (fault ≡ Missing) × (words_of words.old.rest.now ≡ [])) }
{
    match words.next() {
        Some(word) => Ok(word),
        None => Err(ParseFault::Missing),
    }
}

/// Keeps a word.
pub fn word_of(alloc: Global, octets: &[u8]) -> Result<Word, ParseFault>
    requires { is_word octets.now ≡ true }
    ensures { MatchResult result (λ word. word ≡ octets.now) (λ fault. fault ≡ Memory) }
{
    match Word::new(alloc, octets) {
        Ok(word) => Ok(word),
        Err(WordFault::Memory) => Err(ParseFault::Memory),
        Err(WordFault::NotWord) => unreachable!(),
    }
}

/// Keeps a word that is an identifier.
pub fn id_of(alloc: Global, octets: &[u8]) -> Result<Id, ParseFault>
    requires { is_word octets.now ≡ true }
    ensures { MatchResult result (λ id. id ≡ octets.now) (λ fault. fault ≡ Memory) }
{
    match Id::new(alloc, octets) {
        Ok(id) => Ok(id),
        Err(WordFault::Memory) => Err(ParseFault::Memory),
        Err(WordFault::NotWord) => unreachable!(),
    }
}

/// Keeps a word that is an address, or `-` for none.
pub fn address_of(alloc: Global, octets: &[u8]) -> Result<Option<Address>, ParseFault>
    requires { is_word octets.now ≡ true }
    ensures { MatchResult result (λ address. address ≡ peer_of octets.now)
        (λ fault. fault ≡ Memory) }
{
    match Address::new(alloc, octets) {
        Ok(address) => Ok(Some(address)),
        Err(WordFault::Memory) => Err(ParseFault::Memory),
        Err(WordFault::NotWord) => Ok(None),
    }
}
