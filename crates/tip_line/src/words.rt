//! The words of a text (RFC 2371, section 11).
ghost use Rattle.std.specs.Prelude.{◌≡◌, ◌<◌, ◌≤◌, ◌∷◌, [], true, false, length, drop, MatchOption, MatchResult, Ok, Err};
ghost use Rattle.std.specs.List.{list_all, slice_split};
ghost use Rattle.tip_line.specs.Octets.{is_printable, is_space};
ghost use Rattle.tip_line.specs.Words.{is_word, words_of, is_short};
ghost use Rattle.tip_line.specs.Texts.{is_plain, has_short_words, IsUnclean, words_in};

use crate::fault::ParseFault;
use crate::octets::{is_printable, without_front, word_len};
use crate::word::LONGEST_WORD;

/// The words of a text that were not taken yet, the first of them next.
#[derive(Drop)]
pub struct Words<'a> {
    rest: &'a [u8],
    ghost words: { list_all is_word (words_of rest.now) ≡ true },
}

impl<'a> Words<'a> {
    /// The words of a text that a line may have.
    #[tactic(auto, using(crate::proofs::TextLemmas::all_words), unfolding(crate::specs::Texts::words_in))]
    pub fn of(text: &'a [u8]) -> Result<Words<'a>, ParseFault>
        ensures { MatchResult result
            (λ words. words_in text.now ≡ Ok (words_of words.rest.now))
            (λ fault. (words_in text.now ≡ Err fault) × IsUnclean text.now fault) }
    {
        if !is_plain(text) {
            return Err(ParseFault::Octet);
        }
        if !has_short_words(text) {
            return Err(ParseFault::TooLong);
        }
        Ok(Words { rest: text })
    }

    /// Takes the next word.
    #[tactic(auto, using(crate::proofs::TextLemmas::word_taken))]
    pub fn next(&mut self) -> Option<&'a [u8]>
        ensures { MatchOption result (words_of self.old.rest.now ≡ []) (λ word. (words_of
            self.old.rest.now ≡ word.now ∷ words_of self.new.rest.now)
            × (is_word word.now ≡ true)) }
    {
        let (word, rest) = first_word(self.rest)?;
        self.rest = rest;
        Some(word)
    }
}

/// The first word of a text, and what stands behind it.

fn first_word(text: &[u8]) -> Option<(&[u8], &[u8])>
    ensures { MatchOption result (words_of text.now ≡ []) (λ found. (words_of text.now
        ≡ found.0.now ∷ words_of found.1.now) × (length found.1.now < length text.now)) }
{
    let front = without_front(text);
    if front.is_empty() {
        return None;
    }
    Some(front.split_at(word_len(front)))
}

/// Whether each octet is one that a line may have.
fn is_plain(text: &[u8]) -> bool
    ensures { result ≡ is_plain text.now }
{
    text.iter().all(|octet| is_printable(*octet))
}

/// Whether no word is longer than a word may be.
fn has_short_words(text: &[u8]) -> bool
    ensures { result ≡ has_short_words text.now }
{
    let mut rest = text;
    while let Some((word, behind)) = first_word(rest) {
        if word.len() > LONGEST_WORD {
            return false;
        }
        rest = behind;
    }
    true
}
