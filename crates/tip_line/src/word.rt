//! Words: the parts of a line between its spaces (RFC 2371, sections 5, 7 and 11).
ghost use Rattle.std.specs.Prelude.{◌≡◌, ◌↔◌, true, false, IfOk, OnOk, IsErrOf, string_bytes};
ghost use Rattle.std.specs.List.{list_all};
ghost use Rattle.tip_line.specs.Words.{is_word, is_address, is_word_octet};
ghost use Rattle.tip_line.specs.declared.fault.WordFault.TheVariants.{NotWord};

use crate::fault::WordFault;
use std::alloc::{AllocError, Global};
use std::fmt;
use std::marker::Model;
use std::sync::ArcStr;

/// How many octets a word may have.
pub const LONGEST_WORD: usize = 1024;

/// 1 to 1,024 octets from `!` to `~`. Copies share the octets.
#[derive(Debug, Drop)]
pub struct Word {
    text: ArcStr,
}

impl Model for Word {
    ghost use Rattle.std.specs.Prelude.{◌≡◌, true, ℕ, List};
    ghost use Rattle.std.specs.Arc.{arc_str_bytes};
    ghost use Rattle.tip_line.specs.Words.{is_word};

    ghost Value = { List ℕ };

    ghost view = { λ w. arc_str_bytes w.text };

    ghost invariant = { λ w. is_word (arc_str_bytes w.text) ≡ true };
}

impl Word {
    /// The word of these octets.
    pub fn new(alloc: Global, octets: &[u8]) -> Result<Word, WordFault>
        ensures same { IfOk result (λ word. word ≡ octets.now) }
        ensures word { OnOk result (is_word octets.now ≡ true) }
        ensures not_word { IsErrOf result NotWord ↔ (is_word octets.now ≡ false) }
    {
        if !is_word(octets) {
            return Err(WordFault::NotWord);
        }
        match str::from_utf8(octets) {
            Ok(text) => Ok(Word {
                text: ArcStr::from_str(alloc, text).map_err(|_| WordFault::Memory)?,
            }),
            Err(_) => unreachable!(),
        }
    }

    /// The word of a text that is known to be one.
    pub(crate) fn from_text(text: String) -> Result<Word, AllocError>
        requires { is_word (string_bytes text) ≡ true }
        ensures { IfOk result (λ word. word ≡ string_bytes text) }
    {
        Ok(Word {
            text: ArcStr::from_string(text)?,
        })
    }

    /// An equal word, which shares the octets and takes no memory.
    pub fn copy(&self) -> Result<Word, AllocError>
        ensures { IfOk result (λ word. word ≡ self.now) }
    {
        Ok(Word {
            text: self.text.clone()?,
        })
    }

    /// The word as text.
    pub fn as_str(&self) -> &str
        ensures same { result.now ≡ self.now }
        ensures word { is_word self.now ≡ true }
    {
        self.text.as_str()
    }
}

impl fmt::Display for Word {
    ghost use Rattle.std.specs.Prelude.{Some};

    ghost output = { λ w. Some w };

    fn fmt<W: fmt::Write>(&self, f: &mut fmt::Formatter<W>) -> fmt::Result {
        f.write_str(self.as_str())
    }
}

impl PartialEq for Word {
    ghost use Rattle.std.specs.Str.{bytes_eq};
    ghost use Rattle.std.proofs.Common.{rules};
    ghost use Rattle.std.specs.Cmp.Rules.{comparing};

    ghost eq = { bytes_eq };

    ghost laws = { Prim.search (comparing, rules) };

    fn eq(&self, other: &Word) -> bool {
        self.as_str() == other.as_str()
    }
}

/// A transaction manager's address, which only a dialler reads: a word other than `-` (RFC 2371, section 7).
#[derive(Drop)]
pub struct Address {
    word: Word,
}

impl Model for Address {
    ghost use Rattle.std.specs.Prelude.{◌≡◌, true, ℕ, List};
    ghost use Rattle.tip_line.specs.Words.{is_address};

    ghost Value = { List ℕ };

    ghost view = { λ a. a.word };

    ghost invariant = { λ a. is_address a.word ≡ true };
}

impl Address {
    /// The address of these octets.
    pub fn new(alloc: Global, octets: &[u8]) -> Result<Address, WordFault>
        ensures same { IfOk result (λ address. address ≡ octets.now) }
        ensures word { OnOk result (is_address octets.now ≡ true) }
        ensures not_word { IsErrOf result NotWord ↔ (is_address octets.now ≡ false) }
    {
        if octets == b"-".as_slice() {
            return Err(WordFault::NotWord);
        }
        Ok(Address {
            word: Word::new(alloc, octets)?,
        })
    }

    /// An equal address, which shares the octets and takes no memory.
    pub fn copy(&self) -> Result<Address, AllocError>
        ensures { IfOk result (λ address. address ≡ self.now) }
    {
        Ok(Address {
            word: self.word.copy()?,
        })
    }

    /// The address as text.
    pub fn as_str(&self) -> &str
        ensures same { result.now ≡ self.now }
        ensures word { is_address self.now ≡ true }
    {
        self.word.as_str()
    }
}

impl fmt::Display for Address {
    ghost use Rattle.std.specs.Prelude.{Some};

    ghost output = { λ a. Some a };

    fn fmt<W: fmt::Write>(&self, f: &mut fmt::Formatter<W>) -> fmt::Result {
        self.word.fmt(f)
    }
}

impl PartialEq for Address {
    ghost use Rattle.std.specs.Str.{bytes_eq};
    ghost use Rattle.std.proofs.Common.{rules};
    ghost use Rattle.std.specs.Cmp.Rules.{comparing};

    ghost eq = { bytes_eq };

    ghost laws = { Prim.search (comparing, rules) };

    fn eq(&self, other: &Address) -> bool {
        self.word == other.word
    }
}

/// Whether octets are a word.
pub fn is_word(octets: &[u8]) -> bool
    ensures { result ≡ is_word octets.now }
{
    !octets.is_empty() && octets.len() <= LONGEST_WORD && are_word_octets(octets)
}

/// Whether each octet is one that a word may have.
fn are_word_octets(octets: &[u8]) -> bool
    ensures { result ≡ list_all is_word_octet octets.now }
{
    octets.iter().all(|octet| matches!(octet, b'!'..=b'~'))
}
