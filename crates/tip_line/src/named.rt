//! Names out of a table, at the head of a text.
ghost use Rattle.std.specs.Prelude.{◌≡◌, ◌≢◌, Ok, Err, MatchResult};
ghost use Rattle.tip_line.specs.declared.fault.ParseFault.TheVariants.{Memory};
ghost use Rattle.std.specs.List.{find};
ghost use Rattle.std.specs.Str.{bytes_eq};
ghost use Rattle.tip_line.specs.Named.{head_of};
ghost use Rattle.tip_line.specs.Words.{words_of};

use crate::fault::ParseFault;
use crate::words::Words;

/// A name of a table, spelled as it stands in a line.
pub(crate) trait Name: Copy {
    ghost use Rattle.std.specs.Prelude.{List, ℕ};

    ghost spelled: { Self → List ℕ };

    fn spelling(self) -> &'static str
        ensures { result.now ≡ spelled self };
}

/// The first of these names that a word is.
fn among<N: Name>(names: &[N], word: &[u8]) -> Option<N>
    ensures { result ≡ find (λ name. bytes_eq (N.spelled name) word.now) names.now }
{
    names
        .iter()
        .copied()
        .find(|name| name.spelling().as_bytes() == word)
}

/// The name that a text begins with, and the words behind it.
pub(crate) fn named<'a, N: Name>(names: &[N], text: &'a [u8]) -> Result<(N, Words<'a>), ParseFault>
    ensures { MatchResult result
        (λ head. head_of N.spelled names.now text.now ≡ Ok (head.0, words_of head.1.rest.now))
        (λ fault. (head_of N.spelled names.now text.now ≡ Err fault) × (fault ≢ Memory)) }
{
    let mut words = Words::of(text)?;
    let Some(word) = words.next() else {
        return Err(ParseFault::Unknown);
    };
    match among(names, word) {
        Some(name) => Ok((name, words)),
        None => Err(ParseFault::Unknown),
    }
}
