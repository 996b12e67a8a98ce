//! The fields of a text between its marks.
ghost use Rattle.std.specs.Prelude.{◌≡◌, ◌∷◌, [], None, MatchOption, IfSome, eqb};
ghost use Rattle.std.specs.List.{join_with_byte, position};
ghost use Rattle.tip_line.specs.Fields.{fields_of};

use std::marker::Model;

/// The fields of a text that were not taken yet, the first of them next. They stand between single marks; a text without a mark is one field.
#[derive(Drop)]
pub struct Fields<'a, const MARK: u8> {
    /// None behind the last field.
    rest: Option<&'a [u8]>,
}

impl<'a, const MARK: u8> Model for Fields<'a, MARK> {
    ghost use Rattle.std.specs.Prelude.{ℕ, List};
    ghost use Rattle.tip_line.specs.Fields.{left_in};

    ghost Value = { List (List ℕ) };

    ghost view = { λ f. left_in MARK f.rest };
}

impl<'a, const MARK: u8> Fields<'a, MARK> {
    /// All fields of a text.
    pub fn of(text: &'a [u8]) -> Fields<'a, MARK>
        ensures { result ≡ fields_of MARK text.now }
    {
        Fields { rest: Some(text) }
    }

    /// Takes the next field.
    pub fn next(&mut self) -> Option<&'a [u8]>
        ensures { MatchOption result ((self.old ≡ []) × (self.new ≡ []))
            (λ field. self.old ≡ field.now ∷ self.new) }
    {
        let rest = self.rest?;
        match first_mark(rest, MARK) {
            Some(end) => {
                self.rest = Some(&rest[end + 1..]);
                Some(&rest[..end])
            }
            None => {
                self.rest = None;
                Some(rest)
            }
        }
    }

    /// All fields that are left, as one text with the marks between them; None behind the last.
    #[tactic(auto, using(crate::proofs::FieldLemmas::joined, crate::proofs::FieldLemmas::some_field))]
    pub fn rest(self) -> Option<&'a [u8]>
        ensures some { IfSome result (λ rest. (rest.now ≡ join_with_byte MARK self.entry)
            × (self.entry ≡ fields_of MARK rest.now)) }
        ensures none { result ≡ None → self.entry ≡ [] }
        ensures only { self.entry ≡ [] → result ≡ None }
    {
        let Fields { rest } = self;
        rest
    }
}

/// Where the first mark of a text is.
fn first_mark(text: &[u8], mark: u8) -> Option<usize>
    ensures { result ≡ position (λ octet. eqb octet mark) text.now }
{
    text.iter().position(|octet| *octet == mark)
}
