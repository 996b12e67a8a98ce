//! Which connections an event speaks to.
ghost use Rattle.std.specs.Prelude.{◌≡◌, ◌++◌, ◌∷◌, [], List};
ghost use Rattle.tip_host.specs.Speaking.{Speaks};
ghost use Rattle.tip_machine.specs.declared.answer.Sent.{Sent as ASent};

use arrayvec::ArrayVec;
use tip_machine::Sent;

/// The connections of a realm to which an event sends lines or closings, by their numbers: up to eight, and whether there are
/// more. It takes no memory.
#[derive(Drop)]
pub struct Spoken {
    numbers: ArrayVec<u32, 8>,
    more: bool,
}

impl Spoken {
    /// Those to which these lines and closings go.
    pub(crate) fn to(sent: &[Sent]) -> Spoken
        ensures { Speaks sent.now result }
    {
        let mut spoken = Spoken {
            numbers: ArrayVec::new(),
            more: false,
        };
        for one in sent {
            spoken.note(one);
        }
        spoken
    }

    /// Their numbers; where there are more, the first eight.
    pub fn numbers(&self) -> &[u32]
        ensures { result.now ≡ self.now.numbers.items }
    {
        &self.numbers
    }

    /// Whether there are more than eight.
    pub fn has_more(&self) -> bool
        ensures { result ≡ self.now.more }
    {
        self.more
    }

    /// Behind others, this goes out.
    fn note(&mut self, one: &Sent)
        ensures { (before : List ASent) → Speaks before self.old →
            Speaks (before ++ one.now ∷ []) self.new }
    {
        if self.numbers.contains(&one.connection) {
            return;
        }
        if self.numbers.is_full() {
            self.more = true;
        } else {
            self.numbers.push(one.connection);
        }
    }
}
