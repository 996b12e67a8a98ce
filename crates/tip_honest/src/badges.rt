//! Boxes as what they are known by.
ghost use Rattle.std.specs.Prelude.{◌≡◌, ◌↔◌, IsTrue};

use std::marker::Model;
use tip_branch::Badge;

/// What boxes are known by, in order. It is seen as a list.
#[derive(Drop)]
pub struct Badges {
    badges: Vec<Badge>,
}

impl Model for Badges {
    ghost use Rattle.std.specs.Prelude.{List};
    ghost use Rattle.tip_branch.specs.declared.branch.Badge.{Badge};

    ghost Value = { List Badge };

    ghost view = { λ b. b.badges.items };
}

impl Badges {
    /// These. It takes no memory.
    pub fn new(badges: Vec<Badge>) -> Badges
        ensures { result ≡ badges.items }
    {
        Badges { badges }
    }

    pub fn as_slice(&self) -> &[Badge]
        ensures { result.now ≡ self.now }
    {
        &self.badges
    }

    /// Whether these are the same.
    pub(crate) fn are(&self, others: &Badges) -> bool
        ensures { IsTrue result ↔ (self.now ≡ others.now) }
    {
        are_same(&self.badges, &others.badges)
    }
}

/// Whether these are the same.
fn are_same(one: &[Badge], others: &[Badge]) -> bool
    ensures { IsTrue result ↔ (one.now ≡ others.now) }
{
    one == others
}
