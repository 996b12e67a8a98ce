//! What a row says of a transaction's parties (RFC 2371, section 10).
ghost use Rattle.std.specs.Prelude.{◌≡◌, ◌++◌, ◌==◌, ◌&&◌, [], ◌∷◌, filter, IfOk, OnOk};
ghost use Rattle.std.specs.List.{list_any};
ghost use Rattle.tip_branch.specs.Members.{is_ready};
ghost use Rattle.tip_outlook.specs.Wanting.{has_promised};

use std::alloc::{AllocError, Global};
use tip_branch::Member;
use tip_rows::{Branches, Label};

/// The branches whose members promised to commit.
#[tactic(auto, using(crate::proofs::Outlooks::still_branches))]
pub(crate) fn promised(
    alloc: Global,
    branches: &Branches,
    members: &[Member],
) -> Result<Branches, AllocError>
    ensures { IfOk result (λ kept. kept ≡ filter (has_promised members.now) branches.now) }
{
    match Branches::new(kept(alloc, branches.as_slice(), members)?) {
        Ok(branches) => Ok(branches),
        Err(_) => unreachable!(),
    }
}

/// The list of the branches whose members promised to commit.
#[tactic(auto, using(crate::proofs::Outlooks::filtering))]
fn kept(
    alloc: Global,
    branches: &[(u8, Label)],
    members: &[Member],
) -> Result<Vec<(u8, Label)>, AllocError>
    ensures { IfOk result (λ kept. kept.items ≡ filter (has_promised members.now) branches.now) }
{
    let mut kept = Vec::new(alloc);
    for branch in branches {
        keep(&mut kept, branch, members)?;
    }
    Ok(kept)
}

/// Adds a branch, if its member promised to commit.
fn keep(
    kept: &mut Vec<(u8, Label)>,
    branch: &(u8, Label),
    members: &[Member],
) -> Result<(), AllocError>
    ensures { OnOk result
        (kept.new.items ≡ kept.old.items ++ filter (has_promised members.now) (branch.now ∷ [])) }
{
    let (number, label) = branch;
    if has_promised(members, *number) {
        kept.push((*number, label.copy()?))?;
    }
    Ok(())
}

/// Whether a branch of this number promised to commit.
fn has_promised(members: &[Member], number: u8) -> bool
    ensures { result
        ≡ list_any (λ member. is_ready member && (member.number == number)) members.now }
{
    members
        .iter()
        .any(|member| member.is_ready() && member.number == number)
}
