//! The boxes that come with a connection.
ghost use Rattle.std.specs.Prelude.{◌≡◌, ◌/◌, ◌<◌, ◌≤◌, length, IfOk};
ghost use Rattle.tip_duties.specs.Plans.{repeated};

use std::alloc::{AllocError, Global};
use tip_branch::Plan;

/// What the boxes of a connection promise: the branches of one transaction, as often as the limit of boxes lets whole
/// transactions have them.
pub fn plans_for(alloc: Global, branches: &[Plan], limit: u32) -> Result<Vec<Plan>, AllocError>
    requires { 1 ≤ length branches.now }
    ensures { IfOk result
        (λ plans. plans.items ≡ repeated (limit / length branches.now) branches.now) }
{
    let mut plans = Vec::new(alloc);
    for _time in 0..limit as usize / branches.len() {
        plans.extend_from_slice(branches)?;
    }
    Ok(plans)
}
