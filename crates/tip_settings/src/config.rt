//! The configuration.
ghost use Rattle.std.specs.Prelude.{◌≡◌, true, length, vec_len};
ghost use Rattle.tip_machine.specs.Heads.{are_allowed, is_within};
ghost use Rattle.tip_machine.specs.Starting.{are_counted_from};

use tip_branch::Plan;
use tip_line::{Address, Realm};
use tip_machine::Limits;
use tip_rows::Branches;

/// A realm that is to be served. It may be declared as it stands: its limits are within their
/// ranges, and its branches are one to eight, numbered from 1.
#[derive(Drop)]
pub struct RealmConfig {
    pub name: Realm,
    /// Where connections are accepted.
    pub listen: String,
    /// Where other managers reach the realm.
    pub address: Address,
    /// Where the realm's own operator is heard, if anywhere.
    pub control: Option<String>,
    /// What the box of each branch promises, by the branch's number.
    pub plans: Vec<Plan>,
    /// The branches of each transaction, by number and label.
    pub branches: Branches,
    pub limits: Limits,
    ghost allowed: { are_allowed limits ≡ true },
    ghost few: { is_within 1 8 (length branches) ≡ true },
    ghost counted: { are_counted_from 1 branches ≡ true },
    ghost each: { vec_len plans ≡ length branches },
}

/// The realms that are to be served, one or more, and the file in which their rows are kept.
#[derive(Drop)]
pub struct Config {
    /// The path of a file, or `:memory:`.
    pub store: String,
    /// In the order in which they stand. Two of them may have one name.
    pub realms: Vec<RealmConfig>,
}
