//! The branches of a realm's transactions: their votes and labels.
ghost use Rattle.std.specs.Prelude.{◌≡◌, ◌≤◌, true, Some, IfErr, IfOk, MatchResult, length, option_map, vec_len};
ghost use Rattle.tip_machine.specs.Starting.{are_counted_from};
ghost use Rattle.tip_rows.specs.Rows.{first_label};
ghost use Rattle.tip_script.specs.Scripts.{are_kinds, plans_of};
ghost use Rattle.tip_settings.specs.Branches.{are_votes, branches_in, first_labels, label_in, labels_of, numbered, plans_in};
ghost use Rattle.tip_settings.specs.Documents.{each_of};
ghost use Rattle.tip_settings.specs.Faults.{Lacks};
ghost use Rattle.tip_settings.specs.declared.fault.Wanted.TheVariants.{Labels, Votes};
ghost use Rattle.toml.specs.View.{items_view, table_view, view};

use crate::documents::{text_at, value_at};
use crate::fault::{RealmFault, Wanted};
use std::alloc::{AllocError, Global};
use tip_branch::Plan;
use tip_rows::{Branches, Label, LabelFault};
use tip_script::{are_kinds, plan_of};
use toml::{Table, Value};

/// How many branches a transaction may have.
const MOST_BRANCHES: usize = 8;

/// What the box of each branch promises, by the letters of `votes`.
#[tactic(auto, unfolding(crate::specs::Branches::plans_in))]
pub(crate) fn plans_in(alloc: Global, table: &Table) -> Result<Vec<Plan>, RealmFault>
    ensures ok { IfOk result (λ plans. plans_in (table_view table.now) ≡ Some plans.items) }
    ensures some { IfOk result (λ plans. 1 ≤ vec_len plans) }
    ensures few { IfOk result (λ plans. vec_len plans ≤ 8) }
    ensures wrong { IfErr result (λ fault. Lacks Votes fault (plans_in (table_view table.now))) }
{
    match text_at(table, "votes") {
        Some(letters) if are_votes(letters.as_bytes()) => Ok(plans_of(alloc, letters.as_bytes())?),
        _ => Err(RealmFault::Wrong(Wanted::Votes)),
    }
}

/// Whether these are letters, one for each branch.
fn are_votes(letters: &[u8]) -> bool
    ensures { result ≡ are_votes letters.now }
{
    are_kinds(letters) && letters.len() <= MOST_BRANCHES
}

fn plans_of(alloc: Global, letters: &[u8]) -> Result<Vec<Plan>, AllocError>
    ensures { IfOk result (λ plans. plans.items ≡ plans_of letters.now) }
{
    let mut plans = Vec::with_capacity(alloc, letters.len())?;
    for letter in letters {
        plans.push(plan_of(*letter))?;
    }
    Ok(plans)
}

/// The branches, so many, by number and label.
#[tactic(auto, unfolding(crate::specs::Branches::branches_in))]
pub(crate) fn branches_in(
    alloc: Global,
    table: &Table,
    count: usize,
) -> Result<Branches, RealmFault>
    requires { count ≤ 8 }
    ensures ok { IfOk result
        (λ branches. branches_in count (table_view table.now) ≡ Some branches) }
    ensures each { IfOk result (λ branches. length branches ≡ count) }
    ensures counted { IfOk result (λ branches. are_counted_from 1 branches ≡ true) }
    ensures wrong { IfErr result
        (λ fault. Lacks Labels fault (branches_in count (table_view table.now))) }
{
    let labels = labels_of(alloc, value_at(table, "labels"), count)?;
    if labels.len() != count {
        return Err(RealmFault::Wrong(Wanted::Labels));
    }
    match Branches::new(numbered(alloc, &labels)?) {
        Ok(branches) => Ok(branches),
        Err(_) => Err(RealmFault::Wrong(Wanted::Labels)),
    }
}

/// The labels that are named, else the first ones, so many.
#[tactic(auto, unfolding(crate::specs::Branches::labels_of))]
fn labels_of(alloc: Global, value: Option<&Value>, count: usize) -> Result<Vec<Label>, RealmFault>
    requires { count ≤ 8 }
    ensures { MatchResult result
        (λ labels. labels_of count (option_map (λ v. view v.now) value.entry) ≡ Some labels.items)
        (λ fault. Lacks Labels fault (labels_of count (option_map (λ v. view v.now) value.entry))) }
{
    let Some(value) = value else {
        return Ok(first_labels(alloc, count)?);
    };
    match value.as_array() {
        Some(items) => each_label(alloc, items),
        None => Err(RealmFault::Wrong(Wanted::Labels)),
    }
}

/// The labels `b1`, `b2` and so on, so many.
fn first_labels(alloc: Global, count: usize) -> Result<Vec<Label>, AllocError>
    requires { count ≤ 8 }
    ensures { IfOk result (λ labels. labels.items ≡ first_labels count) }
{
    let mut labels = Vec::with_capacity(alloc, count)?;
    for before in 0..count {
        labels.push(first_label(alloc, before as u8 + 1)?)?;
    }
    Ok(labels)
}

/// The label of a branch that has no other: `b` and its number.
fn first_label(alloc: Global, number: u8) -> Result<Label, AllocError>
    requires { number ≤ 8 }
    ensures { IfOk result (λ label. label ≡ first_label number) }
{
    match Label::new(alloc, &[b'b', b'0' + number]) {
        Ok(label) => Ok(label),
        Err(LabelFault::Memory) => Err(AllocError),
        Err(LabelFault::BadLabel) => unreachable!(),
    }
}

/// The labels that these values are.
fn each_label(alloc: Global, items: &[Value]) -> Result<Vec<Label>, RealmFault>
    ensures { MatchResult result
        (λ labels. each_of label_in (items_view items.now) ≡ Some labels.items)
        (λ fault. Lacks Labels fault (each_of label_in (items_view items.now))) }
{
    let mut labels = Vec::new(alloc);
    for item in items.iter() {
        labels.push(label_in(alloc, item)?)?;
    }
    Ok(labels)
}

#[tactic(auto, unfolding(crate::specs::Branches::label_in))]
fn label_in(alloc: Global, value: &Value) -> Result<Label, RealmFault>
    ensures { MatchResult result (λ label. label_in (view value.now) ≡ Some label)
        (λ fault. Lacks Labels fault (label_in (view value.now))) }
{
    let Some(text) = value.as_str() else {
        return Err(RealmFault::Wrong(Wanted::Labels));
    };
    match Label::new(alloc, text.as_bytes()) {
        Ok(label) => Ok(label),
        Err(LabelFault::BadLabel) => Err(RealmFault::Wrong(Wanted::Labels)),
        Err(LabelFault::Memory) => Err(RealmFault::Memory),
    }
}

/// Branches with these labels, numbered from 1.
#[tactic(auto, using(crate::proofs::Numbering::counted_numbered, crate::proofs::Numbering::length_numbered))]
fn numbered(alloc: Global, labels: &[Label]) -> Result<Vec<(u8, Label)>, AllocError>
    requires { length labels.now ≤ 8 }
    ensures ok { IfOk result (λ branches. branches.items ≡ numbered 1 labels.now) }
    ensures each { IfOk result (λ branches. length branches.items ≡ length labels.now) }
    ensures counted { IfOk result (λ branches. are_counted_from 1 branches.items ≡ true) }
{
    let mut branches = Vec::with_capacity(alloc, labels.len())?;
    let mut number = 1;
    for label in labels {
        branches.push((number, label.copy()?))?;
        number += 1;
    }
    Ok(branches)
}
