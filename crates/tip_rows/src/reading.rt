//! How a text is read as a row, step by step.
ghost use Rattle.std.specs.Prelude.{◌≡◌, ◌∷◌, [], eqb, MatchResult};
ghost use Rattle.std.specs.List.{slice_split};
ghost use Rattle.tip_line.specs.Words.{is_word, is_address};
ghost use Rattle.tip_rows.specs.Labels.{is_label};
ghost use Rattle.tip_rows.specs.Reading.{Gives, Fails, checked, is_member, version_in, first_branch, second_branch, branch_in, items_in, branches_in, subordinate_in, subordinates_onto, prepared_in, committed_in, kind_in, row_in};
ghost use Rattle.tip_rows.specs.declared.text.RowFault.TheVariants.{BadRow};

use crate::branches::Branches;
use crate::heap_row::HeapRow;
use crate::label::Label;
use crate::row::Row;
use crate::subordinates::Subordinates;
use crate::text::RowFault;
use std::alloc::{Allocator, Global};
use tip_line::{Address, Fields, Id};

/// The words of a text that were not read yet.
type Words<'a> = Fields<'a, b' '>;

/// How the branches of a text are spelled.
#[derive(Clone, Copy)]
enum Version {
    First,
    Second,
}

/// The row that a text is.
pub fn row_of(alloc: Global, text: &[u8]) -> Result<Row, RowFault>
    ensures { Gives result (row_in (slice_split (λ octet. eqb octet 32) text.now)) }
{
    Ok(row_on(alloc, alloc, text)?.into_row())
}

/// The row that a text is, with its lists on this heap.
#[tactic(auto, unfolding(crate::specs::Reading::row_in))]
pub fn row_on<A: Allocator + Copy>(
    alloc: Global,
    heap: A,
    text: &[u8],
) -> Result<HeapRow<A>, RowFault>
    ensures { Gives result (row_in (slice_split (λ octet. eqb octet 32) text.now)) }
{
    let mut words: Words<'_> = Fields::of(text);
    let first = required(&mut words)?;
    let kind = required(&mut words)?;
    row_of_kind(alloc, heap, version_of(first)?, kind, words)
}

#[tactic(auto, unfolding(crate::specs::Reading::kind_in))]
fn row_of_kind<A: Allocator + Copy>(
    alloc: Global,
    heap: A,
    version: Version,
    kind: &[u8],
    words: Words<'_>,
) -> Result<HeapRow<A>, RowFault>
    ensures { Gives result (kind_in version kind.now words.entry) }
{
    if kind == b"P".as_slice() {
        prepared_of(alloc, heap, version, words)
    } else if kind == b"C".as_slice() {
        committed_of(alloc, heap, version, words)
    } else {
        Err(RowFault::BadRow)
    }
}

#[tactic(auto, unfolding(crate::specs::Reading::prepared_in))]
fn prepared_of<A: Allocator + Copy>(
    alloc: Global,
    heap: A,
    version: Version,
    mut words: Words<'_>,
) -> Result<HeapRow<A>, RowFault>
    ensures { Gives result (prepared_in version words.entry) }
{
    let address = required(&mut words)?;
    let superior = required(&mut words)?;
    let branches = required(&mut words)?;
    Ok(HeapRow::prepared(
        address_of(alloc, address)?,
        id_of(alloc, superior)?,
        branches_of(alloc, heap, version, branches)?,
        subordinates_of(alloc, heap, words)?,
    ))
}

#[tactic(auto, unfolding(crate::specs::Reading::committed_in))]
fn committed_of<A: Allocator + Copy>(
    alloc: Global,
    heap: A,
    version: Version,
    mut words: Words<'_>,
) -> Result<HeapRow<A>, RowFault>
    ensures { Gives result (committed_in version words.entry) }
{
    let branches = required(&mut words)?;
    Ok(HeapRow::committed(
        branches_of(alloc, heap, version, branches)?,
        subordinates_of(alloc, heap, words)?,
    ))
}

/// Takes the next word, which must be there.
fn required<'a>(words: &mut Words<'a>) -> Result<&'a [u8], RowFault>
    ensures { MatchResult result (λ word. words.old ≡ word.now ∷ words.new)
        (λ fault. (fault ≡ BadRow) × (words.old ≡ [])) }
{
    words.next().ok_or(RowFault::BadRow)
}

#[tactic(auto, unfolding(crate::specs::Reading::version_in))]
fn version_of(word: &[u8]) -> Result<Version, RowFault>
    ensures { Gives result (version_in word.now) }
{
    if word == b"1".as_slice() {
        Ok(Version::First)
    } else if word == b"2".as_slice() {
        Ok(Version::Second)
    } else {
        Err(RowFault::BadRow)
    }
}

#[tactic(auto, unfolding(crate::specs::Reading::branches_in))]
fn branches_of<A: Allocator>(
    alloc: Global,
    heap: A,
    version: Version,
    word: &[u8],
) -> Result<Branches<A>, RowFault>
    ensures { Gives result (branches_in version word.now) }
{
    match Branches::new(items_of(alloc, heap, version, word)?) {
        Ok(branches) => Ok(branches),
        Err(_) => Err(RowFault::BadRow),
    }
}

#[tactic(auto, using(crate::proofs::PartsLemmas::branch_taken, crate::proofs::PartsLemmas::branch_refused, crate::proofs::PartsLemmas::branches_taken), unfolding(crate::specs::Reading::items_in))]
fn items_of<A: Allocator>(
    alloc: Global,
    heap: A,
    version: Version,
    word: &[u8],
) -> Result<Vec<(u8, Label), A>, RowFault>
    ensures { MatchResult result (λ items. items_in version word.now ≡ Some items.items)
        (λ fault. Fails fault (items_in version word.now)) }
{
    let mut items = Vec::new(heap);
    if word == b"-".as_slice() {
        return Ok(items);
    }
    let mut parts: Fields<'_, b','> = Fields::of(word);
    while let Some(part) = parts.next() {
        let branch = branch_of(alloc, version, part)?;
        if items.push(branch).is_err() {
            return Err(RowFault::Memory);
        }
    }
    Ok(items)
}

#[tactic(auto, unfolding(crate::specs::Reading::branch_in))]
fn branch_of(alloc: Global, version: Version, part: &[u8]) -> Result<(u8, Label), RowFault>
    ensures { Gives result (branch_in version part.now) }
{
    match version {
        Version::First => first_branch(alloc, part),
        Version::Second => second_branch(alloc, part),
    }
}

/// A branch of version 1: its number alone, which makes its label.
#[tactic(auto, using(crate::proofs::PartsLemmas::first_is_label), unfolding(crate::specs::Reading::first_branch))]
fn first_branch(alloc: Global, part: &[u8]) -> Result<(u8, Label), RowFault>
    ensures { Gives result (first_branch part.now) }
{
    match part {
        [octet] if is_member(*octet) => Ok((*octet - b'0', label_of(alloc, &[b'b', *octet])?)),
        _ => Err(RowFault::BadRow),
    }
}

/// A branch of version 2: number, colon, label.
#[tactic(auto, unfolding(crate::specs::Reading::second_branch))]
fn second_branch(alloc: Global, part: &[u8]) -> Result<(u8, Label), RowFault>
    ensures { Gives result (second_branch part.now) }
{
    match part {
        [octet, colon, rest @ ..] if is_member(*octet) && *colon == b':' => {
            Ok((*octet - b'0', label_of(alloc, rest)?))
        }
        _ => Err(RowFault::BadRow),
    }
}

/// Whether an octet is a digit from 1 to 8.
fn is_member(octet: u8) -> bool
    ensures { result ≡ is_member octet }
{
    b'1' <= octet && octet <= b'8'
}

#[tactic(auto, using(crate::proofs::PartsLemmas::subordinate_taken, crate::proofs::PartsLemmas::subordinate_alone, crate::proofs::PartsLemmas::subordinate_refused, crate::proofs::PartsLemmas::subordinates_taken))]
fn subordinates_of<A: Allocator>(
    alloc: Global,
    heap: A,
    mut words: Words<'_>,
) -> Result<Subordinates<A>, RowFault>
    ensures { Gives result (subordinates_onto [] words.entry) }
{
    let mut items = Vec::new(heap);
    while let Some(word) = words.next() {
        let next = required(&mut words)?;
        let subordinate = subordinate_of(alloc, word, next)?;
        if items.push(subordinate).is_err() {
            return Err(RowFault::Memory);
        }
    }
    Ok(Subordinates::new(items))
}

#[tactic(auto, unfolding(crate::specs::Reading::subordinate_in))]
fn subordinate_of(alloc: Global, word: &[u8], next: &[u8]) -> Result<(Address, Id), RowFault>
    ensures { Gives result (subordinate_in word.now next.now) }
{
    Ok((address_of(alloc, word)?, id_of(alloc, next)?))
}

fn address_of(alloc: Global, octets: &[u8]) -> Result<Address, RowFault>
    ensures { Gives result (checked is_address octets.now) }
{
    Ok(Address::new(alloc, octets)?)
}

fn id_of(alloc: Global, octets: &[u8]) -> Result<Id, RowFault>
    ensures { Gives result (checked is_word octets.now) }
{
    Ok(Id::new(alloc, octets)?)
}

fn label_of(alloc: Global, octets: &[u8]) -> Result<Label, RowFault>
    ensures { Gives result (checked is_label octets.now) }
{
    Ok(Label::new(alloc, octets)?)
}
