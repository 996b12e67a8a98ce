//! What a line asks for.
ghost use Rattle.std.specs.Prelude.{◌≡◌, ◌∷◌, [], ℕ, List, true, false, IfErr, IfOk, MatchResult, codes};
ghost use Rattle.tip_control.specs.Requests.{IsRequest, Refuses, RefusesAs, fault_of_pull, fault_of_push, is_good, is_single, spelled};
ghost use Rattle.tip_control.specs.declared.fault.RequestFault.TheVariants.{Missing, Unknown};

use crate::fault::RequestFault;
use std::alloc::Global;
use tip_line::{Address, Fields, Id, Word};
use tip_script::are_kinds;

/// The words of a line that were not taken yet.
type Words<'a> = Fields<'a, b' '>;

/// What an operator, or an application, asks of its realm.
#[derive(Drop)]
pub enum Request {
    /// How much of its limits the realm takes up.
    Status,
    /// Which transactions are in doubt, and who is owed an outcome.
    Doubts,
    /// To call again whoever a start calls.
    Retry,
    /// To start again now.
    Renew,
    /// To push a transaction of the realm's to the manager at an address.
    Push {
        address: Address,
        id: Id,
    },
    /// To pull a transaction of the manager's at an address, with a box for each of these letters.
    Pull {
        address: Address,
        superior: Id,
        boxes: Word,
    },
}

impl Request {
    /// The request that a line is, without its end. One space stands between its words.
    pub fn parse(alloc: Global, line: &[u8]) -> Result<Request, RequestFault>
        ensures request { IfOk result (IsRequest line.now) }
        ensures refused { IfErr result (Refuses line.now) }
    {
        let mut words: Words<'_> = Fields::of(line);
        let Some(name) = words.next() else {
            return Err(RequestFault::Unknown);
        };
        if name == b"push".as_slice() {
            return push(alloc, words);
        }
        if name == b"pull".as_slice() {
            return pull(alloc, words);
        }
        let request = named(name)?;
        ended(&mut words)?;
        Ok(request)
    }
}

/// The request of a name behind which nothing stands.
fn named(name: &[u8]) -> Result<Request, RequestFault>
    ensures ok { IfOk result
        (λ request. (spelled request ≡ name.now ∷ []) × (is_good request ≡ true)) }
    ensures err { IfErr result (λ fault. (fault ≡ Unknown) × (is_single name.now ≡ false)) }
{
    if name == b"status".as_slice() {
        return Ok(Request::Status);
    }
    if name == b"doubts".as_slice() {
        return Ok(Request::Doubts);
    }
    if name == b"retry".as_slice() {
        return Ok(Request::Retry);
    }
    if name == b"renew".as_slice() {
        return Ok(Request::Renew);
    }
    Err(RequestFault::Unknown)
}

/// The words behind `push`.
fn push(alloc: Global, mut words: Words<'_>) -> Result<Request, RequestFault>
    ensures ok { IfOk result (λ request. (spelled request ≡ codes "push" ∷ words.entry)
        × (is_good request ≡ true)) }
    ensures err { IfErr result (RefusesAs (fault_of_push words.entry)) }
{
    let address = required(&mut words)?;
    let id = required(&mut words)?;
    ended(&mut words)?;
    let address = Address::new(alloc, address)?;
    let id = Id::new(alloc, id)?;
    Ok(Request::Push { address, id })
}

/// The words behind `pull`.
fn pull(alloc: Global, mut words: Words<'_>) -> Result<Request, RequestFault>
    ensures ok { IfOk result (λ request. (spelled request ≡ codes "pull" ∷ words.entry)
        × (is_good request ≡ true)) }
    ensures err { IfErr result (RefusesAs (fault_of_pull words.entry)) }
{
    let address = required(&mut words)?;
    let superior = required(&mut words)?;
    let boxes = required(&mut words)?;
    ended(&mut words)?;
    if !are_kinds(boxes) {
        return Err(RequestFault::NotWord);
    }
    let address = Address::new(alloc, address)?;
    let superior = Id::new(alloc, superior)?;
    let boxes = Word::new(alloc, boxes)?;
    Ok(Request::Pull {
        address,
        superior,
        boxes,
    })
}

/// The next word.
fn required<'a>(words: &mut Words<'a>) -> Result<&'a [u8], RequestFault>
    ensures { MatchResult result (λ word. words.old ≡ word.now ∷ words.new)
        (λ fault. (fault ≡ Missing) × (words.old ≡ [])) }
{
    match words.next() {
        Some(word) => Ok(word),
        None => Err(RequestFault::Missing),
    }
}

/// No word is left.
fn ended(words: &mut Words<'_>) -> Result<(), RequestFault>
    ensures { MatchResult result (λ _. words.old ≡ []) (λ fault. (fault ≡ Unknown)
        × (word : List ℕ) × (others : List (List ℕ)) × (words.old ≡ word ∷ others)) }
{
    match words.next() {
        None => Ok(()),
        Some(_) => Err(RequestFault::Unknown),
    }
}
