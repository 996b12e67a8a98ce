//! The lines of a script.
ghost use Rattle.std.specs.Prelude.{◌≡◌, option_map};
ghost use Rattle.std.specs.List.{list_all};
ghost use Rattle.tip_script.specs.Moves.{move_by};
ghost use Rattle.tip_script.specs.Scripts.{is_digit, is_hex, sizes_in, declaration, opening, text_line, hex_octets, labelling, loss, move_of, order_in, plans_of, plans_with, realm_alone, realm_of, restarting, resumption};

use crate::asking::{Aim, Asked, request};
use crate::fields::{number_in, realm_in};
use crate::kinds::kinds_in;
use tip_line::Fields;
use tip_machine::Limits;

/// Octets that come on a connection.
#[derive(Clone, Copy)]
pub enum Octets<'a> {
    /// A text, and the end of a line.
    Text(&'a [u8]),
    /// Pairs of hexadecimal digits, one for each octet.
    Hex(&'a [u8]),
}

/// What one line of a script says.
#[derive(Clone, Copy)]
pub enum Instruction<'a> {
    /// `realm NAME ADDRESS CONNECTIONS TRANSACTIONS BRANCHES BOXES ENTRIES` declares a realm.
    Realm {
        name: &'a str,
        address: &'a [u8],
        /// How many local branches each transaction has.
        branches: u32,
        limits: Limits,
    },
    /// `labels REALM LABEL LABEL ..`: the branches of the realm's transactions have these labels, by number.
    Labels {
        realm: &'a str,
        /// With the spaces between them.
        labels: &'a [u8],
    },
    /// `open REALM BOXES`: another manager opens a connection, and boxes come with it, a letter for each; `-` stands for none.
    Open {
        realm: &'a str,
        kinds: &'a [u8],
    },
    /// `dial REALM ADDRESS BOXES plain`, `.. query ID` or `.. reconnect ID NUMBER`: we open a connection, and boxes come with it.
    Dial {
        realm: &'a str,
        address: &'a [u8],
        kinds: &'a [u8],
        aim: Aim<'a>,
    },
    /// `line REALM CONN TEXT` or `raw REALM CONN HEX`: octets come on a connection.
    Feed {
        realm: &'a str,
        connection: u32,
        octets: Octets<'a>,
    },
    /// `lost REALM CONN`: a connection is lost.
    Lost {
        realm: &'a str,
        connection: u32,
    },
    /// `push REALM CONN ID`: our transaction is to be pushed to the other side.
    Push(Asked<'a>),
    /// `pull REALM CONN ID`: the other side's transaction is to be pulled here.
    Pull(Asked<'a>),
    /// `go REALM`: the realm's oldest errand is done, and its party comes back.
    Go {
        realm: &'a str,
    },
    /// `drop REALM`: the realm's oldest errand is lost.
    Drop {
        realm: &'a str,
    },
    /// `resume REALM ID`: the realm goes on with a transaction that is committed.
    Resume {
        realm: &'a str,
        id: &'a [u8],
    },
    /// `refuse REALM`: the realm's next change of rows is to be refused.
    Refuse {
        realm: &'a str,
    },
    /// `renew REALM`: the realm starts again while the others run.
    Renew {
        realm: &'a str,
    },
    /// `restart`: the process starts again.
    Restart,
}

impl<'a> Instruction<'a> {
    /// What a line says; None where it is not understood.
    #[tactic(auto, unfolding(crate::specs::Scripts::move_in))]
    pub fn parse(line: &'a [u8]) -> Option<Instruction<'a>>
        ensures { option_map move_by result ≡ move_of line.now }
    {
        let mut fields = Fields::of(line);
        match fields.next()? {
            b"realm" => declaration(fields),
            b"open" => opening(fields),
            b"line" => text_line(fields),
            b"raw" => hex_octets(fields),
            b"lost" => loss(fields),
            word => order(word, fields),
        }
    }

    /// The realm that it is of; None where it is of all.
    pub fn realm(self) -> Option<&'a str>
        ensures { option_map (λ realm. realm.now) result ≡ realm_of (move_by self.entry) }
    {
        match self {
            Instruction::Realm { name: realm, .. }
            | Instruction::Labels { realm, .. }
            | Instruction::Open { realm, .. }
            | Instruction::Dial { realm, .. }
            | Instruction::Feed { realm, .. }
            | Instruction::Lost { realm, .. }
            | Instruction::Push(Asked { realm, .. })
            | Instruction::Pull(Asked { realm, .. })
            | Instruction::Go { realm }
            | Instruction::Drop { realm }
            | Instruction::Resume { realm, .. }
            | Instruction::Refuse { realm }
            | Instruction::Renew { realm } => Some(realm),
            Instruction::Restart => None,
        }
    }

    /// The boxes that it names, a letter for each; `plan_of` says what such a box promises.
    pub fn kinds(self) -> &'a [u8]
        ensures { plans_of result.now ≡ plans_with (move_by self.entry) }
    {
        match self {
            Instruction::Open { kinds, .. } | Instruction::Dial { kinds, .. } => kinds,
            Instruction::Realm { .. }
            | Instruction::Labels { .. }
            | Instruction::Feed { .. }
            | Instruction::Lost { .. }
            | Instruction::Push(_)
            | Instruction::Pull(_)
            | Instruction::Go { .. }
            | Instruction::Drop { .. }
            | Instruction::Resume { .. }
            | Instruction::Refuse { .. }
            | Instruction::Renew { .. }
            | Instruction::Restart => b"",
        }
    }
}

/// How many branches each transaction has, and the limits.
#[tactic(auto, unfolding(crate::specs::Scripts::sizes_in))]
fn sizes_in(mut fields: Fields<'_, b' '>) -> Option<(u32, Limits)>
    ensures { result ≡ sizes_in fields.entry }
{
    let connections = number_in(fields.next()?)?;
    let transactions = number_in(fields.next()?)?;
    let branches = number_in(fields.next()?)?;
    let limits = Limits {
        connections,
        transactions,
        boxes: number_in(fields.next()?)?,
        entries: number_in(fields.next()?)?,
    };
    match fields.next() {
        Some(_) => None,
        None => Some((branches, limits)),
    }
}

#[tactic(auto, unfolding(crate::specs::Scripts::declaration))]
fn declaration(mut fields: Fields<'_, b' '>) -> Option<Instruction<'_>>
    ensures { option_map move_by result ≡ declaration fields.entry }
{
    let name = fields.next()?;
    let address = fields.next()?;
    let name = realm_in(name)?;
    let (branches, limits) = sizes_in(fields)?;
    Some(Instruction::Realm {
        name,
        address,
        branches,
        limits,
    })
}

#[tactic(auto, unfolding(crate::specs::Scripts::opening))]
fn opening(mut fields: Fields<'_, b' '>) -> Option<Instruction<'_>>
    ensures { option_map move_by result ≡ opening fields.entry }
{
    let realm = realm_in(fields.next()?)?;
    let kinds = kinds_in(fields.rest()?)?;
    Some(Instruction::Open { realm, kinds })
}

#[tactic(auto, unfolding(crate::specs::Scripts::text_line))]
fn text_line(mut fields: Fields<'_, b' '>) -> Option<Instruction<'_>>
    ensures { option_map move_by result ≡ text_line fields.entry }
{
    let realm = fields.next()?;
    let connection = fields.next()?;
    let text = fields.rest()?;
    if text.is_empty() {
        return None;
    }
    Some(Instruction::Feed {
        realm: realm_in(realm)?,
        connection: number_in(connection)?,
        octets: Octets::Text(text),
    })
}

#[tactic(auto, unfolding(crate::specs::Scripts::hex_octets))]
fn hex_octets(mut fields: Fields<'_, b' '>) -> Option<Instruction<'_>>
    ensures { option_map move_by result ≡ hex_octets fields.entry }
{
    let realm = fields.next()?;
    let connection = fields.next()?;
    let digits = fields.rest()?;
    if !is_hex(digits) {
        return None;
    }
    Some(Instruction::Feed {
        realm: realm_in(realm)?,
        connection: number_in(connection)?,
        octets: Octets::Hex(digits),
    })
}

#[tactic(auto, unfolding(crate::specs::Scripts::loss))]
fn loss(mut fields: Fields<'_, b' '>) -> Option<Instruction<'_>>
    ensures { option_map move_by result ≡ loss fields.entry }
{
    let realm = fields.next()?;
    let connection = fields.next()?;
    if fields.next().is_some() {
        return None;
    }
    Some(Instruction::Lost {
        realm: realm_in(realm)?,
        connection: number_in(connection)?,
    })
}

/// What a line says that begins with none of the words above.
#[tactic(auto, unfolding(crate::specs::Scripts::order_in))]
fn order<'a>(word: &[u8], fields: Fields<'a, b' '>) -> Option<Instruction<'a>>
    ensures { option_map move_by result ≡ order_in word.now fields.entry }
{
    if word == b"go".as_slice() {
        let realm = realm_alone(fields)?;
        Some(Instruction::Go { realm })
    } else if word == b"drop".as_slice() {
        let realm = realm_alone(fields)?;
        Some(Instruction::Drop { realm })
    } else if word == b"refuse".as_slice() {
        let realm = realm_alone(fields)?;
        Some(Instruction::Refuse { realm })
    } else if word == b"renew".as_slice() {
        let realm = realm_alone(fields)?;
        Some(Instruction::Renew { realm })
    } else if word == b"resume".as_slice() {
        resumption(fields)
    } else if word == b"restart".as_slice() {
        restarting(fields)
    } else if word == b"labels".as_slice() {
        labelling(fields)
    } else {
        request(word, fields)
    }
}

/// A realm, and no more.
#[tactic(auto, unfolding(crate::specs::Scripts::realm_alone))]
fn realm_alone(mut fields: Fields<'_, b' '>) -> Option<&str>
    ensures { option_map (λ name. name.now) result ≡ realm_alone fields.entry }
{
    let realm = fields.next()?;
    if fields.next().is_some() {
        return None;
    }
    realm_in(realm)
}

#[tactic(auto, unfolding(crate::specs::Scripts::resumption))]
fn resumption(mut fields: Fields<'_, b' '>) -> Option<Instruction<'_>>
    ensures { option_map move_by result ≡ resumption fields.entry }
{
    let realm = fields.next()?;
    let id = fields.next()?;
    if fields.next().is_some() {
        return None;
    }
    Some(Instruction::Resume {
        realm: realm_in(realm)?,
        id,
    })
}

#[tactic(auto, unfolding(crate::specs::Scripts::restarting))]
fn restarting(mut fields: Fields<'_, b' '>) -> Option<Instruction<'_>>
    ensures { option_map move_by result ≡ restarting fields.entry }
{
    match fields.next() {
        Some(_) => None,
        None => Some(Instruction::Restart),
    }
}

#[tactic(auto, unfolding(crate::specs::Scripts::labelling))]
fn labelling(mut fields: Fields<'_, b' '>) -> Option<Instruction<'_>>
    ensures { option_map move_by result ≡ labelling fields.entry }
{
    let realm = fields.next()?;
    let labels = fields.rest()?;
    Some(Instruction::Labels {
        realm: realm_in(realm)?,
        labels,
    })
}

/// Whether these are one or more pairs of digits from `0` to `9` and `a` to `f`.
fn is_hex(digits: &[u8]) -> bool
    ensures { result ≡ is_hex digits.now }
{
    !digits.is_empty() && digits.len().is_multiple_of(2) && are_digits(digits)
}

fn are_digits(octets: &[u8]) -> bool
    ensures { result ≡ list_all is_digit octets.now }
{
    octets
        .iter()
        .all(|octet| matches!(*octet, b'0'..=b'9' | b'a'..=b'f'))
}
