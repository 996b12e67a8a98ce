//! The keys of rows.
ghost use Rattle.std.specs.Prelude.{◌≡◌, ◌<◌, Some, None, SomeIff};
ghost use Rattle.tip_rows.specs.Keys.{IsKey, comes_before};

use std::marker::Model;
use tip_line::IdParts;

/// The place of a transaction's row within its realm: the three numbers of its identifier, each 1 or more.
#[derive(Clone, Copy, PartialEq, Eq)]
pub struct Key {
    epoch: u32,
    connection: u32,
    number: u32,
}

impl Model for Key {
    ghost use Rattle.tip_rows.specs.Keys.{Key, IsKey};

    ghost Value = { Key };

    ghost view = { λ k. record { epoch = k.epoch; connection = k.connection; number = k.number } };

    ghost invariant = { λ k. IsKey
        (record { epoch = k.epoch; connection = k.connection; number = k.number }) };

    ghost inverse = { λ p. record {
      epoch = p.epoch;
      connection = p.connection;
      number = p.number;
    } };
}

impl Key {
    /// The key of three numbers; None where one is 0.
    pub fn new(epoch: u32, connection: u32, number: u32) -> Option<Key>
        ensures { SomeIff result
            (IsKey (record { epoch = epoch; connection = connection; number = number }))
            (record { epoch = epoch; connection = connection; number = number }) }
    {
        if epoch == 0 || connection == 0 || number == 0 {
            return None;
        }
        Some(Key {
            epoch,
            connection,
            number,
        })
    }

    /// The key of the transaction that has an identifier of these parts; None where a number is 0.
    pub fn of(parts: IdParts) -> Option<Key>
        ensures { SomeIff result (IsKey (record {
          epoch = parts.entry.epoch;
          connection = parts.entry.connection;
          number = parts.entry.number;
        })) (record {
          epoch = parts.entry.epoch;
          connection = parts.entry.connection;
          number = parts.entry.number;
        }) }
    {
        Key::new(parts.epoch, parts.connection, parts.number)
    }

    /// The epoch in which the transaction was made.
    pub fn epoch(self) -> u32
        ensures same { result ≡ self.epoch }
        ensures counted { 0 < result }
    {
        self.epoch
    }

    /// The connection on which it was made.
    pub fn connection(self) -> u32
        ensures same { result ≡ self.connection }
        ensures counted { 0 < result }
    {
        self.connection
    }

    /// Its number among those made there.
    pub fn number(self) -> u32
        ensures same { result ≡ self.number }
        ensures counted { 0 < result }
    {
        self.number
    }

    /// Whether it comes before another key: by epoch, then by connection, then by number.
    pub fn comes_before(self, other: Key) -> bool
        ensures { result ≡ comes_before self other }
    {
        if self.epoch != other.epoch {
            self.epoch < other.epoch
        } else if self.connection != other.connection {
            self.connection < other.connection
        } else {
            self.number < other.number
        }
    }
}
