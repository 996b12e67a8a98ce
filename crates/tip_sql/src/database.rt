//! What rows are kept in.
use sqlite::{Alter, Connection};
use tip_rows::Medium;

/// A database, which is a file of SQLite or memory.
#[derive(Drop)]
pub struct Database<S: Alter> {
    pub(crate) conn: Connection<S>,
}

impl<S: Alter> Medium for Database<S> {
    ghost use Rattle.sqlite.specs.Held.{state};
    ghost use Rattle.sqlite.specs.State.{HasCleanDisk};

    ghost is_faithful = { λ database. HasCleanDisk (state S.Store database.conn) };
}
