//! Laws of the connection table, each carried by a function that does nothing.
ghost use Rattle.tip_conn.specs.Table.{IsFunction, IsOriginalWhereIdle, IsReversedByPulled, rows};

/// A command in a state has one row for each response.
pub fn the_table_is_a_function()
    ensures { IsFunction rows }
{}

/// The original sides return exactly where a connection becomes idle.
pub fn idle_connections_have_their_original_sides()
    ensures { IsOriginalWhereIdle rows }
{}

/// The sides turn round exactly where a PULL is answered PULLED.
pub fn pulled_alone_reverses()
    ensures { IsReversedByPulled rows }
{}
