//! Whether a database has the two tables and nothing else.
ghost use Rattle.std.specs.Prelude.{◌≡◌, ◌∷◌, []};
ghost use Rattle.std.specs.Bool.{OnTrue};
ghost use Rattle.tip_sql.specs.Standing.{lacks, lacks_column, has_column};
ghost use Rattle.tip_sql.specs.Tables.{strict, realm_table, txn_table, no_schema, half_schema, log_schema, realm_index, txn_index, plain_index, keyed, binary_order};

use sqlite_items::Items;
use sqlite_schema::code::Terms;
use sqlite_schema::schema::{Column, Index, Kind, Schema, Table};
use sqlite_value::keys::{Collation, Order};
use sqlite_value::value::Value;

/// No table yet.
pub fn is_blank(schema: &Schema) -> bool
    ensures { OnTrue result (schema.now ≡ no_schema) }
{
    schema.tables.is_empty() && schema.indexes.is_empty() && schema.views.is_empty()
}

/// The table of realms alone.
pub(crate) fn is_half(schema: &Schema) -> bool
    ensures { OnTrue result (schema.now ≡ half_schema) }
{
    is_first_table(schema.tables.as_slice())
        && is_first_index(schema.indexes.as_slice())
        && schema.views.is_empty()
}

/// Both tables.
pub(crate) fn is_whole(schema: &Schema) -> bool
    ensures { OnTrue result (schema.now ≡ log_schema) }
{
    are_both_tables(schema.tables.as_slice())
        && are_both_indexes(schema.indexes.as_slice())
        && schema.views.is_empty()
}

fn is_first_table(tables: &[Table]) -> bool
    ensures { OnTrue result (tables.now ≡ realm_table ∷ []) }
{
    match tables {
        [realm] => is_realm_table(realm),
        _ => false,
    }
}

fn are_both_tables(tables: &[Table]) -> bool
    ensures { OnTrue result (tables.now ≡ realm_table ∷ txn_table ∷ []) }
{
    match tables {
        [realm, txn] => is_realm_table(realm) && is_txn_table(txn),
        _ => false,
    }
}

fn is_first_index(indexes: &[Index]) -> bool
    ensures { OnTrue result (indexes.now ≡ realm_index ∷ []) }
{
    match indexes {
        [realm] => is_realm_index(realm),
        _ => false,
    }
}

fn are_both_indexes(indexes: &[Index]) -> bool
    ensures { OnTrue result (indexes.now ≡ realm_index ∷ txn_index ∷ []) }
{
    match indexes {
        [realm, txn] => is_realm_index(realm) && is_txn_index(txn),
        _ => false,
    }
}

fn is_realm_table(table: &Table) -> bool
    ensures { OnTrue result (table.now ≡ realm_table) }
{
    table.name.as_slice() == b"realm".as_slice()
        && table.tree == 0
        && are_realm_columns(table.columns.as_slice())
        && is_keyed(table, &[1])
}

fn is_txn_table(table: &Table) -> bool
    ensures { OnTrue result (table.now ≡ txn_table) }
{
    table.name.as_slice() == b"txn".as_slice()
        && table.tree == 2
        && are_txn_columns(table.columns.as_slice())
        && is_keyed(table, &[1, 2, 3, 4])
}

/// Whether a table has this primary key and no other rule.
fn is_keyed(table: &Table, places: &[usize]) -> bool
    ensures { OnTrue result (table.now ≡ keyed table.now places.now) }
{
    table.key.is_none()
        && table.primary.as_slice() == places
        && is_one_key(&table.uniques, places)
        && is_one_order(&table.orders)
        && is_nothing(&table.checks)
        && table.references.is_empty()
        && table.computed.is_empty()
        && table.stamps.places.is_empty()
        && is_nothing(&table.stamps.terms)
        && table.stamps.formats.is_empty()
        && !table.is_counted
}

fn is_one_key(keys: &Items<Items<usize>>, places: &[usize]) -> bool
    ensures { OnTrue result (keys.now ≡ places.now ∷ []) }
{
    match keys.as_slice() {
        [key] => is_key(key, places),
        _ => false,
    }
}

fn is_key(key: &Items<usize>, places: &[usize]) -> bool
    ensures { OnTrue result (key.now ≡ places.now) }
{
    key.as_slice() == places
}

fn is_one_order(orders: &Items<Order>) -> bool
    ensures { OnTrue result (orders.now ≡ binary_order ∷ []) }
{
    match orders.as_slice() {
        [order] => *order == Order::PLAIN,
        _ => false,
    }
}

fn is_nothing(terms: &Terms) -> bool
    ensures { OnTrue result (terms.now ≡ []) }
{
    terms.roots.is_empty()
}

fn are_realm_columns(columns: &[Column]) -> bool
    ensures { OnTrue result (columns.now ≡ realm_table.columns) }
{
    match columns {
        [name, epoch] => {
            is_column(name, b"name", Kind::Text) && is_column(epoch, b"epoch", Kind::Integer)
        }
        _ => false,
    }
}

fn are_txn_columns(columns: &[Column]) -> bool
    ensures { OnTrue result (columns.now ≡ txn_table.columns) }
{
    match columns {
        [realm, epoch, conn, num, text] => {
            is_column(realm, b"realm", Kind::Text)
                && is_column(epoch, b"epoch", Kind::Integer)
                && is_column(conn, b"conn", Kind::Integer)
                && is_column(num, b"num", Kind::Integer)
                && is_column(text, b"text", Kind::Text)
        }
        _ => false,
    }
}

fn is_column(column: &Column, name: &[u8], kind: Kind) -> bool
    ensures { OnTrue result (column.now ≡ strict name.now kind) }
{
    column.name.as_slice() == name
        && column.kind == kind
        && column.is_strict
        && column.not_null
        && matches!(column.default, Value::Null)
        && column.collation == Collation::Binary
}

fn is_realm_index(index: &Index) -> bool
    ensures { OnTrue result (index.now ≡ realm_index) }
{
    is_index(index, b"sqlite_autoindex_realm_1", 1, 0, &[1])
}

fn is_txn_index(index: &Index) -> bool
    ensures { OnTrue result (index.now ≡ txn_index) }
{
    is_index(index, b"sqlite_autoindex_txn_1", 3, 2, &[1, 2, 3, 4])
}

fn is_index(index: &Index, name: &[u8], tree: u32, table: u32, places: &[usize]) -> bool
    ensures { OnTrue result (index.now ≡ plain_index name.now tree table places.now) }
{
    index.name.as_slice() == name
        && index.tree == tree
        && index.table == table
        && index.columns.as_slice() == places
        && index.order == Order::PLAIN
        && index.is_unique
}

/// Whether a table of ours lacks a column of ours.
pub(crate) fn lacks_column(schema: &Schema) -> bool
    ensures { result ≡ lacks_column schema.now }
{
    schema.tables.as_slice().iter().any(|table| lacks(table))
}

fn lacks(table: &Table) -> bool
    ensures { result ≡ lacks table.now }
{
    (table.name.as_slice() == b"realm".as_slice()
        && !(has_column(b"name", table) && has_column(b"epoch", table)))
        || (table.name.as_slice() == b"txn".as_slice()
            && !(has_column(b"realm", table)
                && has_column(b"epoch", table)
                && has_column(b"conn", table)
                && has_column(b"num", table)
                && has_column(b"text", table)))
}

fn has_column(name: &[u8], table: &Table) -> bool
    ensures { result ≡ has_column name.now table.now }
{
    table
        .columns
        .as_slice()
        .iter()
        .any(|column| column.name.as_slice() == name)
}
