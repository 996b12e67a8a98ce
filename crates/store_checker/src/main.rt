//! Makes a store in memory for each text between signs `%` on standard input, whose statements are run in it, and prints what a
//! check of it finds.
#![tactic(auto)]

use sqlite::{Alter, Connection, Error};
use std::alloc::Global;
use std::io::{self, BufWriter, Read, Write};
use tip_checking::{Contents, Tally, list_epochs, report};
use tip_line::Fields;

const TABLES: &str =
    "CREATE TABLE realm (name TEXT PRIMARY KEY, epoch INTEGER NOT NULL) STRICT; CREATE TABLE txn (realm TEXT, epoch INTEGER, conn INTEGER, num INTEGER, text TEXT NOT NULL, PRIMARY KEY (realm, epoch, conn, num)) STRICT;";

/// Runs statements.
fn run<S: Alter>(conn: &mut Connection<S>, sql: &str) -> Result<(), Error> {
    conn.execute_batch(sql)
}

/// What is in the tables once these statements were run.
fn stored<S: Alter + Drop>(
    alloc: Global,
    mut conn: Connection<S>,
    sql: &str,
) -> Result<Contents, Error> {
    run(&mut conn, TABLES)?;
    run(&mut conn, sql)?;
    Contents::of(alloc, &mut conn)
}

/// What a check finds after these statements.
fn checked(alloc: Global, sql: &str) -> Result<String, Error> {
    let conn = Connection::open_in_memory(alloc)?;
    let contents = stored(alloc, conn, sql)?;
    let mut told = String::new(alloc);
    list_epochs(&contents.realms, &mut told)?;
    let is_right = report(alloc, &contents, &mut told)?;
    let tally = Tally::of(alloc, &contents, "north")?;
    writeln!(told, "right {is_right}, north {tally}")?;
    Ok(told)
}

/// Checks each store, and prints what comes of it.
fn check_all<W: Write>(alloc: Global, input: &[u8], output: &mut W) -> io::Result<()> {
    let mut stores: Fields<'_, b'%'> = Fields::of(input);
    while let Some(store) = stores.next() {
        let Ok(sql) = str::from_utf8(store) else {
            return writeln!(output, "no text");
        };
        match checked(alloc, sql) {
            Ok(told) => writeln!(output, "{told}")?,
            Err(_) => writeln!(output, "no statements")?,
        }
    }
    Ok(())
}

fn main(rt: HostRuntime) -> io::Result<()> {
    let alloc = rt.alloc();
    let mut input = Vec::new(alloc);
    rt.stdin().read_to_end(&mut input)?;
    let mut output = BufWriter::new(alloc, io::writer(&rt))?;
    check_all(alloc, &input, &mut output)?;
    output.flush()
}
