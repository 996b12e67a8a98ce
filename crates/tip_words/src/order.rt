//! What the words of the command line ask for.

/// What the words of the command line ask for. Its texts are theirs.
#[derive(Clone, Copy)]
pub enum Order<'a> {
    /// To play the script on standard input, over the store in this file, or over rows in memory.
    Play {
        store: Option<&'a str>,
    },
    /// To serve the realms of the configuration in this file, until so many connections that were accepted have ended; without
    /// end where there is no number, which is 1 or more.
    Serve {
        config: &'a str,
        sessions: Option<u32>,
    },
    /// To list what the store in this file has.
    Rows {
        store: &'a str,
    },
    /// To look at a configuration, or at the store in this file, and change nothing.
    Check {
        config: Option<&'a str>,
        store: Option<&'a str>,
    },
    /// To ask the manager at this address, `HOST:PORT`, whether it is there.
    Ping {
        address: &'a str,
    },
    /// To ask it whether it has a transaction.
    Query {
        address: &'a str,
        id: &'a str,
    },
    /// To end a transaction that it has prepared.
    Settle {
        address: &'a str,
        id: &'a str,
        decision: &'a str,
    },
    /// To say the commands on standard input to it.
    Send {
        address: &'a str,
    },
    /// To ask the control port of a realm, `HOST:PORT`: the name of a request, and up to three words behind it.
    Ask {
        control: &'a str,
        request: &'a str,
        first: Option<&'a str>,
        second: Option<&'a str>,
        third: Option<&'a str>,
    },
}
