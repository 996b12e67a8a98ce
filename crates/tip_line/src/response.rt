//! Responses, by which the secondary of a connection answers a command (RFC 2371, section 13).
ghost use Rattle.std.specs.Prelude.{◌≡◌, ◌≢◌, ◌⊎◌, Ok, Err, IfOk, IfErr, string_bytes};
ghost use Rattle.tip_line.specs.Words.{words_of};
ghost use Rattle.tip_line.specs.Texts.{Gives};
ghost use Rattle.tip_line.specs.Response.{spelled, name_of, IsResponse, Refuses, printed, response_of, response_from};
ghost use Rattle.tip_line.specs.declared.response.Response.{Response};
ghost use Rattle.tip_line.specs.declared.fault.ParseFault.{ParseFault};
ghost use Rattle.tip_line.specs.declared.fault.ParseFault.TheVariants.{Memory};

use crate::fault::ParseFault;
use crate::id::Id;
use crate::named::{Name, named};
use crate::parameters::{id_of, required};
use crate::version::version_of;
use crate::words::Words;
use std::alloc::{AllocError, Global};
use std::fmt;

/// The name of a response.
#[derive(Clone, Copy, Debug, PartialEq, Eq)]
pub enum ResponseName {
    Identified,
    NeedTls,
    Begun,
    NotBegun,
    Pushed,
    AlreadyPushed,
    NotPushed,
    Pulled,
    NotPulled,
    Prepared,
    ReadOnly,
    Committed,
    Aborted,
    QueriedExists,
    QueriedNotFound,
    Reconnected,
    NotReconnected,
    CantMultiplex,
    Multiplexing,
    CantTls,
    Tlsing,
    Error,
}

impl ResponseName {
    const ALL: [ResponseName; 22] = [
        ResponseName::Identified,
        ResponseName::NeedTls,
        ResponseName::Begun,
        ResponseName::NotBegun,
        ResponseName::Pushed,
        ResponseName::AlreadyPushed,
        ResponseName::NotPushed,
        ResponseName::Pulled,
        ResponseName::NotPulled,
        ResponseName::Prepared,
        ResponseName::ReadOnly,
        ResponseName::Committed,
        ResponseName::Aborted,
        ResponseName::QueriedExists,
        ResponseName::QueriedNotFound,
        ResponseName::Reconnected,
        ResponseName::NotReconnected,
        ResponseName::CantMultiplex,
        ResponseName::Multiplexing,
        ResponseName::CantTls,
        ResponseName::Tlsing,
        ResponseName::Error,
    ];

    /// The name as it stands in a line.
    pub fn as_str(self) -> &'static str
        ensures { result.now ≡ spelled self }
    {
        match self {
            ResponseName::Identified => "IDENTIFIED",
            ResponseName::NeedTls => "NEEDTLS",
            ResponseName::Begun => "BEGUN",
            ResponseName::NotBegun => "NOTBEGUN",
            ResponseName::Pushed => "PUSHED",
            ResponseName::AlreadyPushed => "ALREADYPUSHED",
            ResponseName::NotPushed => "NOTPUSHED",
            ResponseName::Pulled => "PULLED",
            ResponseName::NotPulled => "NOTPULLED",
            ResponseName::Prepared => "PREPARED",
            ResponseName::ReadOnly => "READONLY",
            ResponseName::Committed => "COMMITTED",
            ResponseName::Aborted => "ABORTED",
            ResponseName::QueriedExists => "QUERIEDEXISTS",
            ResponseName::QueriedNotFound => "QUERIEDNOTFOUND",
            ResponseName::Reconnected => "RECONNECTED",
            ResponseName::NotReconnected => "NOTRECONNECTED",
            ResponseName::CantMultiplex => "CANTMULTIPLEX",
            ResponseName::Multiplexing => "MULTIPLEXING",
            ResponseName::CantTls => "CANTTLS",
            ResponseName::Tlsing => "TLSING",
            ResponseName::Error => "ERROR",
        }
    }
}

impl Name for ResponseName {
    ghost use Rattle.tip_line.specs.Response.{spelled};

    ghost spelled = { spelled };

    fn spelling(self) -> &'static str {
        self.as_str()
    }
}

/// A response, with what it says.
#[derive(PartialEq, Drop)]
pub enum Response {
    Identified {
        /// The version that the secondary chose.
        version: u32,
    },
    NeedTls,
    Begun {
        transaction: Id,
    },
    NotBegun,
    Pushed {
        subordinate: Id,
    },
    AlreadyPushed {
        subordinate: Id,
    },
    NotPushed,
    Pulled,
    NotPulled,
    Prepared,
    ReadOnly,
    Committed,
    Aborted,
    QueriedExists,
    QueriedNotFound,
    Reconnected,
    NotReconnected,
    CantMultiplex,
    Multiplexing,
    CantTls,
    Tlsing,
    Error,
}

impl Response {
    /// Which response it is.
    pub fn name(&self) -> ResponseName
        ensures { result ≡ name_of self.now }
    {
        match self {
            Response::Identified { .. } => ResponseName::Identified,
            Response::NeedTls => ResponseName::NeedTls,
            Response::Begun { .. } => ResponseName::Begun,
            Response::NotBegun => ResponseName::NotBegun,
            Response::Pushed { .. } => ResponseName::Pushed,
            Response::AlreadyPushed { .. } => ResponseName::AlreadyPushed,
            Response::NotPushed => ResponseName::NotPushed,
            Response::Pulled => ResponseName::Pulled,
            Response::NotPulled => ResponseName::NotPulled,
            Response::Prepared => ResponseName::Prepared,
            Response::ReadOnly => ResponseName::ReadOnly,
            Response::Committed => ResponseName::Committed,
            Response::Aborted => ResponseName::Aborted,
            Response::QueriedExists => ResponseName::QueriedExists,
            Response::QueriedNotFound => ResponseName::QueriedNotFound,
            Response::Reconnected => ResponseName::Reconnected,
            Response::NotReconnected => ResponseName::NotReconnected,
            Response::CantMultiplex => ResponseName::CantMultiplex,
            Response::Multiplexing => ResponseName::Multiplexing,
            Response::CantTls => ResponseName::CantTls,
            Response::Tlsing => ResponseName::Tlsing,
            Response::Error => ResponseName::Error,
        }
    }

    /// The response that a text is. Only the identifier that it keeps takes memory.
    pub fn parse(alloc: Global, text: &[u8]) -> Result<Response, ParseFault>
        ensures read { IfOk result (λ response. IsResponse text.now response) }
        ensures only { (response : Response) → IsResponse text.now response →
            (result ≡ Ok response) ⊎ (result ≡ Err Memory) }
        ensures refused { IfErr result (Refuses text.now) }
        ensures exactly { (fault : ParseFault) → fault ≢ Memory → Refuses text.now fault →
            result ≡ Err fault }
        ensures steps { Gives result (response_of text.now) }
    {
        Response::read(alloc, text)
    }

    /// The response that a text is, by its name and the words behind it.
    #[tactic(auto, using(crate::proofs::Responses::reading), unfolding(crate::specs::Response::response_of))]
    fn read(alloc: Global, text: &[u8]) -> Result<Response, ParseFault>
        ensures { Gives result (response_of text.now) }
    {
        let (name, words) = named(&ResponseName::ALL, text)?;
        Response::with_words(alloc, name, words)
    }

    /// The response of a name and the words behind it.
    #[tactic(auto, unfolding(crate::specs::Response::response_from))]
    fn with_words(
        alloc: Global,
        name: ResponseName,
        mut words: Words,
    ) -> Result<Response, ParseFault>
        ensures { Gives result (response_from name (words_of words.entry.rest.now)) }
    {
        match name {
            ResponseName::Identified => {
                let version = required(&mut words)?;
                Ok(Response::Identified {
                    version: version_of(version).ok_or(ParseFault::Number)?,
                })
            }
            ResponseName::NeedTls => Ok(Response::NeedTls),
            ResponseName::Begun => {
                let transaction = required(&mut words)?;
                Ok(Response::Begun {
                    transaction: id_of(alloc, transaction)?,
                })
            }
            ResponseName::NotBegun => Ok(Response::NotBegun),
            ResponseName::Pushed => {
                let subordinate = required(&mut words)?;
                Ok(Response::Pushed {
                    subordinate: id_of(alloc, subordinate)?,
                })
            }
            ResponseName::AlreadyPushed => {
                let subordinate = required(&mut words)?;
                Ok(Response::AlreadyPushed {
                    subordinate: id_of(alloc, subordinate)?,
                })
            }
            ResponseName::NotPushed => Ok(Response::NotPushed),
            ResponseName::Pulled => Ok(Response::Pulled),
            ResponseName::NotPulled => Ok(Response::NotPulled),
            ResponseName::Prepared => Ok(Response::Prepared),
            ResponseName::ReadOnly => Ok(Response::ReadOnly),
            ResponseName::Committed => Ok(Response::Committed),
            ResponseName::Aborted => Ok(Response::Aborted),
            ResponseName::QueriedExists => Ok(Response::QueriedExists),
            ResponseName::QueriedNotFound => Ok(Response::QueriedNotFound),
            ResponseName::Reconnected => Ok(Response::Reconnected),
            ResponseName::NotReconnected => Ok(Response::NotReconnected),
            ResponseName::CantMultiplex => Ok(Response::CantMultiplex),
            ResponseName::Multiplexing => Ok(Response::Multiplexing),
            ResponseName::CantTls => Ok(Response::CantTls),
            ResponseName::Tlsing => Ok(Response::Tlsing),
            ResponseName::Error => Ok(Response::Error),
        }
    }

    /// The one spelling with single spaces, without an end of line.
    pub fn print(&self, alloc: Global) -> Result<String, AllocError>
        ensures { IfOk result (λ text. string_bytes text ≡ printed self.now) }
    {
        self.to_string(alloc)
    }

    /// An equal response, which shares the words and takes no memory.
    pub fn copy(&self) -> Result<Response, AllocError>
        ensures { IfOk result (λ response. response ≡ self.now) }
    {
        Ok(match self {
            Response::Identified { version } => Response::Identified { version: *version },
            Response::NeedTls => Response::NeedTls,
            Response::Begun { transaction } => Response::Begun {
                transaction: transaction.copy()?,
            },
            Response::NotBegun => Response::NotBegun,
            Response::Pushed { subordinate } => Response::Pushed {
                subordinate: subordinate.copy()?,
            },
            Response::AlreadyPushed { subordinate } => Response::AlreadyPushed {
                subordinate: subordinate.copy()?,
            },
            Response::NotPushed => Response::NotPushed,
            Response::Pulled => Response::Pulled,
            Response::NotPulled => Response::NotPulled,
            Response::Prepared => Response::Prepared,
            Response::ReadOnly => Response::ReadOnly,
            Response::Committed => Response::Committed,
            Response::Aborted => Response::Aborted,
            Response::QueriedExists => Response::QueriedExists,
            Response::QueriedNotFound => Response::QueriedNotFound,
            Response::Reconnected => Response::Reconnected,
            Response::NotReconnected => Response::NotReconnected,
            Response::CantMultiplex => Response::CantMultiplex,
            Response::Multiplexing => Response::Multiplexing,
            Response::CantTls => Response::CantTls,
            Response::Tlsing => Response::Tlsing,
            Response::Error => Response::Error,
        })
    }
}

impl fmt::Display for Response {
    ghost use Rattle.std.specs.Prelude.{Some};
    ghost use Rattle.tip_line.specs.Response.{printed};

    ghost output = { λ r. Some (printed r) };

    fn fmt<W: fmt::Write>(&self, f: &mut fmt::Formatter<W>) -> fmt::Result {
        match self {
            Response::Identified { version } => write!(f, "IDENTIFIED {version}"),
            Response::NeedTls => write!(f, "NEEDTLS"),
            Response::Begun { transaction } => write!(f, "BEGUN {transaction}"),
            Response::NotBegun => write!(f, "NOTBEGUN"),
            Response::Pushed { subordinate } => write!(f, "PUSHED {subordinate}"),
            Response::AlreadyPushed { subordinate } => write!(f, "ALREADYPUSHED {subordinate}"),
            Response::NotPushed => write!(f, "NOTPUSHED"),
            Response::Pulled => write!(f, "PULLED"),
            Response::NotPulled => write!(f, "NOTPULLED"),
            Response::Prepared => write!(f, "PREPARED"),
            Response::ReadOnly => write!(f, "READONLY"),
            Response::Committed => write!(f, "COMMITTED"),
            Response::Aborted => write!(f, "ABORTED"),
            Response::QueriedExists => write!(f, "QUERIEDEXISTS"),
            Response::QueriedNotFound => write!(f, "QUERIEDNOTFOUND"),
            Response::Reconnected => write!(f, "RECONNECTED"),
            Response::NotReconnected => write!(f, "NOTRECONNECTED"),
            Response::CantMultiplex => write!(f, "CANTMULTIPLEX"),
            Response::Multiplexing => write!(f, "MULTIPLEXING"),
            Response::CantTls => write!(f, "CANTTLS"),
            Response::Tlsing => write!(f, "TLSING"),
            Response::Error => write!(f, "ERROR"),
        }
    }
}
