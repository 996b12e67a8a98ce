//! Commands, which the primary of a connection says (RFC 2371, section 13).
ghost use Rattle.std.specs.Prelude.{◌≡◌, ◌≢◌, ◌⊎◌, Ok, Err, IfOk, IfErr, string_bytes};
ghost use Rattle.std.specs.List.{list_all};
ghost use Rattle.tip_line.specs.Words.{is_word, words_of};
ghost use Rattle.tip_line.specs.Texts.{Gives};
ghost use Rattle.tip_line.specs.Command.{spelled, name_of, IsCommand, Refuses, printed, command_of, command_from, identify_from};
ghost use Rattle.tip_line.specs.declared.command.Command.{Command};
ghost use Rattle.tip_line.specs.declared.fault.ParseFault.{ParseFault};
ghost use Rattle.tip_line.specs.declared.fault.ParseFault.TheVariants.{Memory};

use crate::fault::ParseFault;
use crate::id::Id;
use crate::named::{Name, named};
use crate::parameters::{address_of, id_of, required, word_of};
use crate::version::version_of;
use crate::word::{Address, Word};
use crate::words::Words;
use std::alloc::{AllocError, Global};
use std::fmt;

/// The name of a command.
#[derive(Clone, Copy, PartialEq, Eq)]
pub enum CommandName {
    Identify,
    Begin,
    Push,
    Pull,
    Prepare,
    Commit,
    Abort,
    Query,
    Reconnect,
    Multiplex,
    Tls,
    Error,
}

impl CommandName {
    const ALL: [CommandName; 12] = [
        CommandName::Identify,
        CommandName::Begin,
        CommandName::Push,
        CommandName::Pull,
        CommandName::Prepare,
        CommandName::Commit,
        CommandName::Abort,
        CommandName::Query,
        CommandName::Reconnect,
        CommandName::Multiplex,
        CommandName::Tls,
        CommandName::Error,
    ];

    /// The name as it stands in a line.
    pub fn as_str(self) -> &'static str
        ensures { result.now ≡ spelled self }
    {
        match self {
            CommandName::Identify => "IDENTIFY",
            CommandName::Begin => "BEGIN",
            CommandName::Push => "PUSH",
            CommandName::Pull => "PULL",
            CommandName::Prepare => "PREPARE",
            CommandName::Commit => "COMMIT",
            CommandName::Abort => "ABORT",
            CommandName::Query => "QUERY",
            CommandName::Reconnect => "RECONNECT",
            CommandName::Multiplex => "MULTIPLEX",
            CommandName::Tls => "TLS",
            CommandName::Error => "ERROR",
        }
    }
}

impl Name for CommandName {
    ghost use Rattle.tip_line.specs.Command.{spelled};

    ghost spelled = { spelled };

    fn spelling(self) -> &'static str {
        self.as_str()
    }
}

/// A command, with what it says.
#[derive(PartialEq, Drop)]
pub enum Command {
    Identify {
        /// The lowest version that the primary speaks.
        low: u32,
        /// The highest one.
        high: u32,
        /// The primary's address, if it has one.
        primary: Option<Address>,
        /// The address by which the primary calls the secondary, or `-`.
        secondary: Word,
    },
    Begin,
    Push {
        superior: Id,
    },
    Pull {
        superior: Id,
        subordinate: Id,
    },
    Prepare,
    Commit,
    Abort,
    Query {
        superior: Id,
    },
    Reconnect {
        subordinate: Id,
    },
    Multiplex {
        protocol: Word,
    },
    Tls,
    Error,
}

impl Command {
    /// Which command it is.
    pub fn name(&self) -> CommandName
        ensures { result ≡ name_of self.now }
    {
        match self {
            Command::Identify { .. } => CommandName::Identify,
            Command::Begin => CommandName::Begin,
            Command::Push { .. } => CommandName::Push,
            Command::Pull { .. } => CommandName::Pull,
            Command::Prepare => CommandName::Prepare,
            Command::Commit => CommandName::Commit,
            Command::Abort => CommandName::Abort,
            Command::Query { .. } => CommandName::Query,
            Command::Reconnect { .. } => CommandName::Reconnect,
            Command::Multiplex { .. } => CommandName::Multiplex,
            Command::Tls => CommandName::Tls,
            Command::Error => CommandName::Error,
        }
    }

    /// The command that a text is. Only the words that it keeps take memory.
    pub fn parse(alloc: Global, text: &[u8]) -> Result<Command, ParseFault>
        ensures read { IfOk result (λ command. IsCommand text.now command) }
        ensures only { (command : Command) → IsCommand text.now command →
            (result ≡ Ok command) ⊎ (result ≡ Err Memory) }
        ensures refused { IfErr result (Refuses text.now) }
        ensures exactly { (fault : ParseFault) → fault ≢ Memory → Refuses text.now fault →
            result ≡ Err fault }
        ensures steps { Gives result (command_of text.now) }
    {
        Command::read(alloc, text)
    }

    /// The command that a text is, by its name and the words behind it.
    #[tactic(auto, using(crate::proofs::Commands::reading), unfolding(crate::specs::Command::command_of))]
    fn read(alloc: Global, text: &[u8]) -> Result<Command, ParseFault>
        ensures { Gives result (command_of text.now) }
    {
        let (name, words) = named(&CommandName::ALL, text)?;
        Command::with_words(alloc, name, words)
    }

    /// The command of a name and the words behind it.
    #[tactic(auto, unfolding(crate::specs::Command::command_from))]
    fn with_words(alloc: Global, name: CommandName, mut words: Words) -> Result<Command, ParseFault>
        ensures { Gives result (command_from name (words_of words.entry.rest.now)) }
    {
        match name {
            CommandName::Identify => Command::identify(alloc, words),
            CommandName::Begin => Ok(Command::Begin),
            CommandName::Push => {
                let superior = required(&mut words)?;
                Ok(Command::Push {
                    superior: id_of(alloc, superior)?,
                })
            }
            CommandName::Pull => {
                let superior = required(&mut words)?;
                let subordinate = required(&mut words)?;
                Ok(Command::Pull {
                    superior: id_of(alloc, superior)?,
                    subordinate: id_of(alloc, subordinate)?,
                })
            }
            CommandName::Prepare => Ok(Command::Prepare),
            CommandName::Commit => Ok(Command::Commit),
            CommandName::Abort => Ok(Command::Abort),
            CommandName::Query => {
                let superior = required(&mut words)?;
                Ok(Command::Query {
                    superior: id_of(alloc, superior)?,
                })
            }
            CommandName::Reconnect => {
                let subordinate = required(&mut words)?;
                Ok(Command::Reconnect {
                    subordinate: id_of(alloc, subordinate)?,
                })
            }
            CommandName::Multiplex => {
                let protocol = required(&mut words)?;
                Ok(Command::Multiplex {
                    protocol: word_of(alloc, protocol)?,
                })
            }
            CommandName::Tls => Ok(Command::Tls),
            CommandName::Error => Ok(Command::Error),
        }
    }

    /// IDENTIFY, from the words behind its name.
    #[tactic(auto, unfolding(crate::specs::Command::identify_from))]
    fn identify(alloc: Global, mut words: Words) -> Result<Command, ParseFault>
        ensures { Gives result (identify_from (words_of words.entry.rest.now)) }
    {
        let low = required(&mut words)?;
        let high = required(&mut words)?;
        let primary = required(&mut words)?;
        let secondary = required(&mut words)?;
        let low = version_of(low).ok_or(ParseFault::Number)?;
        let high = version_of(high).ok_or(ParseFault::Number)?;
        Ok(Command::Identify {
            low,
            high,
            primary: address_of(alloc, primary)?,
            secondary: word_of(alloc, secondary)?,
        })
    }

    /// The one spelling with single spaces, without an end of line.
    pub fn print(&self, alloc: Global) -> Result<String, AllocError>
        ensures { IfOk result (λ text. string_bytes text ≡ printed self.now) }
    {
        self.to_string(alloc)
    }

    /// An equal command, which shares the words and takes no memory.
    pub fn copy(&self) -> Result<Command, AllocError>
        ensures { IfOk result (λ command. command ≡ self.now) }
    {
        Ok(match self {
            Command::Identify {
                low,
                high,
                primary,
                secondary,
            } => Command::Identify {
                low: *low,
                high: *high,
                primary: copied(primary)?,
                secondary: secondary.copy()?,
            },
            Command::Begin => Command::Begin,
            Command::Push { superior } => Command::Push {
                superior: superior.copy()?,
            },
            Command::Pull {
                superior,
                subordinate,
            } => Command::Pull {
                superior: superior.copy()?,
                subordinate: subordinate.copy()?,
            },
            Command::Prepare => Command::Prepare,
            Command::Commit => Command::Commit,
            Command::Abort => Command::Abort,
            Command::Query { superior } => Command::Query {
                superior: superior.copy()?,
            },
            Command::Reconnect { subordinate } => Command::Reconnect {
                subordinate: subordinate.copy()?,
            },
            Command::Multiplex { protocol } => Command::Multiplex {
                protocol: protocol.copy()?,
            },
            Command::Tls => Command::Tls,
            Command::Error => Command::Error,
        })
    }
}

/// A copy of the address that there may be.
fn copied(address: &Option<Address>) -> Result<Option<Address>, AllocError>
    ensures { IfOk result (λ copy. copy ≡ address.now) }
{
    match address {
        Some(address) => Ok(Some(address.copy()?)),
        None => Ok(None),
    }
}

impl fmt::Display for Command {
    ghost use Rattle.std.specs.Prelude.{Some};
    ghost use Rattle.tip_line.specs.Command.{printed};

    ghost output = { λ c. Some (printed c) };

    fn fmt<W: fmt::Write>(&self, f: &mut fmt::Formatter<W>) -> fmt::Result {
        match self {
            Command::Identify {
                low,
                high,
                primary: Some(primary),
                secondary,
            } => write!(f, "IDENTIFY {low} {high} {primary} {secondary}"),
            Command::Identify {
                low,
                high,
                primary: None,
                secondary,
            } => write!(f, "IDENTIFY {low} {high} - {secondary}"),
            Command::Begin => write!(f, "BEGIN"),
            Command::Push { superior } => write!(f, "PUSH {superior}"),
            Command::Pull {
                superior,
                subordinate,
            } => write!(f, "PULL {superior} {subordinate}"),
            Command::Prepare => write!(f, "PREPARE"),
            Command::Commit => write!(f, "COMMIT"),
            Command::Abort => write!(f, "ABORT"),
            Command::Query { superior } => write!(f, "QUERY {superior}"),
            Command::Reconnect { subordinate } => write!(f, "RECONNECT {subordinate}"),
            Command::Multiplex { protocol } => write!(f, "MULTIPLEX {protocol}"),
            Command::Tls => write!(f, "TLS"),
            Command::Error => write!(f, "ERROR"),
        }
    }
}
