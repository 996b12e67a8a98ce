//! What a realm's control port answers.
use crate::pacing::Pace;
use std::alloc::{AllocError, Global};
use std::io::{BufReader, Write};
use std::net::TcpStream;
use std::sync::{Arc, Wait};
use std::time::Clock;
use tip_control::{Answer, Coming, InDoubt, Owed, Part, Request, Status, line_in, take_line};
use tip_line::Refusal;
use tip_machine::Limits;
use tip_notices::{Ask, Asker, Inbox, Slots};
use tip_recovery::Unfinished;
use tip_rows::{Row, RowLog};
use tip_shared::Shared;

/// How many octets are read at once.
const PIECE_LEN: usize = 1_024;

/// What the threads of a realm's control port share. Nothing of another realm is told here, or done.
#[derive(Drop)]
pub struct ControlPort<S> {
    shared: Arc<Shared<S>>,
    inbox: Arc<Inbox>,
    slots: Arc<Slots>,
    pace: Pace,
    realm: usize,
    limits: Limits,
}

impl<S: RowLog + Drop> ControlPort<S> {
    /// The control port of a realm with these limits.
    pub fn new(
        shared: Arc<Shared<S>>,
        inbox: Arc<Inbox>,
        slots: Arc<Slots>,
        realm: usize,
        limits: Limits,
    ) -> ControlPort<S> {
        ControlPort {
            shared,
            inbox,
            slots,
            pace: Pace::new(),
            realm,
            limits,
        }
    }

    /// Whether no connection is taken any more.
    pub fn is_closed<R: Wait>(&self, rt: &R) -> bool {
        self.inbox.is_closed(rt)
    }

    /// A place for a connection; None where there is none, or no more are taken.
    pub fn enter<R: Wait>(&self, rt: &R, socket: Arc<TcpStream>) -> Option<usize> {
        self.slots.enter(rt, socket)
    }

    /// The connection at a place has ended.
    pub fn leave<R: Wait>(&self, rt: &R, place: usize) {
        self.slots.leave(rt, place);
    }

    /// Answers each line of a connection, until it ends or memory is wanting.
    pub fn answer_all<R: Wait + Clock>(
        &self,
        rt: &R,
        alloc: Global,
        socket: &TcpStream,
        place: usize,
    ) -> Result<(), AllocError> {
        let mut writer = socket;
        let Ok(mut reader) = BufReader::with_capacity(alloc, PIECE_LEN, socket) else {
            return Err(AllocError);
        };
        let mut octets = Vec::new(alloc);
        for _ in rt.forever() {
            let mut told = String::new(alloc);
            take_line(&mut reader, &mut octets);
            let is_last = match line_in(&octets) {
                Coming::End => return Ok(()),
                Coming::Line(line) => !self.tell_answer(rt, alloc, line, place, &mut told)?,
                Coming::TooLong => {
                    tell(&mut told, &Answer::Refused(Refusal::TooLong))?;
                    true
                }
            };
            told.push_str("\n")?;
            if writer.write_all(told.as_bytes()).is_err() || is_last {
                return Ok(());
            }
        }
        unreachable!()
    }

    /// Tells the answer to a line; whether there is one, as the server does not end.
    fn tell_answer<R: Wait + Clock>(
        &self,
        rt: &R,
        alloc: Global,
        line: &[u8],
        place: usize,
        told: &mut String,
    ) -> Result<bool, AllocError> {
        match Request::parse(alloc, line) {
            Ok(Request::Status) => self.tell_status(rt, told)?,
            Ok(Request::Doubts) => self.tell_doubts(rt, alloc, told)?,
            Ok(request) => match self.asked(rt, request, place)? {
                Some(answer) => tell(told, &answer)?,
                None => return Ok(false),
            },
            Err(fault) => tell(told, &Answer::Refused(Refusal::from(fault)))?,
        }
        Ok(true)
    }

    /// What the top body, or another manager, answers to this; None where the server ends.
    fn asked<R: Wait + Clock>(
        &self,
        rt: &R,
        request: Request,
        place: usize,
    ) -> Result<Option<Answer>, AllocError> {
        if matches!(request, Request::Retry | Request::Renew) {
            self.pace.wait(rt);
        }
        let asker = Asker {
            slots: Arc::try_clone(&self.slots)?,
            place,
        };
        let ask = Ask {
            realm: self.realm,
            request,
            asker,
        };
        if self.inbox.ask(rt, ask) {
            Ok(self.slots.wait(rt, place))
        } else {
            Ok(None)
        }
    }

    /// Tells how the realm stands.
    fn tell_status<R: Wait>(&self, rt: &R, told: &mut String) -> Result<(), AllocError> {
        let Some(usage) = self.shared.usage(rt, self.realm) else {
            return tell(told, &Answer::Refused(Refusal::NoRealm));
        };
        let status = Status {
            epoch: usage.epoch,
            connections: Part {
                taken: usage.connections,
                limit: self.limits.connections,
            },
            transactions: Part {
                taken: usage.transactions,
                limit: self.limits.transactions,
            },
            in_doubt: usage.in_doubt,
            committed: usage.committed,
            entries: Part {
                taken: usage.entries as usize,
                limit: self.limits.entries,
            },
        };
        writeln!(told, "{status}")
    }

    /// Tells what waits for an outcome.
    fn tell_doubts<R: Wait + Clock>(
        &self,
        rt: &R,
        alloc: Global,
        told: &mut String,
    ) -> Result<(), AllocError> {
        self.pace.wait(rt);
        match self.shared.doubts(rt, alloc, self.realm) {
            Ok(stored) => {
                for row in stored.rows() {
                    self.tell_row(rt, row, told)?;
                }
                Ok(())
            }
            Err(fault) => tell(told, &Answer::Refused(Refusal::from(fault))),
        }
    }

    /// Tells which outcome a row waits for, or whom it still owes one.
    fn tell_row<R: Wait>(
        &self,
        rt: &R,
        row: &Unfinished,
        told: &mut String,
    ) -> Result<(), AllocError> {
        let id = row.id();
        match row.row() {
            Row::Prepared {
                address,
                superior,
                branches,
                ..
            } => {
                let doubt = InDoubt {
                    id,
                    address,
                    superior,
                    branches,
                    is_connected: self.shared.is_with_superior(rt, self.realm, row.key()),
                };
                writeln!(told, "{doubt}")
            }
            Row::Committed { subordinates, .. } => {
                for (address, subordinate) in subordinates.as_slice() {
                    if self
                        .shared
                        .is_owed(rt, self.realm, row.key(), address, subordinate)
                    {
                        let owed = Owed {
                            id,
                            address,
                            subordinate,
                        };
                        writeln!(told, "{owed}")?;
                    }
                }
                Ok(())
            }
        }
    }
}

/// Tells an answer of one line.
fn tell(told: &mut String, answer: &Answer) -> Result<(), AllocError> {
    writeln!(told, "{answer}")
}
