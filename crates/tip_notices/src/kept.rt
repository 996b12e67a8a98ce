//! Connections that we opened at an operator's word, and keep for the next one.
use crate::slots::{Ask, Asker};
use std::sync::{Condvar, Mutex, Wait};
use std::time::{Clock, Duration};
use tip_control::{Answer, Request};
use tip_line::{Refusal, Response, Word};

/// How long one is kept on which nothing is asked.
const IDLE_SECONDS: u64 = 60;

/// How long a read waits before it is looked whether somebody waits, and how often that is so before the other manager is given up.
pub const LOOK_SECONDS: u64 = 5;

const MOST_LOOKS: u32 = 6;

/// Who waits for the other manager's word, and to what.
#[derive(Drop)]
struct Awaiting {
    asker: Asker,
    is_push: bool,
}

impl Awaiting {
    fn answer<R: Wait>(self, rt: &R, answer: Answer) {
        let Awaiting { asker, .. } = self;
        asker.answer(rt, answer);
    }
}

/// How a connection that is kept stands.
#[derive(Clone, Copy, PartialEq, Eq)]
enum Stage {
    /// It is not identified, or something is under way on it.
    Busy,
    /// It may be asked on.
    Idle,
    /// The top body is about to ask on it.
    Taken,
    Over,
}

#[derive(Drop)]
struct Turn {
    stage: Stage,
    /// What it was opened for, until that is asked on it.
    first: Option<Ask>,
    awaiting: Option<Awaiting>,
    /// How often nothing was read since somebody waits.
    looks: u32,
    /// For how many transactions more it has boxes.
    pulls: usize,
}

/// A connection that we opened at an operator's word: what is asked on it, and who waits for the response.
#[derive(Drop)]
pub struct Kept {
    turn: Mutex<Turn>,
    changed: Condvar,
    /// The letters of the boxes that came with it, if it was opened for a pull.
    boxes: Option<Word>,
}

impl Kept {
    /// One that is opened for this, with boxes for so many transactions.
    pub fn new(first: Ask, boxes: Option<Word>, pulls: usize) -> Kept {
        Kept {
            turn: Mutex::new(Turn {
                stage: Stage::Busy,
                first: Some(first),
                awaiting: None,
                looks: 0,
                pulls,
            }),
            changed: Condvar::new(),
            boxes,
        }
    }

    /// Nothing is under way on it any more.
    pub fn free<R: Wait>(&self, rt: &R) {
        let mut turn = self.turn.lock(rt);
        if turn.stage == Stage::Busy {
            turn.stage = Stage::Idle;
        }
    }

    /// Takes it to ask what it was opened for, if that was not asked yet and nothing is under way.
    pub fn take_first<R: Wait>(&self, rt: &R) -> Option<Ask> {
        let mut turn = self.turn.lock(rt);
        if turn.stage != Stage::Idle {
            return None;
        }
        let ask = turn.first.take()?;
        turn.stage = Stage::Taken;
        Some(ask)
    }

    /// Takes it, if it is idle; whether it was.
    pub fn take<R: Wait>(&self, rt: &R) -> bool {
        let mut turn = self.turn.lock(rt);
        let is_idle = turn.is_idle();
        if is_idle {
            turn.stage = Stage::Taken;
        }
        is_idle
    }

    /// Takes it to ask this, if it is idle and has the boxes for it; whether it was taken.
    pub fn take_for<R: Wait>(&self, rt: &R, request: &Request) -> bool {
        let mut turn = self.turn.lock(rt);
        let is_fit = match request {
            Request::Pull { boxes, .. } => turn.pulls > 0 && self.boxes.as_ref() == Some(boxes),
            _ => true,
        };
        let is_taken = is_fit && turn.is_idle();
        if is_taken {
            turn.stage = Stage::Taken;
        }
        is_taken
    }

    /// Who waits for the response to what is now asked.
    pub fn await_response<R: Wait>(&self, rt: &R, asker: Asker, request: &Request) {
        let mut turn = self.turn.lock(rt);
        let is_push = matches!(request, Request::Push { .. });
        if !is_push {
            turn.pulls = turn.pulls.saturating_sub(1);
        }
        turn.awaiting = Some(Awaiting { asker, is_push });
        turn.looks = 0;
    }

    /// What it was taken for was asked.
    pub fn begin<R: Wait>(&self, rt: &R) {
        self.turn_to(rt, Stage::Busy);
    }

    /// What it was taken for was not asked, for this reason: it may be asked on again.
    pub fn turn_down<R: Wait>(&self, rt: &R, why: Refusal) {
        let awaiting = self.turn.lock(rt).awaiting.take();
        self.turn_to(rt, Stage::Idle);
        if let Some(awaiting) = awaiting {
            awaiting.answer(rt, Answer::Refused(why));
        }
    }

    fn turn_to<R: Wait>(&self, rt: &R, stage: Stage) {
        let mut turn = self.turn.lock(rt);
        if turn.stage == Stage::Taken {
            turn.stage = stage;
        }
        drop(turn);
        self.changed.notify_all();
    }

    /// Waits until something was asked on it; false where it is over, or was idle for too long and is over now.
    pub fn wait_use<R: Wait + Clock>(&self, rt: &R) -> bool {
        let patience = Duration::from_secs(IDLE_SECONDS);
        for _ in rt.forever() {
            let turn = self.turn.lock(rt);
            let (mut turn, _) = self
                .changed
                .wait_timeout_while(rt, turn, patience, |turn| turn.stage == Stage::Idle);
            match turn.stage {
                Stage::Busy => return true,
                Stage::Over => return false,
                Stage::Idle => {
                    turn.stage = Stage::Over;
                    return false;
                }
                Stage::Taken => {
                    let settled = self
                        .changed
                        .wait_while(rt, turn, |turn| turn.stage == Stage::Taken);
                    drop(settled);
                }
            }
        }
        unreachable!()
    }

    /// The other manager has said this, and its line has had its effect: whoever waits for it is answered.
    pub fn hear<R: Wait>(&self, rt: &R, response: Response) {
        let awaiting = self.turn.lock(rt).take_awaiting(&response);
        if let Some(awaiting) = awaiting {
            awaiting.answer(rt, Answer::Said(response));
        }
    }

    /// Nothing was read for a while; whether somebody has waited for so long that the other manager is given up.
    pub fn is_overdue<R: Wait>(&self, rt: &R) -> bool {
        let mut turn = self.turn.lock(rt);
        if turn.first.is_none() && turn.awaiting.is_none() {
            turn.looks = 0;
            return false;
        }
        turn.looks = turn.looks.saturating_add(1);
        turn.looks > MOST_LOOKS
    }

    /// The connection has ended: whoever waits is answered so.
    pub fn end<R: Wait>(&self, rt: &R) {
        let mut turn = self.turn.lock(rt);
        turn.stage = Stage::Over;
        let first = turn.first.take();
        let awaiting = turn.awaiting.take();
        drop(turn);
        self.changed.notify_all();
        if let Some(first) = first {
            first.turn_down(rt, Refusal::Closed);
        }
        if let Some(awaiting) = awaiting {
            awaiting.answer(rt, Answer::Refused(Refusal::Closed));
        }
    }
}

impl Turn {
    /// Whether nothing is under way on it, and nobody waits for what was.
    fn is_idle(&self) -> bool {
        self.stage == Stage::Idle && self.first.is_none() && self.awaiting.is_none()
    }

    /// Who waits for a response, if it is one to what was asked.
    fn take_awaiting(&mut self, response: &Response) -> Option<Awaiting> {
        let awaiting = self.awaiting.take()?;
        if is_response_to(awaiting.is_push, response) {
            return Some(awaiting);
        }
        self.awaiting = Some(awaiting);
        None
    }
}

/// Whether a response is one to PUSH or to PULL.
pub fn is_response(response: &Response) -> bool {
    is_response_to(true, response) || is_response_to(false, response)
}

/// Whether a response is one to PUSH, else to PULL.
fn is_response_to(is_push: bool, response: &Response) -> bool {
    match response {
        Response::Pushed { .. } | Response::AlreadyPushed { .. } | Response::NotPushed => is_push,
        Response::Pulled | Response::NotPulled => !is_push,
        _ => false,
    }
}
