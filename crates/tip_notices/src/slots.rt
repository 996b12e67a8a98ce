//! Who is connected to the control port of a realm, and what each is answered.
use std::alloc::{AllocError, Global};
use std::net::{Shutdown, TcpStream};
use std::sync::{Arc, Condvar, Mutex, Wait};
use tip_control::{Answer, Request};
use tip_line::{Address, Refusal};

/// How many connections to one control port there may be.
pub const MOST_CONTROLS: usize = 8;

/// A connection to a control port, and what it was answered last, until it has taken that.
#[derive(Drop)]
struct Control {
    socket: Arc<TcpStream>,
    answer: Option<Answer>,
}

#[derive(Drop)]
struct Controls {
    places: Vec<Option<Control>>,
    is_closed: bool,
}

/// The connections to the control port of a realm. Each has a place, and what the top body or a session answers waits there.
#[derive(Drop)]
pub struct Slots {
    controls: Mutex<Controls>,
    answered: Condvar,
}

impl Slots {
    /// Nobody is connected yet. All memory is taken here.
    pub fn new(alloc: Global) -> Result<Slots, AllocError> {
        let mut places = Vec::with_capacity(alloc, MOST_CONTROLS)?;
        for _ in 0..MOST_CONTROLS {
            places.push(None)?;
        }
        Ok(Slots {
            controls: Mutex::new(Controls {
                places,
                is_closed: false,
            }),
            answered: Condvar::new(),
        })
    }

    /// A place for a connection; None where there is none, or no more are taken.
    pub fn enter<R: Wait>(&self, rt: &R, socket: Arc<TcpStream>) -> Option<usize> {
        let mut controls = self.controls.lock(rt);
        if controls.is_closed {
            return None;
        }
        let place = controls.places.iter().position(|place| place.is_none())?;
        let there = controls.places.get_mut(place)?;
        *there = Some(Control {
            socket,
            answer: None,
        });
        Some(place)
    }

    /// The connection at a place has ended.
    pub fn leave<R: Wait>(&self, rt: &R, place: usize) {
        if let Some(there) = self.controls.lock(rt).places.get_mut(place) {
            *there = None;
        }
    }

    /// Answers the connection at a place.
    fn put<R: Wait>(&self, rt: &R, place: usize, answer: Answer) {
        let mut controls = self.controls.lock(rt);
        if let Some(there) = controls.places.get_mut(place)
            && let Some(control) = there
        {
            control.answer = Some(answer);
        }
        drop(controls);
        self.answered.notify_all();
    }

    /// Waits for the answer to what the connection at a place has asked; None where the server ends.
    pub fn wait<R: Wait>(&self, rt: &R, place: usize) -> Option<Answer> {
        let mut controls = self
            .answered
            .wait_while(rt, self.controls.lock(rt), |controls| {
                !controls.is_closed && !controls.has_answer(place)
            });
        let there = controls.places.get_mut(place)?;
        match there {
            Some(control) => control.answer.take(),
            None => None,
        }
    }

    /// From now on nobody is taken or waits, and all connections end.
    pub fn close<R: Wait>(&self, rt: &R) {
        let mut controls = self.controls.lock(rt);
        controls.is_closed = true;
        for place in controls.places.iter() {
            if let Some(control) = place {
                let _shut = control.socket.shutdown(Shutdown::Both);
            }
        }
        drop(controls);
        self.answered.notify_all();
    }
}

impl Controls {
    fn has_answer(&self, place: usize) -> bool {
        match self.places.get(place) {
            Some(Some(control)) => control.answer.is_some(),
            _ => false,
        }
    }
}

/// Who waits for an answer: a connection to a control port. Each is answered once.
#[derive(Drop)]
pub struct Asker {
    pub slots: Arc<Slots>,
    pub place: usize,
}

impl Asker {
    /// Who waits at this place, for one of two that may answer.
    pub fn copy(&self) -> Result<Asker, AllocError> {
        Ok(Asker {
            slots: Arc::try_clone(&self.slots)?,
            place: self.place,
        })
    }

    pub fn answer<R: Wait>(self, rt: &R, answer: Answer) {
        self.slots.put(rt, self.place, answer);
    }
}

/// What a realm's operator asks of the top body.
#[derive(Drop)]
pub struct Ask {
    pub realm: usize,
    pub request: Request,
    pub asker: Asker,
}

impl Ask {
    /// It is not done, for this reason.
    pub fn turn_down<R: Wait>(self, rt: &R, why: Refusal) {
        let Ask { asker, .. } = self;
        asker.answer(rt, Answer::Refused(why));
    }

    /// Where the manager is that is asked, if one is.
    pub fn address(&self) -> Option<&Address> {
        match &self.request {
            Request::Push { address, .. } | Request::Pull { address, .. } => Some(address),
            _ => None,
        }
    }

    /// The letters of the boxes that come with each transaction of a connection that is opened for it: only a transaction that is
    /// pulled wants any.
    pub fn boxes(&self) -> &[u8] {
        match &self.request {
            Request::Pull { boxes, .. } => boxes.as_str().as_bytes(),
            _ => b"",
        }
    }
}
