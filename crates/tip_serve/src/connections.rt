//! The connections of the server.
ghost use Rattle.tip_branch.specs.Always.{Always};

use std::alloc::{AllocError, Global};
use std::sync::{Arc, Wait};
use std::thread::JoinHandle;
use tip_notices::Ask;
use tip_threads::{Link, LinkEnd};

/// A connection whose threads run.
#[derive(Drop)]
pub struct Live<S> {
    pub link: Arc<Link<S>>,
    pub thread: JoinHandle<LinkEnd>,
}

/// The connections whose threads run, each at a place that its threads know.
#[derive(Drop)]
pub struct Connections<S> {
    live: Vec<Option<Live<S>>>,
    /// The places at which nobody is.
    free: Vec<usize>,
}

impl<S: Drop> Connections<S> {
    /// There is none yet.
    pub fn new(alloc: Global) -> Connections<S> {
        Connections {
            live: Vec::new(alloc),
            free: Vec::new(alloc),
        }
    }

    /// How many places there are.
    pub fn len(&self) -> usize {
        self.live.len()
    }

    /// Makes room for one more.
    pub fn reserve(&mut self) -> Result<(), AllocError> {
        if self.free.is_empty() {
            let place = self.live.len();
            self.free.reserve(place.saturating_add(1))?;
            self.live.push(None)?;
            self.free.push(place)?;
        }
        Ok(())
    }

    /// A place for one, if there is room.
    pub fn take_place(&mut self) -> Option<usize> {
        self.free.pop()
    }

    /// Nobody is at a place.
    pub fn give_back(&mut self, place: usize) {
        let _freed = self.free.push(place);
    }

    /// A connection is at a place that was taken.
    pub fn put(&mut self, place: usize, live: Live<S>) {
        if let Some(there) = self.live.get_mut(place) {
            *there = Some(live);
        }
    }

    /// Takes the connection at a place, which somebody else may have then.
    pub fn take(&mut self, place: usize) -> Option<Live<S>> {
        let there = self.live.get_mut(place)?;
        let live = there.take()?;
        self.give_back(place);
        Some(live)
    }

    /// What the threads of the connection at a place share.
    pub fn link_at(&self, place: usize) -> Option<Arc<Link<S>>>
        requires { Always }
    {
        match self.live.get(place)? {
            Some(live) => Arc::try_clone(&live.link).ok(),
            None => None,
        }
    }

    /// A connection at one of these places that is idle, and fit for this: it is taken.
    pub fn idle_for<R: Wait>(&self, rt: &R, places: &[usize], ask: &Ask) -> Option<Arc<Link<S>>>
        requires { Always }
    {
        let address = ask.address()?;
        for place in places {
            if let Some(Some(live)) = self.live.get(*place)
                && let Some(kept) = &live.link.kept
                && live.link.is_to(address)
                && let Ok(link) = Arc::try_clone(&live.link)
                && kept.take_for(rt, &ask.request)
            {
                return Some(link);
            }
        }
        None
    }

    /// Those at these places end that are kept and idle.
    pub fn shut_idle<R: Wait>(&self, rt: &R, places: &[usize])
        requires { Always }
    {
        for place in places {
            if let Some(Some(live)) = self.live.get(*place)
                && let Some(kept) = &live.link.kept
                && kept.take(rt)
            {
                kept.end(rt);
                live.link.shut();
            }
        }
    }

    /// Those of a realm end.
    pub fn shut_of(&self, realm: usize)
        requires { Always }
    {
        for live in self.live.iter() {
            if let Some(live) = live
                && live.link.seat.realm == realm
            {
                live.link.shut();
            }
        }
    }

    /// All end.
    pub fn shut_all(&self)
        requires { Always }
    {
        for live in self.live.iter() {
            if let Some(live) = live {
                live.link.shut();
            }
        }
    }
}
