//! A realm that is served, and the starts of it whose journals are kept.
use std::alloc::{AllocError, Global};
use std::sync::Arc;
use tip_branch::Plan;
use tip_duties::{ServeFault, plans_for};
use tip_honest::Entry;
use tip_journal::Pass;
use tip_notices::{Ask, Slots};
use tip_settings::RealmConfig;

/// How many connections a realm is taken to have at least, where those are counted that take some time to end.
const FEW_CONNECTIONS: usize = 64;

/// A realm that is served.
#[derive(Drop)]
pub struct Served<'a> {
    pub config: &'a RealmConfig,
    /// What the boxes of each connection promise.
    pub plans: Vec<Plan>,
    /// The top body's own pass in this start: of the connections that were opened, and of what was resumed.
    pub own: Pass<Entry>,
    /// The passes of the sessions that have ended, and the top body's of earlier starts, until their journals are let go.
    pub passes: Vec<Pass<Entry>>,
    /// The starts whose journals are kept, the oldest first; the last one is the present one.
    pub starts: Vec<Start>,
    /// The epoch of which the operator was told that its journal is full.
    pub frozen: Option<u32>,
    /// Who is connected to its control port.
    pub slots: Arc<Slots>,
    /// The places of the connections that are kept for its operator.
    pub kept: Vec<usize>,
}

/// A start of a realm.
#[derive(Drop)]
pub struct Start {
    pub epoch: u32,
    /// How many sessions of it have not ended.
    pub sessions: usize,
}

impl<'a> Served<'a> {
    /// A realm that starts in this epoch.
    pub fn new(
        alloc: Global,
        config: &'a RealmConfig,
        epoch: u32,
    ) -> Result<Served<'a>, ServeFault> {
        let mut starts = Vec::new(alloc);
        starts.push(Start { epoch, sessions: 0 })?;
        Ok(Served {
            config,
            plans: plans_for(alloc, &config.plans, config.limits.boxes)?,
            own: Pass::new(alloc),
            passes: Vec::new(alloc),
            starts,
            frozen: None,
            slots: Arc::new(alloc, Slots::new(alloc)?)?,
            kept: Vec::new(alloc),
        })
    }
}

impl Served<'_> {
    /// For how many transactions a connection has boxes that is opened for this.
    pub fn pulls_with(&self, ask: &Ask) -> usize {
        let boxes = ask.boxes().len();
        if boxes == 0 {
            return 0;
        }
        self.config.limits.boxes as usize / boxes
    }

    /// How many sessions have not ended, of all starts.
    fn sessions(&self) -> usize {
        let mut sessions = 0usize;
        for start in self.starts.iter() {
            sessions = sessions.saturating_add(start.sessions);
        }
        sessions
    }

    /// Whether twice as many sessions have not ended as there may be connections: those of many have, and their peers do not take what
    /// still goes out to them.
    pub fn is_crowded(&self) -> bool {
        let connections = self.config.limits.connections as usize;
        self.sessions() / 2 >= connections.max(FEW_CONNECTIONS)
    }

    /// Makes room for one start more, for one connection more that is kept, and for the passes of all sessions that have not ended and
    /// of one more, two of each, and of the top body.
    pub fn reserve(&mut self) -> Result<(), AllocError> {
        let sessions = self.sessions().saturating_add(1);
        self.starts.reserve(1)?;
        self.kept.reserve(1)?;
        self.passes
            .reserve(sessions.saturating_mul(2).saturating_add(1))
    }

    /// Its journal is full in its present epoch, which the operator is to be told; None where he was.
    pub fn freeze(&mut self) -> Option<u32> {
        let epoch = self.starts.last()?.epoch;
        if self.frozen == Some(epoch) {
            return None;
        }
        self.frozen = Some(epoch);
        Some(epoch)
    }

    /// A session of the start of an epoch begins.
    pub fn begin_session(&mut self, epoch: u32) {
        if let Some(start) = self.start_of(epoch) {
            start.sessions = start.sessions.saturating_add(1);
        }
    }

    /// A session that has begun has ended.
    pub fn end_session(&mut self, epoch: u32) {
        if let Some(start) = self.start_of(epoch) {
            start.sessions = start.sessions.saturating_sub(1);
        }
    }

    /// A connection begins at a place that is kept for the operator, for which there is room.
    pub fn keep(&mut self, place: usize) {
        let _kept = self.kept.push(place);
    }

    /// The connection at a place has ended, whether or not it was kept.
    pub fn unkeep(&mut self, place: usize) {
        self.kept.retain(|kept| *kept != place);
    }

    /// The realm has started again in this epoch, for which there is room.
    pub fn begin_start(&mut self, epoch: u32) {
        let _begun = self.starts.push(Start { epoch, sessions: 0 });
    }

    /// The start of an epoch, if its journal is kept.
    fn start_of(&mut self, epoch: u32) -> Option<&mut Start> {
        let place = self.starts.iter().position(|start| start.epoch == epoch)?;
        self.starts.get_mut(place)
    }

    /// The epoch of the oldest start, if it is over and none of its sessions goes on.
    pub fn over(&self) -> Option<u32> {
        if self.starts.len() < 2 {
            return None;
        }
        let oldest = self.starts.first()?;
        if oldest.sessions > 0 {
            return None;
        }
        Some(oldest.epoch)
    }

    /// The oldest start is forgotten, and the passes that have no entry any more.
    pub fn forget_oldest(&mut self) {
        if !self.starts.is_empty() {
            self.starts.remove(0);
        }
        self.passes.retain(|pass| !pass.noted().is_empty());
    }
}
