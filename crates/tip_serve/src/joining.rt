//! Threads that have ended.
use crate::connections::Live;
use crate::server::Server;
use std::sync::Wait;
use std::thread::Threads;
use tip_host::Seat;
use tip_notices::Maker;
use tip_rows::RowLog;
use tip_session::SessionEnd;
use tip_shared::Session;
use tip_threads::LinkEnd;

impl<'a, S: RowLog + Drop + Send + 'static> Server<'a, S>
where
    S::Medium: Send,
{
    /// A session has ended: its thread is joined, and its pass kept, for which there is room. The operator is told of what it left
    /// in doubt.
    pub fn join<R: Threads + Wait + Eprint>(&mut self, rt: &R, place: usize) {
        let Some(Live { link, thread }) = self.connections.take(place) else {
            return;
        };
        let LinkEnd { session, hung_up } = thread.join(rt);
        self.keep_pass(link.seat.realm, session);
        if let Some(session) = hung_up {
            self.keep_pass(link.seat.realm, session);
        }
        if let Some(served) = self.realms.get_mut(link.seat.realm) {
            served.unkeep(place);
        }
        if link.dial.is_none() {
            self.ended = self.ended.saturating_add(1);
        }
        let Seat {
            realm,
            epoch,
            number,
        } = link.seat;
        let maker = Maker {
            epoch,
            connection: number,
        };
        self.say_doubts(rt, realm, Some(maker));
        self.end_session(rt, link.seat);
    }

    /// What a session of a realm has left: its pass is kept, for which there is room. Where memory was wanting the server is to end.
    fn keep_pass(&mut self, realm: usize, session: Session) {
        let Session {
            end,
            is_short,
            pass,
            ..
        } = session;
        if let Some(served) = self.realms.get_mut(realm) {
            let _kept = served.passes.push(pass);
        }
        if is_short || end == SessionEnd::Memory {
            self.is_short = true;
        }
    }
}
