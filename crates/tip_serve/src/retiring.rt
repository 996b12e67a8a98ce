//! Starts that are over: the journal of each is let go once its sessions have ended, so that a server without end does not grow.
use crate::server::Server;
use std::mem;
use std::sync::Wait;
use tip_host::Seat;
use tip_rows::RowLog;

impl<'a, S: RowLog + Drop + Send + 'static> Server<'a, S>
where
    S::Medium: Send,
{
    /// A session that has begun has ended.
    pub fn end_session<R: Wait>(&mut self, rt: &R, seat: Seat) {
        if let Some(served) = self.realms.get_mut(seat.realm) {
            served.end_session(seat.epoch);
        }
        self.retire(rt, seat.realm);
    }

    /// A realm has started again in this epoch, for which there is room. The top body goes on with another pass.
    pub fn turn_over<R: Wait>(&mut self, rt: &R, realm: usize, epoch: u32) {
        if let Some(served) = self.realms.get_mut(realm) {
            let own = mem::replace(&mut served.own, self.shared.pass(self.alloc));
            let _kept = served.passes.push(own);
            served.begin_start(epoch);
        }
        self.retire(rt, realm);
    }

    /// Lets go of the journals of a realm's starts that are over, the oldest first, and of what the passes have of them. One for
    /// which memory is wanting is let go another time.
    fn retire<R: Wait>(&mut self, rt: &R, realm: usize) {
        let Some(served) = self.realms.get_mut(realm) else {
            return;
        };
        for _ in 0..served.starts.len() {
            let Some(epoch) = served.over() else {
                return;
            };
            let passes = &mut served.passes;
            if self
                .shared
                .retire(rt, self.alloc, realm, epoch, passes)
                .is_err()
            {
                return;
            }
            served.forget_oldest();
        }
    }
}
