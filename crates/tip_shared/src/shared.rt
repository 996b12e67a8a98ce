//! The host behind its lock.
ghost use Rattle.std.specs.Prelude.{◌≡◌, [], IfErr, IfOk, IfSome, None, Ok, OnErr, length};
ghost use Rattle.tip_branch.specs.Always.{Always};
ghost use Rattle.tip_core.specs.Hosted.{realm as realm_at, standing_in};
ghost use Rattle.tip_host.specs.Hosts.{waiting_at};
ghost use Rattle.tip_host.specs.Seats.{within};
ghost use Rattle.tip_host.specs.Served.{IsAnswered};
ghost use Rattle.tip_shared.specs.Waiting.{IsTakenInTurn, must_wait};

use crate::conditions::Conditions;
use std::alloc::{AllocError, Global};
use std::sync::{Mutex, MutexGuard, Wait};
use tip_core::Left;
use tip_honest::Entry;
use tip_host::{Host, HostEvent, HostFault, Returned, Seat, Standing, Stepped, Usage};
use tip_journal::Pass;
use tip_line::{Address, Id};
use tip_machine::Heard;
use tip_recovery::Recovery;
use tip_rows::{Key, RowLog};
use tip_session::{Outgoing, Ready};
use tip_stored::RenewFault;

/// How many lines and closings may wait to go out on a connection before no more of its lines are taken: a peer that does not
/// read is held by TCP, and not by our memory.
const MOST_WAITING: usize = 64;

/// A host that threads share, behind one lock. Each call holds the lock once. Nothing is dropped under it that calls a branch:
/// what an event hands back is the caller's to drop.
#[derive(Drop)]
pub struct Shared<S> {
    pub(crate) host: Mutex<Host<S>>,
    conditions: Conditions,
}

impl<S: RowLog + Drop> Shared<S> {
    /// The host is shared from now on. Without memory it comes back.
    pub fn new(alloc: Global, host: Host<S>) -> Result<Shared<S>, (AllocError, Host<S>)>
        requires { Always }
        ensures back { IfErr result (λ fault. fault.1 ≡ host) }
    {
        match Conditions::of(alloc, host.heads()) {
            Ok(conditions) => Ok(Shared {
                host: Mutex::new(host),
                conditions,
            }),
            Err(fault) => Err((fault, host)),
        }
    }

    /// A pass for whoever makes events here. It takes no memory, and does not lock.
    pub fn pass(&self, alloc: Global) -> Pass<Entry>
        requires { Always }
        ensures { result.noted ≡ [] }
    {
        Pass::new(alloc)
    }

    /// ONE EVENT OF A REALM, by a pass that is of this host, and the errand that comes of it, which is to be done where the lock is
    /// free. Whom it speaks to is woken. A fault hands the event back: the host is stopped, the pass is not its own, or memory is
    /// wanting; and nothing has happened.
    pub fn step<R: Wait>(
        &self,
        rt: &R,
        alloc: Global,
        pass: &mut Pass<Entry>,
        event: HostEvent,
    ) -> Result<Stepped, (HostFault, HostEvent)>
        requires { Always }
        ensures answered { IfOk result (λ stepped. IsAnswered pass.old.noted pass.new.noted
            event.realm event.event stepped.reply) }
        ensures pass { OnErr result (pass.new.noted ≡ pass.old.noted) }
        ensures realm { IfErr result (λ fault. fault.1.realm ≡ event.realm) }
        ensures back { IfErr result (λ fault. fault.1.event ≡ event.event) }
    {
        let own = event.seat();
        let realm = event.realm();
        let mut host = self.host.lock(rt);
        let stepped = host.step_fitting(alloc, pass, event)?;
        self.let_go(host, realm, own, &stepped);
        Ok(stepped)
    }

    /// A LINE OF A CONNECTION, by a pass that is of this host, and the errand that comes of it. It waits until the line may be taken,
    /// and no more than so many wait to go out there; then it is an event as any other, in the same hold. None where the connection
    /// is gone. Nothing has happened then, and at a fault: the host is stopped, the pass is not its own, or memory is wanting.
    pub fn take_line<R: Wait>(
        &self,
        rt: &R,
        alloc: Global,
        pass: &mut Pass<Entry>,
        seat: Seat,
        heard: Heard,
    ) -> Result<Option<Stepped>, HostFault>
        requires { Always }
        ensures taken { IfOk result (λ taken. IfSome taken (λ stepped. IsTakenInTurn seat
            pass.old.noted pass.new.noted heard stepped.reply)) }
        ensures gone { result ≡ Ok None → pass.new.noted ≡ pass.old.noted }
        ensures pass { OnErr result (pass.new.noted ≡ pass.old.noted) }
    {
        let Some(condition) = self.conditions.at(seat) else {
            return Ok(None);
        };
        let mut host = condition.wait_while(rt, self.host.lock(rt), |host| {
            !host.is_stopped() && must_wait(host, seat)
        });
        if !host.is_stopped() && !host.may_take(seat) {
            return Ok(None);
        }
        match host.step_fitting(alloc, pass, HostEvent::line(seat, heard)) {
            Ok(stepped) => {
                self.let_go(host, seat.realm, Some(seat), &stepped);
                Ok(Some(stepped))
            }
            Err((fault, _)) => Err(fault),
        }
    }

    /// A party comes back, by a pass that is of this host, and the errand that comes of that. A fault hands it back, and nothing has
    /// happened.
    pub fn come_back<R: Wait>(
        &self,
        rt: &R,
        alloc: Global,
        pass: &mut Pass<Entry>,
        returned: Returned,
    ) -> Result<Stepped, (HostFault, Returned)>
        requires { Always }
        ensures answered { IfOk result (λ stepped. IsAnswered pass.old.noted pass.new.noted
            returned.realm returned.event stepped.reply) }
        ensures pass { OnErr result (pass.new.noted ≡ pass.old.noted) }
        ensures back { IfErr result (λ fault. fault.1 ≡ returned) }
    {
        let realm = returned.realm();
        let mut host = self.host.lock(rt);
        let stepped = host.come_back_fitting(alloc, pass, returned)?;
        self.let_go(host, realm, None, &stepped);
        Ok(stepped)
    }

    /// Waits for what goes out next on a connection: a line, or a closing; or that it is gone and nothing waits for it; or that the
    /// host is stopped, and nothing waits for it.
    pub fn next_out<R: Wait>(&self, rt: &R, seat: Seat) -> Outgoing
        requires { Always }
    {
        let Some(condition) = self.conditions.at(seat) else {
            return Outgoing::Gone;
        };
        let mut host = condition.wait_while(rt, self.host.lock(rt), |host| {
            !host.is_stopped() && host.waiting(seat) == 0 && !is_gone(host.standing(seat))
        });
        let was_full = host.waiting(seat) >= MOST_WAITING;
        let next = match host.take_out(seat) {
            Some(item) => Outgoing::Next(item),
            None if host.is_stopped() => Outgoing::Stopped,
            None => Outgoing::Gone,
        };
        drop(host);
        if was_full {
            condition.notify_all();
        }
        next
    }

    /// Waits until a line of a connection may be taken, and no more than so many wait to go out on it; or it is gone, or the host
    /// is stopped.
    pub fn wait_ready<R: Wait>(&self, rt: &R, seat: Seat) -> Ready
        requires { Always }
    {
        let Some(condition) = self.conditions.at(seat) else {
            return Ready::Gone;
        };
        let host = condition.wait_while(rt, self.host.lock(rt), |host| {
            !host.is_stopped() && must_wait(host, seat)
        });
        if host.is_stopped() {
            return Ready::Stopped;
        }
        match host.standing(seat) {
            Standing::Gone => Ready::Gone,
            _ => Ready::Ready,
        }
    }

    /// Waits until nothing is under way on a connection that we opened, so that something may be asked on it; false where it is
    /// gone, or the host is stopped.
    pub fn wait_free<R: Wait>(&self, rt: &R, seat: Seat) -> bool
        requires { Always }
    {
        let Some(condition) = self.conditions.at(seat) else {
            return false;
        };
        let host = condition.wait_while(rt, self.host.lock(rt), |host| {
            !host.is_stopped() && matches!(host.standing(seat), Standing::Takes | Standing::Waits)
        });
        !host.is_stopped() && matches!(host.standing(seat), Standing::Free)
    }

    /// Whether a realm takes no entry more in this epoch.
    pub fn is_frozen<R: Wait>(&self, rt: &R, realm: usize, epoch: u32) -> bool
        requires { Always }
    {
        let host = self.host.lock(rt);
        host.epoch(realm) == Some(epoch) && host.is_frozen(realm)
    }

    /// How much of its limits a realm takes up, and how far its transactions have come; None where it is not hosted.
    pub fn usage<R: Wait>(&self, rt: &R, realm: usize) -> Option<Usage>
        requires { Always }
    {
        self.host.lock(rt).usage(realm)
    }

    /// Whether the superior of a realm's transaction is on a connection.
    pub fn is_with_superior<R: Wait>(&self, rt: &R, realm: usize, key: Key) -> bool
        requires { Always }
    {
        self.host.lock(rt).is_with_superior(realm, key)
    }

    /// Whether a realm's transaction still owes the commit to the subordinate of an address and identifier.
    pub fn is_owed<R: Wait>(
        &self,
        rt: &R,
        realm: usize,
        key: Key,
        address: &Address,
        id: &Id,
    ) -> bool
        requires { Always }
    {
        self.host.lock(rt).is_owed(realm, key, address, id)
    }

    /// From now on each event is refused. All that wait are woken.
    pub fn stop<R: Wait>(&self, rt: &R)
        requires { Always }
    {
        self.host.lock(rt).stop();
        self.conditions.wake_all();
    }

    /// What is stored of a realm: boxes are adopted for its rows, and it is renewed by it.
    pub fn doubts<R: Wait>(
        &self,
        rt: &R,
        alloc: Global,
        realm: usize,
    ) -> Result<Recovery, RenewFault>
        requires { Always }
    {
        self.host.lock(rt).doubts(alloc, realm)
    }

    /// A realm starts again by what `doubts` has said of it, with boxes for its rows, while the others run. What it had is handed
    /// out to be dropped. All of its connections are gone, and woken.
    pub fn renew<R: Wait>(
        &self,
        rt: &R,
        alloc: Global,
        realm: usize,
        recovery: Recovery,
    ) -> Result<Left, (RenewFault, Recovery)>
        requires { Always }
        ensures back { IfErr result (λ fault. fault.1 ≡ recovery) }
    {
        let left = self.host.lock(rt).renew(alloc, realm, recovery)?;
        self.conditions.wake_realm(realm);
        Ok(left)
    }

    /// The hold of an event ends. Whom it speaks to is woken, and the connection that it was one of, where that rests now.
    fn let_go(
        &self,
        host: MutexGuard<'_, Host<S>>,
        realm: usize,
        own: Option<Seat>,
        stepped: &Stepped,
    )
        requires { Always }
    {
        let resting = resting(&host, own);
        drop(host);
        if let Some(seat) = resting {
            self.conditions.wake(seat);
        }
        self.conditions.wake_spoken(realm, &stepped.reply.spoken);
    }
}

fn is_gone(standing: Standing) -> bool {
    matches!(standing, Standing::Gone)
}

/// A connection on which nothing is under way any more: its writer waits for it to be gone, and who hangs up for it to be free.
/// For any other a writer would be woken in vain, and take the lock from those that have something to do.
fn resting<S: RowLog + Drop>(host: &Host<S>, own: Option<Seat>) -> Option<Seat>
    requires { Always }
{
    let seat = own?;
    match host.standing(seat) {
        Standing::Gone | Standing::Free => Some(seat),
        Standing::Takes | Standing::Waits => None,
    }
}

/// Whether a line of a connection that is there must wait: its turn is to come, or too much waits to go out.
fn must_wait<S: RowLog + Drop>(host: &Host<S>, seat: Seat) -> bool
    requires { Always }
    ensures { result
        ≡ must_wait (standing_in (within seat) (realm_at host.now.stored.core seat.realm))
        (length (waiting_at seat host.now)) }
{
    match host.standing(seat) {
        Standing::Gone => false,
        Standing::Takes => host.waiting(seat) >= MOST_WAITING,
        Standing::Free | Standing::Waits => true,
    }
}
