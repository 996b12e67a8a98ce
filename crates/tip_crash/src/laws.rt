//! Laws of a process that ends, each carried by a function that does nothing.
ghost use Rattle.std.specs.Prelude.{◌≡◌, ℕ, ◌+◌, ◌++◌, ◌∷◌, [], false, true, List};
ghost use Rattle.std.specs.Str.{bytes_eq};
ghost use Rattle.tip_rows.specs.Keys.{Key};
ghost use Rattle.tip_rows.specs.Logs.{IsPart, Log};
ghost use Rattle.tip_rows.specs.declared.row.Row.{Row};
ghost use Rattle.tip_host.specs.Hosts.{Host};
ghost use Rattle.tip_machine.specs.Heads.{starting};
ghost use Rattle.tip_machine.specs.Honest.{is_run};
ghost use Rattle.tip_machine.specs.Moves.{Move, World, led_to};
ghost use Rattle.tip_machine.specs.Starting.{IsStart, is_starting};
ghost use Rattle.tip_machine.specs.Steps.{wants};
ghost use Rattle.tip_machine.specs.Types.{Event};
ghost use Rattle.tip_machine.specs.declared.event.Outcome.{Outcome};
ghost use Rattle.tip_stored.specs.Keeping.{Keeps};
ghost use Rattle.tip_stored.specs.Loading.{spec_of, start_of};
ghost use Rattle.tip_stored.specs.declared.realm_spec.RealmSpec.{RealmSpec};
ghost use Rattle.tip_crash.specs.Crashes.{HasEnded, IsLeft, IsUnder, Under, move_of};
ghost use Rattle.tip_crash.specs.Followed.{BeginsBehind, BeginsOver, HasGoneOn, MayBegin};

use tip_rows::RowLog;

/// What `StoredCore::step` says of a store tells what a process leaves that ends at any time behind it, where before it nothing
/// else could be left: the rows of before or those with the event's change, and every other realm's rows.
pub fn a_step_leaves_the_rows_of_before_or_with_its_change<S: RowLog>()
    ensures own { (old new : S) (name : List ℕ) (world : World) (event : Event) (outcome : Outcome)
        (log left : Log) → Keeps S.keeping name
        (wants world.state event) outcome old new → S.keeping.is_true new →
        S.keeping.stands old log →
        ((other : Log) → S.keeping.may_leave old other → other ≡ log) →
        S.keeping.may_leave new left →
        IsPart log name world.state.head.epoch world.rows →
        (rows : List (Key × Row)) × IsPart left name world.state.head.epoch rows
        × IsLeft world event rows }
    ensures others { (old new : S) (name : List ℕ) (world : World) (event : Event)
        (outcome : Outcome) (log left : Log) →
        Keeps S.keeping name (wants world.state event) outcome old new → S.keeping.is_true new →
        S.keeping.stands old log →
        ((other : Log) → S.keeping.may_leave old other → other ≡ log) →
        S.keeping.may_leave new left →
        (other : List ℕ) (epoch : ℕ) (rows : List (Key × Row)) → bytes_eq name other ≡ false →
        IsPart log other epoch rows → IsPart left other epoch rows }
{}

/// CRASH CONSISTENCY: a process that ends while an event is under way has made an honest run, by which these rows are left; what
/// was told by then is told in it, and whatever follows, no transaction is half committed.
pub fn a_process_that_ends_has_made_a_run()
    ensures { (start : World) (moves : List Move) (under : Under) (event : Event)
        (rows : List (Key × Row)) → IsStart start → is_run start moves ≡ true →
        IsUnder (led_to start moves) under event → IsLeft (led_to start moves) event rows →
        HasEnded start moves under event rows }
{}

/// A host that begins over the rows that such a process has left begins over what that run has left.
pub fn a_host_follows_a_process_that_ended<S: RowLog>()
    ensures { (start : World) (moves : List Move) (under : Under) (event : Event)
        (rows : List (Key × Row)) (spec : RealmSpec) (new : Host S) (place : ℕ) →
        IsStart start → is_run start moves ≡ true → IsUnder (led_to start moves) under event →
        IsLeft (led_to start moves) event rows →
        BeginsOver S.keeping (led_to start moves).state.head.epoch rows spec new place →
        (ended : HasEnded start moves under event rows)
        × BeginsBehind S.keeping start (moves ++ move_of under ended.outcome ∷ []) spec new place }
{}

/// ACROSS RESTARTS OF THE PROCESS: a host that begins over what a run has left of a realm goes on with that run, where the realm is
/// declared as it was when the run began; declared otherwise, it has the realm where a run may begin, and is a process that may follow
/// (`tip_succession`). So what is stored is a premise of the very first process alone.
pub fn a_host_that_follows_goes_on_with_the_run<S: RowLog>()
    ensures same { (start : World) (moves : List Move) (new : Host S) (place : ℕ) →
        IsStart start → is_run start moves ≡ true →
        BeginsBehind S.keeping start moves (spec_of start.state.head) new place →
        HasGoneOn start moves new place }
    ensures anew { (start : World) (moves : List Move) (new : Host S) (place : ℕ)
        (spec : RealmSpec) → IsStart start → is_run start moves ≡ true →
        is_starting (starting (start_of spec ((led_to start moves).state.head.epoch + 1))) ≡ true →
        BeginsBehind S.keeping start moves spec new place →
        MayBegin S.keeping start moves spec new place }
{}
