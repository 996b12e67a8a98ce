//! The law of processes that follow one another, carried by a function that does nothing.
ghost use Rattle.std.specs.Prelude.{◌≡◌, ℕ, List, true};
ghost use Rattle.tip_machine.specs.Honest.{is_run};
ghost use Rattle.tip_machine.specs.Moves.{Move, World, led_to};
ghost use Rattle.tip_machine.specs.Starting.{IsStart};
ghost use Rattle.tip_succession.specs.Agreement.{IsAgreedByAll};
ghost use Rattle.tip_succession.specs.Processes.{Follow, Process};

/// AGREEMENT ACROSS PROCESSES, all four of its sentences: however many follow one another, each declaring the realm under its name in
/// its own way, and whether they end in peace or are killed: in all that they tell, taken together, no transaction is half committed.
pub fn no_transaction_is_half_committed_however_the_realm_is_declared()
    ensures { (start : World) (moves : List Move) (processes : List Process) (id : List ℕ) →
        IsStart start → is_run start moves ≡ true → Follow (led_to start moves) processes →
        IsAgreedByAll start moves processes id }
{}
