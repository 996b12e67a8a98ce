//! Laws of what a table keeps, each carried by a function that does nothing.
//!
//! They tell what stands at a place by the test that it is the first of its realm to pass.
ghost use Rattle.std.specs.Prelude.{◌≡◌, ◌≢◌, ◌++◌, ℕ, Bool, true, List, Some, None, IsSome};
ghost use Rattle.std.specs.List.{find};
ghost use Rattle.tip_table.specs.Lists.{changed, without};
ghost use Rattle.tip_table.specs.Entries.{Item};
ghost use Rattle.tip_table.specs.Kept.{Kept, StandsAt, of, places, item_at, with_item_at, written, taken_out};

/// It is there, and it is the first.
#[tactic(auto, using(crate::proofs::Standing::standing))]
pub fn what_stands_is_found<T>()
    ensures stands { (kept : Kept T) (realm : ℕ) (test : T → Bool) (place : ℕ) →
        StandsAt kept realm test place → IsSome (places kept place) }
    ensures found { (kept : Kept T) (realm : ℕ) (test : T → Bool) (place : ℕ) →
        StandsAt kept realm test place → find test (of kept realm) ≡ item_at kept place }
{}

/// A write through its place changes it in its realm's items, and nothing else.
#[tactic(auto, using(crate::proofs::Standing::standing))]
pub fn what_stands_is_changed<T>()
    ensures written { (kept : Kept T) (place : ℕ) (value : T) (realm : ℕ) →
        of (with_item_at kept place value) realm
        ≡ written (places kept place) value realm (of kept realm) }
    ensures changed { (kept : Kept T) (realm : ℕ) (test : T → Bool) (change : T → T) (place : ℕ)
        (item value : T) → StandsAt kept realm test place → item_at kept place ≡ Some item →
        value ≡ change item →
        of (with_item_at kept place value) realm ≡ changed test change (of kept realm) }
    ensures others { (kept : Kept T) (realm : ℕ) (test : T → Bool) (place : ℕ) (value : T)
        (other : ℕ) → StandsAt kept realm test place → other ≢ realm →
        of (with_item_at kept place value) other ≡ of kept other }
    ensures places { (kept : Kept T) (place : ℕ) (value : T) (other : ℕ) →
        places (with_item_at kept place value) other ≡ places kept other }
    ensures free { (kept : Kept T) (place : ℕ) (value : T) →
        (with_item_at kept place value).free ≡ kept.free }
{}

/// Taken out by its place, it is missing from its realm's items, and nothing else is.
#[tactic(auto, using(crate::proofs::Standing::standing))]
pub fn what_stands_is_taken_out<T>()
    ensures without { (kept : Kept T) (realm : ℕ) (test : T → Bool) (place : ℕ) →
        StandsAt kept realm test place →
        taken_out (places kept place) realm (of kept realm) ≡ without test (of kept realm) }
    ensures others { (kept : Kept T) (realm : ℕ) (test : T → Bool) (place other : ℕ) →
        StandsAt kept realm test place → other ≢ realm →
        taken_out (places kept place) other (of kept other) ≡ of kept other }
{}

/// Where no item passes, nothing is changed and nothing taken out.
#[tactic(auto, using(crate::proofs::Standing::standing))]
pub fn what_is_missing_changes_nothing<T>()
    ensures changed { (test : T → Bool) (change : T → T) (items : List T) → find test items ≡ None →
        changed test change items ≡ items }
    ensures without { (test : T → Bool) (items : List T) → find test items ≡ None →
        without test items ≡ items }
{}

/// It stands there still, where what is written passes too, and where items are added.
#[tactic(auto, using(crate::proofs::Standing::stands_written, crate::proofs::Standing::stands_added))]
pub fn what_stands_stays<T>()
    ensures written { (kept : Kept T) (realm : ℕ) (test : T → Bool) (place : ℕ) (value : T) →
        StandsAt kept realm test place → test value ≡ true →
        StandsAt (with_item_at kept place value) realm test place }
    ensures added { (old new : Kept T) (realm : ℕ) (test : T → Bool) (place : ℕ) (more : List T) →
        StandsAt old realm test place →
        ((there : Item) → places old place ≡ Some there → places new place ≡ Some there) →
        of new realm ≡ of old realm ++ more → StandsAt new realm test place }
{}
