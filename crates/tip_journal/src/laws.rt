//! Laws of journals and passes, each carried by a function that does nothing.
ghost use Rattle.std.specs.Prelude.{◌≡◌, ◌≢◌, ◌↔◌, ◌+◌, ◌<◌, ◌≤◌, ◌++◌, ◌∷◌, [], ℕ, List, Some, length, slice_get, sum_by, if◌then◌else◌, All, Any};
ghost use Rattle.std.specs.Option.{option_map};
ghost use Rattle.tip_journal.specs.Audit.{AreAudited};
ghost use Rattle.tip_journal.specs.Fits.{Fits};
ghost use Rattle.tip_journal.specs.Journal.{Written, at_number, with_entry};
ghost use Rattle.tip_journal.specs.Journals.{IsHistory, at, changed_at, current, epoch_at, last_number, renewed, with_current, without_last};
ghost use Rattle.tip_journal.specs.Pass.{Held, is_of, last_own, own};
ghost use Rattle.tip_journal.specs.Retiring.{IsRetired};
ghost use Rattle.tip_journal.specs.declared.pass.Noted.{Noted};

/// A change of a realm's current journal is seen there, and nowhere else.
#[tactic(auto, using(crate::proofs::LawLemmas::changing))]
pub fn what_is_changed_is_current<S, E>()
    ensures current { (journals : List (List (Written S E))) (realm : ℕ)
        (change : Written S E → Written S E) → current (with_current realm change journals) realm
        ≡ option_map change (current journals realm) }
    ensures others { (journals : List (List (Written S E))) (realm other : ℕ)
        (change : Written S E → Written S E) → other ≢ realm →
        slice_get (with_current realm change journals) other ≡ slice_get journals other }
    ensures realms { (journals : List (List (Written S E))) (realm : ℕ)
        (change : Written S E → Written S E) →
        length (with_current realm change journals) ≡ length journals }
{}

/// A renewal begins a journal behind those that the realm had, and leaves the other realms; taken back it leaves nothing.
#[tactic(auto, using(crate::proofs::LawLemmas::renewing))]
pub fn what_is_renewed_is_kept<S, E>()
    ensures current { (journals : List (List (Written S E))) (realm : ℕ) (journal : Written S E) →
        realm < length journals → current (renewed realm journal journals) realm ≡ Some journal }
    ensures kept { (journals : List (List (Written S E))) (realm : ℕ) (journal : Written S E) →
        slice_get (renewed realm journal journals) realm
        ≡ option_map (λ history. history ++ journal ∷ []) (slice_get journals realm) }
    ensures others { (journals : List (List (Written S E))) (realm other : ℕ)
        (journal : Written S E) → other ≢ realm →
        slice_get (renewed realm journal journals) other ≡ slice_get journals other }
    ensures withdrawn { (journals : List (List (Written S E))) (realm : ℕ) (journal : Written S E) →
        changed_at realm without_last (renewed realm journal journals) ≡ journals }
{}

/// A pass that takes down an entry has it as the last of its realm and epoch, and the last of any other stays.
#[tactic(auto, using(crate::proofs::LawLemmas::noting))]
pub fn what_is_noted_is_last<E>()
    ensures { (noted : List (Noted E)) (one : Noted E) (realm epoch : ℕ) →
        last_own realm epoch (noted ++ one ∷ [])
        ≡ (if is_of realm epoch one then Some one else last_own realm epoch noted) }
{}

/// A pass that takes down the entry that a realm's current journal was given fits there.
#[tactic(auto, using(crate::proofs::LawLemmas::noting))]
pub fn what_is_noted_fits<S, E>()
    ensures { (journals : List (List (Written S E))) (realm : ℕ) (entry : E)
        (noted : List (Noted E)) → Fits (with_current realm (with_entry entry) journals) (noted ++
        record {
          realm = realm;
          epoch = epoch_at journals realm;
          number = last_number
              journals realm + 1;
          entry = entry;
        } ∷ []) realm }
{}

/// Where all is right, each entry of a journal stands in some pass at its number, and the passes have as many of its entries as it has: a pass that is missing shows.
pub fn what_is_audited_is_noted<S, E>()
    ensures count { (journals : List (List (Written S E))) (passes : List (Held E))
        (realm place : ℕ) (journal : Written S E) → AreAudited journals passes →
        at journals realm place ≡ Some journal →
        sum_by (λ pass. length (own realm journal.epoch pass.noted)) passes
        ≡ length journal.entries }
    ensures each { (journals : List (List (Written S E))) (passes : List (Held E)) (realm place : ℕ)
        (journal : Written S E) (number : ℕ) → AreAudited journals passes →
        at journals realm place ≡ Some journal → 0 < number → number ≤ length journal.entries →
        Any (λ pass. Any (λ one. (one.number ≡ number)
        × (at_number journal.entries number ≡ Some one.entry))
        (own realm journal.epoch pass.noted)) passes }
{}

/// Where a journal was retired, what is left is right exactly where all that was there before is: to let go of journals hides nothing
/// from a later audit.
pub fn what_is_left_is_right_where_all_was<S, E>()
    ensures { (old new : List (List (Written S E))) (before after : List (Held E))
        (realm epoch entries : ℕ) → All IsHistory old →
        IsRetired old new before after realm epoch entries →
        AreAudited new after ↔ AreAudited old before }
{}
