//! How many boxes the rows of realms want that start.
ghost use Rattle.std.specs.Prelude.{◌≡◌, ◌+◌, List, ℕ, [], ◌∷◌, map, option_map, IfOk, IsErrOf, OnOk};
ghost use Rattle.tip_actor.specs.declared.fault.ActFault.TheVariants.{Memory, Store};
ghost use Rattle.tip_rows.specs.Keys.{Key as AKey};
ghost use Rattle.tip_rows.specs.Logs.{IsPart, Log};
ghost use Rattle.tip_rows.specs.declared.row.Row.{Row as ARow};
ghost use Rattle.tip_scene.specs.Blaming.{AreUnread, IsSpared};
ghost use Rattle.tip_scene.specs.Boxes.{box_count, boxes_if_meant, is_meant};
ghost use Rattle.tip_scene.specs.Scenes.{Scene};
ghost use Rattle.tip_scene.specs.Wanting.{AreNamed, HasAll};

use crate::boxes::add_branches;
use crate::declared::Declaration;
use tip_actor::{ActFault, Actor};
use tip_line::Realm;
use tip_rows::{LoadFault, RowLog};

/// How many branches the stored rows of these realms have, or those of the realm of this name alone. The store is read, and stays
/// as it is.
pub(crate) fn count_declared<S: RowLog + Drop>(
    store: &mut S,
    declarations: &[Declaration],
    only: Option<&str>,
) -> Result<usize, ActFault>
    ensures stands { (log : Log) → S.keeping.stands store.old log → S.keeping.stands store.new log }
    ensures due { (r : List ℕ) → S.keeping.is_due store.new r ≡ S.keeping.is_due store.old r }
    ensures truth { S.keeping.is_true store.new → S.keeping.is_true store.old }
    ensures counts { OnOk result (S.keeping.faults store.new ≡ S.keeping.faults store.old) }
    ensures spared { IsSpared S.keeping Memory store.old store.new result }
    ensures unread { IsErrOf result Store → AreUnread S.keeping store.old store.new
        (map (λ declaration. declaration.name) declarations.now) }
    ensures wanted { (scene : Scene) →
        AreNamed (map (λ declaration. declaration.name) declarations.now) scene →
        HasAll S.keeping store.old scene → IfOk result (λ count. S.keeping.is_true store.new →
        count ≡ box_count (option_map (λ name. name.now) only.entry) scene) }
{
    let mut count: usize = 0;
    for declaration in declarations {
        count = count_more(count, store, &declaration.name, only)?;
    }
    Ok(count)
}

/// How many branches the stored rows of these realms at work have, or those of the realm of this name alone. The store is read, and
/// stays as it is.
pub(crate) fn count_acting<S: RowLog + Drop>(
    store: &mut S,
    actors: &[Actor],
    only: Option<&str>,
) -> Result<usize, ActFault>
    ensures stands { (log : Log) → S.keeping.stands store.old log → S.keeping.stands store.new log }
    ensures due { (r : List ℕ) → S.keeping.is_due store.new r ≡ S.keeping.is_due store.old r }
    ensures truth { S.keeping.is_true store.new → S.keeping.is_true store.old }
    ensures counts { OnOk result (S.keeping.faults store.new ≡ S.keeping.faults store.old) }
    ensures spared { IsSpared S.keeping Memory store.old store.new result }
    ensures unread { IsErrOf result Store → AreUnread S.keeping store.old store.new
        (map (λ actor. actor.name) actors.now) }
    ensures wanted { (scene : Scene) → AreNamed (map (λ actor. actor.name) actors.now) scene →
        HasAll S.keeping store.old scene → IfOk result (λ count. S.keeping.is_true store.new →
        count ≡ box_count (option_map (λ name. name.now) only.entry) scene) }
{
    let mut count: usize = 0;
    for actor in actors {
        count = count_more(count, store, &actor.name, only)?;
    }
    Ok(count)
}

/// So many, and one for each branch of each stored row of this realm, if it is meant: all are where no name is given. `Memory` too
/// where they are more than there can be boxes in memory. The store is read, and stays as it is.
fn count_more<S: RowLog + Drop>(
    count: usize,
    store: &mut S,
    realm: &Realm,
    only: Option<&str>,
) -> Result<usize, ActFault>
    ensures stands { (log : Log) → S.keeping.stands store.old log → S.keeping.stands store.new log }
    ensures due { (r : List ℕ) → S.keeping.is_due store.new r ≡ S.keeping.is_due store.old r }
    ensures truth { S.keeping.is_true store.new → S.keeping.is_true store.old }
    ensures counts { OnOk result (S.keeping.faults store.new ≡ S.keeping.faults store.old) }
    ensures spared { IsSpared S.keeping Memory store.old store.new result }
    ensures unread { IsErrOf result Store → AreUnread S.keeping store.old store.new
        (realm.now ∷ []) }
    ensures wanted { (log : Log) (epoch : ℕ) (rows : List (AKey × ARow)) →
        S.keeping.stands store.old log → IsPart log realm.now epoch rows →
        IfOk result (λ more. S.keeping.is_true store.new →
        more ≡ count + boxes_if_meant (option_map (λ name. name.now) only.entry) realm.now rows) }
{
    if !is_meant(realm, only) {
        return Ok(count);
    }
    match store.load(realm) {
        Ok(loaded) => add_branches(count, &loaded.rows).ok_or(ActFault::Memory),
        Err(LoadFault::Memory) => Err(ActFault::Memory),
        Err(LoadFault::Refused) => Err(ActFault::Store),
        Err(LoadFault::BadRow) => Err(ActFault::Store),
    }
}

/// Whether this realm is meant.
fn is_meant(realm: &Realm, only: Option<&str>) -> bool
    ensures { result ≡ is_meant (option_map (λ name. name.now) only.entry) realm.now }
{
    match only {
        Some(name) => realm.as_str() == name,
        None => true,
    }
}
