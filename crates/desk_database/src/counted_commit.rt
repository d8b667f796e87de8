ghost use Rattle.std.specs.Prelude.{◌≡◌, ◌⊎◌, ◌≤◌, false, IfErr, OnOk};
ghost use Rattle.sqlite_disk.specs.Disk.{MoreFaults};
ghost use Rattle.sqlite_trees.specs.{Tree.Trees, View.{HasCause, IsClean, doubt}};
ghost use Rattle.desk_database.specs.{TableOpening.{IsCommitted, KeepsRows}, Log.{with_next_version, first_version, with_first_version}};

use crate::logged::Logged;
use sqlite_trees::error::StoreError;

/// Commits with the next version, and copies the log.
pub fn commit_counted<S: Logged>(store: &mut S) -> Result<(), StoreError>
    requires { IsClean (S.Store.view store.old)
        → (S.Store.view store.old).is_broken ≡ false }
    ensures clean { doubt (S.Store.view store.old).is_clean
        ≤ doubt (S.Store.view store.new).is_clean }
    ensures committed { OnOk result (IsClean (S.Store.view store.new)
        → IsCommitted (with_next_version (S.Store.view store.old).trees)
        (S.Store.view store.old) (S.Store.view store.new)) }
    ensures copied { OnOk result (S.is_copied store.new) }
    ensures cause { IsClean (S.Store.view store.new) → IfErr result
        (HasCause (S.Store.view store.old)
        (MoreFaults (S.Store.faults store.old) (S.Store.faults store.new)) ⊥) }
    ensures counts { S.Store.faults store.old ≤ S.Store.faults store.new }
    ensures shield { S.Store.is_shielded store.old → S.Store.is_shielded store.new }
    ensures crash { IsClean (S.Store.view store.new) → (db : Trees)
        → S.Store.recovers store.new db → S.Store.recovers store.old db
        ⊎ (db ≡ with_next_version (S.Store.view store.old).trees) }
{
    let version = store.version().wrapping_add(1);
    store.commit_as(version)
}

// The version of a memory that is made over trees of this version.
fn first_of(version: u32, new: u32) -> u32
    ensures { result ≡ first_version version new }
{
    if version == 0 {
        new
    } else {
        version.wrapping_add(1)
    }
}

/// Commits the making of a memory: with this version, or with the next where the store has one.
pub fn commit_first<S: Logged>(store: &mut S, new: u32) -> Result<(), StoreError>
    requires { IsClean (S.Store.view store.old)
        → (S.Store.view store.old).is_broken ≡ false }
    ensures clean { doubt (S.Store.view store.old).is_clean
        ≤ doubt (S.Store.view store.new).is_clean }
    ensures committed { OnOk result (IsClean (S.Store.view store.new)
        → IsCommitted (with_first_version (S.Store.view store.old).trees new)
        (S.Store.view store.old) (S.Store.view store.new)) }
    ensures cause { IsClean (S.Store.view store.new) → IfErr result
        (HasCause (S.Store.view store.old)
        (MoreFaults (S.Store.faults store.old) (S.Store.faults store.new)) ⊥) }
    ensures counts { S.Store.faults store.old ≤ S.Store.faults store.new }
    ensures shield { S.Store.is_shielded store.old → S.Store.is_shielded store.new }
    ensures crash { IsClean (S.Store.view store.new) → (db : Trees)
        → S.Store.recovers store.new db → S.Store.recovers store.old db
        ⊎ (db ≡ with_first_version (S.Store.view store.old).trees new) }
{
    let version = first_of(store.version(), new);
    store.commit_as(version)
}

/// Counts an opening: by two commits, so that no log that was left before is of the file any more.
pub fn count_opening<S: Logged>(store: &mut S) -> Result<(), StoreError>
    requires { IsClean (S.Store.view store.old)
        → (S.Store.view store.old).is_broken ≡ false }
    ensures committed { OnOk result (IsClean (S.Store.view store.new)
        → IsCommitted (with_next_version (with_next_version (S.Store.view store.old).trees))
        (S.Store.view store.old) (S.Store.view store.new)) }
    ensures copied { OnOk result (S.is_copied store.new) }
    ensures cause { IsClean (S.Store.view store.new) → IfErr result
        (HasCause (S.Store.view store.old)
        (MoreFaults (S.Store.faults store.old) (S.Store.faults store.new)) ⊥) }
    ensures shield { S.Store.is_shielded store.old → S.Store.is_shielded store.new }
    ensures kept { KeepsRows S.Store.view S.Store.faults S.Store.recovers
        store.old store.new }
{
    store.copy_log()?;
    commit_counted(store)?;
    commit_counted(store)
}
