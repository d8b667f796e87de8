use sqlite_disk::Disk;
use sqlite_store::FileStore;
use sqlite_trees::error::StoreError;
use sqlite_trees::store::{Alter, Store};

/// A store with a log that is copied into its file.
pub trait Logged: Alter {
    ghost use Rattle.std.specs.Prelude.{◌≡◌, ◌⊎◌, ◌≤◌, IfErr, OnOk};
    ghost use Rattle.sqlite_disk.specs.Disk.{MoreFaults};
    ghost use Rattle.sqlite_trees.specs.{Objects.with_version, Tree.Trees, View.{HasCause, IsClean, IsQuiet, doubt}};
    ghost use Rattle.desk_database.specs.TableOpening.{IsCommitted};

    /// The log has no page.
    ghost is_copied: { Self → Type 0 };

    /// Copies the log, so that it has no commit but those that come.
    fn copy_log(&mut self) -> Result<(), StoreError>
        ensures same { OnOk result (IsClean (Self.Store.view self.new)
            → Self.Store.view self.new ≡ Self.Store.view self.old) }
        ensures cause { IsClean (Self.Store.view self.new) → IfErr result
            (HasCause (Self.Store.view self.old)
            (MoreFaults (Self.Store.faults self.old) (Self.Store.faults self.new)) ⊥) }
        ensures quiet { IsQuiet Self.Store.view Self.Store.faults Self.Store.recovers
            Self.Store.is_shielded self.old self.new };

    /// Commits with this version, and copies the log, so that the file has the commit without it.
    fn commit_as(&mut self, version: u32) -> Result<(), StoreError>
        ensures clean { doubt (Self.Store.view self.old).is_clean
            ≤ doubt (Self.Store.view self.new).is_clean }
        ensures committed { OnOk result (IsClean (Self.Store.view self.new)
            → IsCommitted (with_version (Self.Store.view self.old).trees version)
            (Self.Store.view self.old) (Self.Store.view self.new)) }
        ensures copied { OnOk result (is_copied self.new) }
        ensures cause { IsClean (Self.Store.view self.new) → IfErr result
            (HasCause (Self.Store.view self.old)
            (MoreFaults (Self.Store.faults self.old) (Self.Store.faults self.new)) ⊥) }
        ensures counts { Self.Store.faults self.old ≤ Self.Store.faults self.new }
        ensures shield { Self.Store.is_shielded self.old
            → Self.Store.is_shielded self.new }
        ensures crash { IsClean (Self.Store.view self.new) → (db : Trees)
            → Self.Store.recovers self.new db → Self.Store.recovers self.old db
            ⊎ (db ≡ with_version (Self.Store.view self.old).trees version) };
}

impl<D: Disk> Logged for FileStore<D> {
    ghost use Rattle.std.specs.Prelude.{◌≡◌};
    ghost use Rattle.sqlite_store.specs.FileStore.{log_frames};

    ghost is_copied = { λ store. log_frames store ≡ 0 };

    fn copy_log(&mut self) -> Result<(), StoreError> {
        self.checkpoint()
    }

    fn commit_as(&mut self, version: u32) -> Result<(), StoreError> {
        self.set_version(version)?;
        self.commit()?;
        self.checkpoint()?;
        Ok(())
    }
}
