use sqlite_disk::{Disk, Files};
use sqlite_store::{FileStore, Unopened};

/// What is left of the files after an open that failed.
pub enum Left<D: Disk> {
    Files(Files<D>),
    Unopened(Unopened<D>),
    Store(FileStore<D>),
}

impl<D: Disk + Drop> Drop for Left<D> {
    fn drop(self) {
        match self {
            Left::Files(_files) => {}
            Left::Unopened(_files) => {}
            Left::Store(_store) => {}
        }
    }
}
