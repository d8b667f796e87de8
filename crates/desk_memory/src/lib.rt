//! What a desk knows of a device, and what it is kept in.
//!
//! A [`DeviceState`] is all that a desk has to know of a device's earlier lines. A [`Memory`] keeps
//! the states of devices: what was noted in it is found again after each crash, once it was
//! settled. An [`EntryMemory`] tells its entries. [`NoMemory`] is that of a desk that is started
//! once, [`MemMemory`] one for tests. An [`Entry`] has a device's name, the mark of the key that it
//! was served under, its state, and where it is at home, which is here or a desk that it is gone to
//! (a [`Home`]); [`state_of`], [`home_in`] and [`owner_of`] look through entries, and
//! [`place_for`] says where one more goes. The laws say that it changes the last entry of its
//! device alone, and takes no key from a name. What is outstanding and what was answered last is a
//! key's own: under another key the state is renewed.
#![tactic(auto)]

mod answer;
mod device_state;
mod entry;
mod entry_copy;
mod entry_memory;
mod entry_place;
mod home;
mod key_mark;
mod key_owner;
mod last_entry;
mod law;
mod mem_memory;
mod memory;
mod memory_fault;
mod named_state;
mod no_memory;

pub use answer::Answer;
pub use device_state::DeviceState;
pub use entry::Entry;
pub use entry_copy::copy_of;
pub use entry_memory::EntryMemory;
pub use entry_place::{place_for, set_entry};
pub use home::Home;
pub use key_mark::{MARK, mark_of};
pub use key_owner::owner_of;
pub use last_entry::{home_in, last_of};
pub use law::{entry_is_last, owner_is_kept, owner_is_noted};
pub use mem_memory::MemMemory;
pub use memory::Memory;
pub use memory_fault::MemoryFault;
pub use named_state::state_of;
pub use no_memory::NoMemory;
