//! Birth and components of living entities: a finite map from handles.
//!
//! `Rows` keeps the entities in one vector. An entity's *place* is its position there. For each
//! component number a sparse set has the values, by places. The caller keeps the place of each
//! handle, as a world does in the rows of its allocator. `Storage` is `Rows` with an index, which
//! has the places.
//!
//! [`Bundle`] has components and their values by themselves, as commands carry them. And [`search`]
//! finds the position of a key among pairs of a key and a value, by strictly rising key.
//!
//! `handle_map` has a map from handles to values of any type, at most one for each slot, and
//! `sparse_map` one for values that few handles have.
#![tactic(auto, using(crate::proofs::Laws::laws))]

mod bundle;
mod columns;
mod fault;
pub mod handle_map;
mod image;
mod image_fault;
mod index;
mod items;
mod key;
mod limit;
mod lists;
mod living;
mod looking;
mod order;
mod pairs;
mod places;
mod rows;
mod slot;
pub mod sparse_map;
mod sparse_set;
mod storage;

pub use bundle::Bundle;
pub use fault::StorageFault;
pub use image_fault::StorageImageFault;
pub use items::Items;
pub use pairs::search;
pub use rows::Rows;
pub use storage::Storage;
