//! Tests of the libraries: what no clause says and no case shows, such as what no case can make
//! when it runs out of memory, and threads that really run side by side. What calls return if there
//! is memory is in `cases_and_examples`, and so is what most return if it runs out. One crate has
//! them all, since each crate of tests takes a minute before its first function is proved. Those of
//! scripts and of the program are in `spawnrun`.
#![tactic(auto)]

#[cfg(test)]
mod acts;
#[cfg(test)]
mod beside;
#[cfg(test)]
mod caller;
#[cfg(test)]
mod claims_memory;
#[cfg(test)]
mod counts;
#[cfg(test)]
mod entered;
#[cfg(test)]
mod frames;
#[cfg(test)]
mod handle_memory;
#[cfg(test)]
mod handle_texts;
#[cfg(test)]
mod making;
#[cfg(test)]
mod map_memory;
#[cfg(test)]
mod map_sizes;
#[cfg(test)]
mod meeting;
#[cfg(test)]
mod phase;
#[cfg(test)]
mod rendezvous;
#[cfg(test)]
mod replay_memory;
#[cfg(test)]
mod reserving;
#[cfg(test)]
mod schedules;
#[cfg(test)]
mod spawned;
#[cfg(test)]
mod workers;
