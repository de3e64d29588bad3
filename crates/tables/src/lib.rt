#![tactic(auto)]
// The controller's tables: the semaphore names, and the pipes.
pub mod answers;
pub mod area;
pub mod pipes;
pub mod search;
pub mod semaphores;
