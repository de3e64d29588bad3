#![tactic(auto)]
// The controller: every command by packet and by call, over any volume.
pub mod answers;
pub mod controller;
pub mod ends;
pub mod holds;
mod pipes;
mod reply;
mod sectors;
pub mod serve;
