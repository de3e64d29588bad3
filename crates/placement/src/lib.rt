#![tactic(auto)]
// The placements of a room's drive: spared tracks, and a window.
pub mod refusal;
pub mod shape;
pub mod tracks;
pub mod window;
