#![tactic(auto)]
// House images: the check, the image open for writing, the image held for reading, and the making of a new one.
pub mod check;
mod checked;
pub mod fault;
pub mod header;
pub mod make;
pub mod shelf;
pub mod work;
