#![tactic(auto)]
// Packets: the commands as a type, and what each packet says.
pub mod command;
pub mod decode;
pub mod fault;
