#![tactic(auto)]
// A table as a spreadsheet saves it: records of fields, parted by commas and line ends, a field quoted where it holds one.
// The library csv takes an open quote, and what stands behind a closing one, into the field; here each is a fault with its line.
pub mod fault;
pub mod quotes;
pub mod reader;
