// The lines of a file: data record, guide row, header and trailer. Their tables of fields, and what is read from a line and
// written into it.
#![tactic(auto)]

pub mod counter;
pub mod field;
pub mod frame;
pub mod place;
pub mod table;
