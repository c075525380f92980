// A line of a file held against its table: the rules of the fields, the one checker, and header and trailer, read and written.
#![tactic(auto)]

pub mod check;
pub mod frame;
