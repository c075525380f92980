// Taking a file, in two calls: it is checked, and applied. It is refused by its number and changes nothing, or its lines are applied one
// after the other.
#![tactic(auto)]

mod apply;
mod checks;
pub mod take;
