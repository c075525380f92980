// The desk: what a byte of input does, line splitting included. A program that lends its bytes only reads, calls and writes.
#![tactic(auto)]

mod bench;
pub mod desk;
mod frames;
mod say;
