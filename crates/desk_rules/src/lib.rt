// What the desk answers with. This crate writes no function: `specs/` says what a byte of input does, in the words of the
// description, and `proofs/` what follows from that.

#![tactic(auto)]

// What the desk knows beside its lent bytes: how many lines have ended, how many characters of the line and bytes of the collection
// there are, and the last cycles taken into the guide and the register.
#[derive(Clone, Copy, Default)]
pub struct Marks {
    pub lines: u32,
    pub typed: usize,
    pub collected: usize,
    pub guide: u32,
    pub register: u32,
}

// The marks afterwards, and how many bytes there are to write.
#[derive(Clone, Copy)]
pub struct Fed {
    pub marks: Marks,
    pub said: usize,
}
