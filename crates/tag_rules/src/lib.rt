// What reading and writing the tagged record of Exhibit 10 answer with. This crate has no function: `specs/` says what they do, in the
// words of the request, and `proofs/` what follows from that.

#![tactic(auto)]

// What was noted on the walk over a text: a label that is not taken, one that came twice, a value that does not fit.
#[derive(Clone, Copy, Default)]
pub struct Notes {
    pub unknown: bool,
    pub twice: bool,
    pub unfit: bool,
}

// What reading and writing return; the position is 0 but in 9.
#[repr(C)]
#[derive(Clone, Copy)]
pub struct Tagged {
    pub refusal: u32,
    pub position: u32,
    pub bytes: u32,
}
