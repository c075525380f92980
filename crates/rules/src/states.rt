// "Byte 0 state (0 free, 1 held, 2 open, 3 resting)". Numbers, and no enum: a lent slot may hold any byte, and the definition `state_of`
// is that byte.
pub const FREE: u8 = 0;

pub const HELD: u8 = 1;

pub const OPEN: u8 = 2;

pub const RESTING: u8 = 3;
