// 01, "Layouts": where each field of a line starts (from 1), how many bytes it has, and the rule that it keeps. Reading, checking
// and writing all use these tables: no position stands anywhere else. Beside the number of a rule stand the letters or the bounds
// that it names, for all that check it. Start, length and rule are numbers, and no struct or enum, as the definitions of the tables are
// lists of numbers, to which `data_record` and its sisters are promised to be equal.
ghost use Rattle.std.specs.Prelude.{◌≡◌, ◌-◌, get_or, set};
ghost use Rattle.layout.specs.Tables.{data_record, narrow_record, guide_row, header_table, trailer_table, header, trailer};

// Any printable bytes.
pub const FREE: usize = 1;

// Left-justified: blank, or the first byte is no space.
pub const TEXT: usize = 2;

// The same, and not blank; in D and U of a data record it may be.
pub const NAMED: usize = 3;

// C, D, I, U or M.
pub const CODE: usize = 4;

pub const CODES: [u8; 5] = [b'C', b'D', b'I', b'U', b'M'];

// All digits.
pub const DIGITS: usize = 5;

// Blank, or 1 to 8 digits.
pub const HOUSE: usize = 6;

// Blank or N S E W NE NW SE SW.
pub const DIRECTION: usize = 7;

// A digit; in D and U of a data record it may be blank.
pub const ONE_DIGIT: usize = 8;

// 0 to 5; in D and U of a data record it may be blank.
pub const ZERO_TO_FIVE: usize = 9;

pub const TYPES: [u8; 6] = [b'0', b'1', b'2', b'3', b'4', b'5'];

// Capitals; in D and U of a data record they may be blank.
pub const CAPITALS: usize = 10;

// A space or `C`.
pub const SPACE_OR_C: usize = 11;

pub const SOURCES: [u8; 2] = [b' ', b'C'];

// Blank, or 1 to 5 digits.
pub const ZONE: usize = 12;

pub const ZONE_LEAST: usize = 0;

pub const ZONE_MOST: usize = 5;

// 1 to 5 capitals and digits.
pub const COMPANY_LETTERS: usize = 13;

pub const COMPANY_LEAST: usize = 1;

pub const COMPANY_MOST: usize = 5;

// A date.
pub const MMDDYY: usize = 14;

// `*`.
pub const STAR: usize = 15;

pub const STARS: [u8; 1] = [b'*'];

// 1 to 8 digits.
pub const LOW_END: usize = 16;

// 1 to 8 digits, no less than Low.
pub const HIGH_END: usize = 17;

// `O`, `E` or `B`, and both ends are of it.
pub const PARITY_LETTER: usize = 18;

// 1 to 5 digits.
pub const ROW_ZONE: usize = 19;

pub const ROW_ZONE_LEAST: usize = 1;

pub const ROW_ZONE_MOST: usize = 5;

// `I` or `D`.
pub const ROW_CODE: usize = 20;

pub const ROW_CODES: [u8; 2] = [b'I', b'D'];

// `UHL` and two spaces.
pub const OPENING: usize = 21;

pub const HEADER_LETTERS: [u8; 5] = [b'U', b'H', b'L', b' ', b' '];

// `UTL` and two spaces.
pub const CLOSING: usize = 22;

pub const TRAILER_LETTERS: [u8; 5] = [b'U', b'T', b'L', b' ', b' '];

// A cycle.
pub const TURN: usize = 23;

// A record count.
pub const TALLY: usize = 24;

// C, D or I.
pub const FIRST_CODE: usize = 25;

pub const FIRST_CODES: [u8; 3] = [b'C', b'D', b'I'];

// The data record, 512 bytes.
pub const RECORD: [usize; 111] = [
    1, // Function
    1,
    CODE,
    2, // NPA
    3,
    DIGITS,
    5, // Calling Number
    7,
    DIGITS,
    12, // House Number
    10,
    HOUSE,
    22, // House Suffix
    4,
    TEXT,
    26, // Prefix Directional
    2,
    DIRECTION,
    28, // Street Name
    60,
    NAMED,
    88, // Street Suffix
    4,
    TEXT,
    92, // Post Directional
    2,
    DIRECTION,
    94, // Community
    32,
    NAMED,
    126, // State
    2,
    CAPITALS,
    128, // Location
    60,
    TEXT,
    188, // Customer Name
    32,
    TEXT,
    220, // Class
    1,
    ONE_DIGIT,
    221, // Type
    1,
    ZERO_TO_FIVE,
    222, // Exchange
    4,
    TEXT,
    226, // ESN
    5,
    ZONE,
    231, // Main NPA
    3,
    TEXT,
    234, // Main Number
    7,
    TEXT,
    241, // Order
    10,
    TEXT,
    251, // Date
    6,
    MMDDYY,
    257, // County
    4,
    TEXT,
    261, // Company ID
    5,
    COMPANY_LETTERS,
    266, // Source
    1,
    SPACE_OR_C,
    267, // Zip
    5,
    TEXT,
    272, // Zip+4
    4,
    TEXT,
    276, // General Use
    11,
    FREE,
    287, // Customer Code
    3,
    TEXT,
    290, // Comments
    30,
    TEXT,
    320, // X
    9,
    TEXT,
    329, // Y
    9,
    TEXT,
    338, // Z
    5,
    TEXT,
    343, // Cell
    6,
    TEXT,
    349, // Sector
    1,
    TEXT,
    350, // TAR
    6,
    TEXT,
    356, // Reserved
    156,
    FREE,
    512, // `*`
    1,
    STAR,
];

// The data record of Version 1, 240 bytes: the same fields.
pub const NARROW: [usize; 111] = [
    1, // Function
    1,
    FIRST_CODE,
    2, // NPA
    3,
    DIGITS,
    5, // Calling Number
    7,
    DIGITS,
    12, // House Number
    10,
    HOUSE,
    22, // House Suffix
    4,
    TEXT,
    26, // Prefix Directional
    2,
    DIRECTION,
    28, // Street Name
    40,
    NAMED,
    68, // Street Suffix
    4,
    TEXT,
    72, // Post Directional
    2,
    DIRECTION,
    74, // Community
    32,
    NAMED,
    106, // State
    2,
    CAPITALS,
    108, // Location
    20,
    TEXT,
    128, // Customer Name
    32,
    TEXT,
    160, // Class
    1,
    ONE_DIGIT,
    161, // Type
    1,
    ZERO_TO_FIVE,
    162, // Exchange
    4,
    TEXT,
    166, // ESN
    5,
    ZONE,
    171, // Main NPA
    3,
    TEXT,
    174, // Main Number
    7,
    TEXT,
    181, // Order
    10,
    TEXT,
    191, // Date
    6,
    MMDDYY,
    197, // County
    4,
    TEXT,
    201, // Company ID
    5,
    COMPANY_LETTERS,
    206, // Source
    1,
    SPACE_OR_C,
    207, // Zip
    5,
    TEXT,
    212, // Zip+4
    4,
    TEXT,
    216, // General Use
    11,
    FREE,
    227, // Customer Code
    0,
    TEXT,
    227, // Comments
    0,
    TEXT,
    227, // X
    0,
    TEXT,
    227, // Y
    0,
    TEXT,
    227, // Z
    0,
    TEXT,
    227, // Cell
    0,
    TEXT,
    227, // Sector
    0,
    TEXT,
    227, // TAR
    0,
    TEXT,
    227, // Reserved
    13,
    FREE,
    240, // `*`
    1,
    STAR,
];

// The guide row, 200 bytes.
pub const ROW: [usize; 39] = [
    1, // Prefix
    2,
    DIRECTION,
    3, // Street
    60,
    NAMED,
    63, // Suffix
    4,
    TEXT,
    67, // Post
    2,
    DIRECTION,
    69, // Low
    10,
    LOW_END,
    79, // High
    10,
    HIGH_END,
    89, // Community
    32,
    NAMED,
    121, // State
    2,
    CAPITALS,
    123, // parity
    1,
    PARITY_LETTER,
    124, // ESN
    5,
    ROW_ZONE,
    129, // free
    70,
    FREE,
    199, // Function
    1,
    ROW_CODE,
    200, // `*`
    1,
    STAR,
];

// The header, 200 bytes.
pub const HEADER: [usize; 18] = [
    1, // `UHL` and two spaces
    5, OPENING, 6, // date
    6, MMDDYY, 12, // company name
    50, NAMED, 62, // cycle
    6, TURN, 68, // free
    132, FREE, 200, // `*`
    1, STAR,
];

// The trailer, 200 bytes.
pub const TRAILER: [usize; 18] = [
    1, // `UTL` and two spaces
    5, CLOSING, 6, // date
    6, MMDDYY, 12, // name
    50, NAMED, 62, // record count
    9, TALLY, 71, // free
    129, FREE, 200, // `*`
    1, STAR,
];

// The code's own tables are the definition's, which are shown to tile their lines.
pub type RecordTable = [usize; 111];

pub type RowTable = [usize; 39];

pub type FrameTable = [usize; 18];

pub fn data_record() -> RecordTable
    ensures { result ≡ data_record }
{
    RECORD
}

pub fn narrow_record() -> RecordTable
    ensures { result ≡ narrow_record }
{
    NARROW
}

pub fn guide_row() -> RowTable
    ensures { result ≡ guide_row }
{
    ROW
}

pub fn header() -> FrameTable
    ensures { result ≡ header }
{
    HEADER
}

pub fn trailer() -> FrameTable
    ensures { result ≡ trailer }
{
    TRAILER
}

// A frame's table for a line of m bytes: the free part ends before its `*`.
fn framed(frame: FrameTable, m: usize) -> FrameTable
    ensures { result ≡ set (set frame 13 (m - get_or frame 12 0)) 15 m }
{
    let mut table = frame;
    table[3 * FRAME_FREE + 1] = m.saturating_sub(frame[3 * FRAME_FREE]);
    table[3 * FRAME_STAR] = m;
    table
}

// The header's table for a header of m bytes.
pub fn header_table(m: usize) -> FrameTable
    ensures { result ≡ header_table m }
{
    framed(HEADER, m)
}

// The trailer's, in the same way.
pub fn trailer_table(m: usize) -> FrameTable
    ensures { result ≡ trailer_table m }
{
    framed(TRAILER, m)
}

// Fields by their places in the tables, from 0: those of the data record,
pub const FUNCTION: usize = 0;

pub const NPA: usize = 1;

pub const CALLING_NUMBER: usize = 2;

pub const HOUSE_NUMBER: usize = 3;

pub const HOUSE_SUFFIX: usize = 4;

pub const PREFIX: usize = 5;

pub const STREET_NAME: usize = 6;

pub const STREET_SUFFIX: usize = 7;

pub const POST: usize = 8;

pub const COMMUNITY: usize = 9;

pub const STATE: usize = 10;

pub const LOCATION: usize = 11;

pub const CUSTOMER_NAME: usize = 12;

pub const CLASS: usize = 13;

pub const TYPE: usize = 14;

pub const EXCHANGE: usize = 15;

pub const ESN: usize = 16;

pub const MAIN_NPA: usize = 17;

pub const MAIN_NUMBER: usize = 18;

pub const ORDER: usize = 19;

pub const DATE: usize = 20;

pub const COUNTY: usize = 21;

pub const COMPANY_ID: usize = 22;

pub const SOURCE: usize = 23;

pub const ZIP: usize = 24;

pub const ZIP_4: usize = 25;

pub const GENERAL_USE: usize = 26;

pub const CUSTOMER_CODE: usize = 27;

pub const COMMENTS: usize = 28;

pub const X: usize = 29;

pub const Y: usize = 30;

pub const Z: usize = 31;

pub const CELL: usize = 32;

pub const SECTOR: usize = 33;

pub const TAR: usize = 34;

pub const RESERVED: usize = 35;

pub const RECORD_STAR: usize = 36;

// those of the guide row,
pub const ROW_PREFIX: usize = 0;

pub const ROW_STREET: usize = 1;

pub const ROW_SUFFIX: usize = 2;

pub const ROW_POST: usize = 3;

pub const LOW: usize = 4;

pub const HIGH: usize = 5;

pub const ROW_COMMUNITY: usize = 6;

pub const ROW_STATE: usize = 7;

pub const PARITY: usize = 8;

pub const ROW_ESN: usize = 9;

pub const ROW_FREE: usize = 10;

pub const ROW_FUNCTION: usize = 11;

pub const ROW_STAR: usize = 12;

// and those of header and trailer.
pub const OPENER: usize = 0;

pub const FRAME_DATE: usize = 1;

pub const NAME: usize = 2;

pub const CYCLE: usize = 3;

pub const COUNT: usize = 3;

pub const FRAME_FREE: usize = 4;

pub const FRAME_STAR: usize = 5;
