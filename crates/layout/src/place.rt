// Where each field of a line lies: its first byte, from 0, and how many it has, computed from the tables; and how long a line is.
use crate::table;
use crate::table::{HEADER, NARROW, RECORD, ROW, TRAILER};

// The data record.
pub const FUNCTION_AT: usize = RECORD[3 * table::FUNCTION] - 1;

pub const FUNCTION_SIZE: usize = RECORD[3 * table::FUNCTION + 1];

pub const NPA_AT: usize = RECORD[3 * table::NPA] - 1;

pub const NPA_SIZE: usize = RECORD[3 * table::NPA + 1];

pub const CALLING_AT: usize = RECORD[3 * table::CALLING_NUMBER] - 1;

pub const CALLING_SIZE: usize = RECORD[3 * table::CALLING_NUMBER + 1];

pub const HOUSE_AT: usize = RECORD[3 * table::HOUSE_NUMBER] - 1;

pub const HOUSE_SIZE: usize = RECORD[3 * table::HOUSE_NUMBER + 1];

pub const HOUSE_SUFFIX_AT: usize = RECORD[3 * table::HOUSE_SUFFIX] - 1;

pub const HOUSE_SUFFIX_SIZE: usize = RECORD[3 * table::HOUSE_SUFFIX + 1];

pub const PREFIX_AT: usize = RECORD[3 * table::PREFIX] - 1;

pub const PREFIX_SIZE: usize = RECORD[3 * table::PREFIX + 1];

pub const STREET_NAME_AT: usize = RECORD[3 * table::STREET_NAME] - 1;

pub const STREET_NAME_SIZE: usize = RECORD[3 * table::STREET_NAME + 1];

pub const STREET_SUFFIX_AT: usize = RECORD[3 * table::STREET_SUFFIX] - 1;

pub const STREET_SUFFIX_SIZE: usize = RECORD[3 * table::STREET_SUFFIX + 1];

pub const POST_AT: usize = RECORD[3 * table::POST] - 1;

pub const POST_SIZE: usize = RECORD[3 * table::POST + 1];

pub const COMMUNITY_AT: usize = RECORD[3 * table::COMMUNITY] - 1;

pub const COMMUNITY_SIZE: usize = RECORD[3 * table::COMMUNITY + 1];

pub const STATE_AT: usize = RECORD[3 * table::STATE] - 1;

pub const STATE_SIZE: usize = RECORD[3 * table::STATE + 1];

pub const LOCATION_AT: usize = RECORD[3 * table::LOCATION] - 1;

pub const LOCATION_SIZE: usize = RECORD[3 * table::LOCATION + 1];

pub const CUSTOMER_NAME_AT: usize = RECORD[3 * table::CUSTOMER_NAME] - 1;

pub const CUSTOMER_NAME_SIZE: usize = RECORD[3 * table::CUSTOMER_NAME + 1];

pub const CLASS_AT: usize = RECORD[3 * table::CLASS] - 1;

pub const CLASS_SIZE: usize = RECORD[3 * table::CLASS + 1];

pub const TYPE_AT: usize = RECORD[3 * table::TYPE] - 1;

pub const TYPE_SIZE: usize = RECORD[3 * table::TYPE + 1];

pub const EXCHANGE_AT: usize = RECORD[3 * table::EXCHANGE] - 1;

pub const EXCHANGE_SIZE: usize = RECORD[3 * table::EXCHANGE + 1];

pub const ESN_AT: usize = RECORD[3 * table::ESN] - 1;

pub const ESN_SIZE: usize = RECORD[3 * table::ESN + 1];

pub const MAIN_NPA_AT: usize = RECORD[3 * table::MAIN_NPA] - 1;

pub const MAIN_NPA_SIZE: usize = RECORD[3 * table::MAIN_NPA + 1];

pub const MAIN_NUMBER_AT: usize = RECORD[3 * table::MAIN_NUMBER] - 1;

pub const MAIN_NUMBER_SIZE: usize = RECORD[3 * table::MAIN_NUMBER + 1];

pub const ORDER_AT: usize = RECORD[3 * table::ORDER] - 1;

pub const ORDER_SIZE: usize = RECORD[3 * table::ORDER + 1];

pub const DATE_AT: usize = RECORD[3 * table::DATE] - 1;

pub const DATE_SIZE: usize = RECORD[3 * table::DATE + 1];

pub const COUNTY_AT: usize = RECORD[3 * table::COUNTY] - 1;

pub const COUNTY_SIZE: usize = RECORD[3 * table::COUNTY + 1];

pub const COMPANY_AT: usize = RECORD[3 * table::COMPANY_ID] - 1;

pub const COMPANY_SIZE: usize = RECORD[3 * table::COMPANY_ID + 1];

pub const SOURCE_AT: usize = RECORD[3 * table::SOURCE] - 1;

pub const SOURCE_SIZE: usize = RECORD[3 * table::SOURCE + 1];

pub const ZIP_AT: usize = RECORD[3 * table::ZIP] - 1;

pub const ZIP_SIZE: usize = RECORD[3 * table::ZIP + 1];

pub const ZIP_4_AT: usize = RECORD[3 * table::ZIP_4] - 1;

pub const ZIP_4_SIZE: usize = RECORD[3 * table::ZIP_4 + 1];

pub const GENERAL_USE_AT: usize = RECORD[3 * table::GENERAL_USE] - 1;

pub const GENERAL_USE_SIZE: usize = RECORD[3 * table::GENERAL_USE + 1];

pub const CUSTOMER_CODE_AT: usize = RECORD[3 * table::CUSTOMER_CODE] - 1;

pub const CUSTOMER_CODE_SIZE: usize = RECORD[3 * table::CUSTOMER_CODE + 1];

pub const COMMENTS_AT: usize = RECORD[3 * table::COMMENTS] - 1;

pub const COMMENTS_SIZE: usize = RECORD[3 * table::COMMENTS + 1];

pub const X_AT: usize = RECORD[3 * table::X] - 1;

pub const X_SIZE: usize = RECORD[3 * table::X + 1];

pub const Y_AT: usize = RECORD[3 * table::Y] - 1;

pub const Y_SIZE: usize = RECORD[3 * table::Y + 1];

pub const Z_AT: usize = RECORD[3 * table::Z] - 1;

pub const Z_SIZE: usize = RECORD[3 * table::Z + 1];

pub const CELL_AT: usize = RECORD[3 * table::CELL] - 1;

pub const CELL_SIZE: usize = RECORD[3 * table::CELL + 1];

pub const SECTOR_AT: usize = RECORD[3 * table::SECTOR] - 1;

pub const SECTOR_SIZE: usize = RECORD[3 * table::SECTOR + 1];

pub const TAR_AT: usize = RECORD[3 * table::TAR] - 1;

pub const TAR_SIZE: usize = RECORD[3 * table::TAR + 1];

pub const RESERVED_AT: usize = RECORD[3 * table::RESERVED] - 1;

pub const RESERVED_SIZE: usize = RECORD[3 * table::RESERVED + 1];

pub const RECORD_STAR_AT: usize = RECORD[3 * table::RECORD_STAR] - 1;

// NPA and Calling Number are the number; Main NPA and Main Number, Zip and Zip+4, and X to Z lie one behind the other too; the street
// fields lie in two spans.
pub const NUMBER_SIZE: usize = CALLING_AT + CALLING_SIZE - NPA_AT;

pub const MAIN_SIZE: usize = MAIN_NUMBER_AT + MAIN_NUMBER_SIZE - MAIN_NPA_AT;

pub const ZIP_BOTH_SIZE: usize = ZIP_4_AT + ZIP_4_SIZE - ZIP_AT;

pub const XYZ_SIZE: usize = Z_AT + Z_SIZE - X_AT;

pub const STREET_SIZE: usize = POST_AT + POST_SIZE - PREFIX_AT;

pub const PLACE_SIZE: usize = STATE_AT + STATE_SIZE - COMMUNITY_AT;

// The guide row.
pub const ROW_PREFIX_AT: usize = ROW[3 * table::ROW_PREFIX] - 1;

pub const ROW_STREET_AT: usize = ROW[3 * table::ROW_STREET] - 1;

pub const ROW_STREET_SIZE: usize = ROW[3 * table::ROW_STREET + 1];

pub const ROW_SUFFIX_AT: usize = ROW[3 * table::ROW_SUFFIX] - 1;

pub const ROW_SUFFIX_SIZE: usize = ROW[3 * table::ROW_SUFFIX + 1];

pub const ROW_POST_AT: usize = ROW[3 * table::ROW_POST] - 1;

pub const ROW_POST_SIZE: usize = ROW[3 * table::ROW_POST + 1];

pub const LOW_AT: usize = ROW[3 * table::LOW] - 1;

pub const LOW_SIZE: usize = ROW[3 * table::LOW + 1];

pub const HIGH_AT: usize = ROW[3 * table::HIGH] - 1;

pub const HIGH_SIZE: usize = ROW[3 * table::HIGH + 1];

pub const ROW_COMMUNITY_AT: usize = ROW[3 * table::ROW_COMMUNITY] - 1;

pub const ROW_COMMUNITY_SIZE: usize = ROW[3 * table::ROW_COMMUNITY + 1];

pub const ROW_STATE_AT: usize = ROW[3 * table::ROW_STATE] - 1;

pub const ROW_STATE_SIZE: usize = ROW[3 * table::ROW_STATE + 1];

pub const PARITY_AT: usize = ROW[3 * table::PARITY] - 1;

pub const ROW_ESN_AT: usize = ROW[3 * table::ROW_ESN] - 1;

pub const ROW_ESN_SIZE: usize = ROW[3 * table::ROW_ESN + 1];

pub const ROW_FREE_AT: usize = ROW[3 * table::ROW_FREE] - 1;

pub const ROW_FREE_SIZE: usize = ROW[3 * table::ROW_FREE + 1];

pub const ROW_FUNCTION_AT: usize = ROW[3 * table::ROW_FUNCTION] - 1;

pub const ROW_STAR_AT: usize = ROW[3 * table::ROW_STAR] - 1;

pub const ROW_SPAN_SIZE: usize = ROW_POST_AT + ROW_POST_SIZE - ROW_PREFIX_AT;

pub const ROW_PLACE_SIZE: usize = ROW_STATE_AT + ROW_STATE_SIZE - ROW_COMMUNITY_AT;

// Header and trailer. The trailer's letters, date, name and `*` lie where the header's do: `same_frame_lem` of the definitions.
pub const OPENER_AT: usize = HEADER[3 * table::OPENER] - 1;

pub const FRAME_DATE_AT: usize = HEADER[3 * table::FRAME_DATE] - 1;

pub const FRAME_DATE_SIZE: usize = HEADER[3 * table::FRAME_DATE + 1];

pub const NAME_AT: usize = HEADER[3 * table::NAME] - 1;

pub const NAME_SIZE: usize = HEADER[3 * table::NAME + 1];

pub const CYCLE_AT: usize = HEADER[3 * table::CYCLE] - 1;

pub const CYCLE_SIZE: usize = HEADER[3 * table::CYCLE + 1];

pub const COUNT_AT: usize = TRAILER[3 * table::COUNT] - 1;

pub const COUNT_SIZE: usize = TRAILER[3 * table::COUNT + 1];

pub const FRAME_STAR_AT: usize = HEADER[3 * table::FRAME_STAR] - 1;

// How many bytes a line has: its `*` is the last.
pub const RECORD_SIZE: usize = RECORD_STAR_AT + 1;

pub const NARROW_SIZE: usize = NARROW[3 * table::RECORD_STAR];

pub const ROW_SIZE: usize = ROW_STAR_AT + 1;

pub const FRAME_SIZE: usize = FRAME_STAR_AT + 1;

// The free part of header and trailer is shorter in Version 1.
pub const NARROW_FRAME_SIZE: usize = 160;
