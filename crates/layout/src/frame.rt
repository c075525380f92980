// What a header is read to.
use crate::counter::Cycle;
use calendar::Day;

// What a step knows of the file that its record stands in.
#[derive(Clone, Copy)]
pub struct Header {
    pub day: Day,
    pub cycle: Cycle,
}
