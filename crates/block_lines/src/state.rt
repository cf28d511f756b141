// What the lines read so far tell.
use record::Record;

/// What the lines so far tell. The reader of a line is handed it, and hands back the line's number of bytes with what is told by then,
/// or `None` where its bytes are no such line.
#[derive(Clone, Copy, Debug, PartialEq, Eq)]
pub struct State {
    pub known: Record,
    /// The minutes of the offset alone.
    pub minutes: u32,
    /// No minus stands on an offset of zero.
    pub zone: bool,
    /// No minus stands on a zero of the position.
    pub place: bool,
    /// The minutes of the position alone are below 60.
    pub arc: bool,
}
