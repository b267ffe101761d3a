/// The most bytes that a frame may have (ISO/IEC 13157-1, clause 11), and the fewest that a buffer for a reply must have, however short the
/// reply is.
pub const MAX_FRAME: usize = 255;

/// The most bytes that may follow the first byte of a frame, and so the most of a payload.
pub const MAX_PAYLOAD: usize = MAX_FRAME - 1;
