// Where a record has each field, by the section and the name of the field: the same in the table's row and in the lists.
// They follow from the order of the fields; what each is, the definitions say by the name (`place_of`), and a law computes them all (proofs/SizeLaws).
pub const VERSION: usize = 0;

pub const SEND_LEAST: usize = 6;

pub const SEND_GREATEST: usize = 7;

pub const RECEIVE_LEAST: usize = 8;

pub const RECEIVE_GREATEST: usize = 9;

// The same in the header's list, which has no counts.
pub const LIST_VERSION: usize = 0;

pub const LIST_SEND_LEAST: usize = 1;

pub const LIST_SEND_GREATEST: usize = 2;

pub const LIST_RECEIVE_LEAST: usize = 3;

pub const LIST_RECEIVE_GREATEST: usize = 4;

// The records.
pub const SYSTEM_SPEED: usize = 0;

pub const VL_SYSTEM: usize = 0;

pub const VL_GAP: usize = 1;

pub const VL_SUBLINKS: usize = 2;

pub const VL_LMAX: usize = 3;

pub const STREAM_VL: usize = 0;

pub const STREAM_SUBLINK: usize = 1;

pub const STREAM_KIND: usize = 2;

pub const STREAM_SIZE: usize = 3;

pub const STREAM_LEAST_SIZE: usize = 4;

pub const STREAM_PERIOD: usize = 5;

pub const STREAM_JITTER: usize = 6;

pub const PORT_SPEED: usize = 0;

pub const PORT_LEAST: usize = 1;

pub const PORT_GREATEST: usize = 2;

pub const HOP_VL: usize = 0;

pub const HOP_PORT: usize = 1;

pub const HOP_PARENT: usize = 2;
