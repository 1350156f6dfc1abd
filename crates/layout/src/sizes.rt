// How long records, lists of numbers and tables are.
// All follow from the fields of a record and the counts that the header admits; what each is, the definitions say by the section (specs/Sizes).

// The kinds of records.
pub const KINDS: usize = 6;

// The bytes that a record takes in the table.
pub const HEADER_BYTES: usize = 14;

pub const SYSTEM_BYTES: usize = 1;

pub const VL_BYTES: usize = 3;

pub const STREAM_BYTES: usize = 13;

pub const PORT_BYTES: usize = 4;

pub const HOP_BYTES: usize = 4;

// The numbers that a record has in a list: all its fields but the padding.
pub const HEADER: usize = 10;

pub const SYSTEM: usize = 1;

pub const VL: usize = 4;

pub const STREAM: usize = 7;

pub const PORT: usize = 3;

pub const HOP: usize = 3;

// The most fields that a record has, which are the header's.
pub const LONGEST: usize = 11;

// The most records of a section.
pub const MOST_SYSTEMS: usize = 64;

pub const MOST_VLS: usize = 256;

pub const MOST_STREAMS: usize = 512;

pub const MOST_PORTS: usize = 128;

pub const MOST_HOPS: usize = 1_024;

// The most sub-links of a VL.
pub const MOST_SUBLINKS: usize = 4;

// The most rows of a result, and the queue figures of all VLs: one for each sub-link that a VL may have.
pub const MOST_ROWS: usize = 1_024;

pub const QUEUES: usize = MOST_VLS * MOST_SUBLINKS;

// The numbers of each list, where it holds the most records: the header's are the version and the four delays.
pub const HEADER_LIST: usize = 5;

pub const SYSTEMS: usize = MOST_SYSTEMS * SYSTEM;

pub const VLS: usize = MOST_VLS * VL;

pub const STREAMS: usize = MOST_STREAMS * STREAM;

pub const PORTS: usize = MOST_PORTS * PORT;

pub const HOPS: usize = MOST_HOPS * HOP;

// The bytes of the longest table: the header's, and those of the most records of each section.
pub const TABLE: usize = HEADER_BYTES
    + MOST_SYSTEMS * SYSTEM_BYTES
    + MOST_VLS * VL_BYTES
    + MOST_STREAMS * STREAM_BYTES
    + MOST_PORTS * PORT_BYTES
    + MOST_HOPS * HOP_BYTES;
