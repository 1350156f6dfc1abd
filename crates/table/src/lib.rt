// The packed table as definitions (specs/): its sections, what the unpacker and the writer leave, the network that it describes, 01's answers 1 to 6; and laws and theorems of these (proofs/).
// Here is what its routines hand one another: the refusals and 01's numbers of them, and the lists of numbers that are lent.
#![tactic(auto)]

ghost use Rattle.std.specs.Prelude.{◌≡◌};
ghost use Rattle.table.specs.Answers.{answer};
ghost use Rattle.table.specs.Refusals.{answer_of};

// 01's answer: number, section and row; and the named test that failed, where the number has several.
#[derive(Clone, Copy, PartialEq, Eq, Debug)]
pub struct Answer {
    pub number: u64,
    pub section: u64,
    pub row: u64,
    pub test: u64,
}

impl Answer {
    // 0: accepted, with section and row 0.
    pub const ACCEPTED: Answer = Answer {
        number: 0,
        section: 0,
        row: 0,
        test: 0,
    };
}

// Why a table or its lists are refused, in the order in which 01 tests.
#[derive(Clone, Copy, PartialEq, Eq, Debug)]
pub enum Refusal {
    // fewer bytes than a header has
    TooShort,
    // a field of the header, or lists that are no whole number of records
    Header { test: u64 },
    // not as many bytes as the counts require
    WrongLength,
    // a field of a record
    Record { section: u64, row: u64, test: u64 },
    // a row that names what is not there, or what it may not name
    Reference { section: u64, row: u64, test: u64 },
    // a stream whose sampling message needs more than one packet
    Sample { row: u64 },
    // an end system whose frames do not keep to equation 1
    LateSystem { row: u64 },
    // more rows than a result may have
    TooManyRows,
    // fewer numbers lent than the rows take
    ResultTooShort,
    // a VL with a queue that has no busy length
    EndlessQueue { row: u64 },
    // a port that has none
    EndlessPort { row: u64 },
    // lists or bytes that are lent are too short
    NoRoom,
}

impl Refusal {
    // 01's number, section and row of it.
    #[tactic(auto, unfolding(crate::specs::Refusals::answer_of))]
    pub fn answer(self) -> Answer
        ensures { result ≡ answer_of self }
    {
        match self {
            Refusal::TooShort => refused(1, 0, 0, 0),
            Refusal::Header { test } => refused(2, 0, 0, test),
            Refusal::WrongLength => refused(3, 0, 0, 0),
            Refusal::Record { section, row, test } => refused(4, section, row, test),
            Refusal::Reference { section, row, test } => refused(5, section, row, test),
            Refusal::Sample { row } => refused(6, 3, row, 0),
            Refusal::LateSystem { row } => refused(7, 1, row, 0),
            Refusal::TooManyRows => refused(8, 0, 0, 0),
            Refusal::ResultTooShort => refused(8, 0, 0, 1),
            Refusal::EndlessQueue { row } => refused(9, 2, row, 0),
            Refusal::EndlessPort { row } => refused(10, 4, row, 0),
            Refusal::NoRoom => refused(11, 0, 0, 0),
        }
    }
}

fn refused(number: u64, section: u64, row: u64, test: u64) -> Answer
    ensures { result ≡ answer number section row test }
{
    Answer {
        number,
        section,
        row,
        test,
    }
}

// How many records each section has; the header is one always.
#[derive(Clone, Copy, PartialEq, Eq, Debug)]
pub struct Counts {
    pub systems: usize,
    pub vls: usize,
    pub streams: usize,
    pub ports: usize,
    pub hops: usize,
}

// The six lists of numbers that a table is written from: the header's, and the records of each section.
#[derive(Clone, Copy)]
pub struct Lists<'a> {
    pub header: &'a [u64],
    pub systems: &'a [u64],
    pub vls: &'a [u64],
    pub streams: &'a [u64],
    pub ports: &'a [u64],
    pub hops: &'a [u64],
}

// The same, lent to be written.
#[derive(Drop)]
pub struct ListsMut<'a> {
    pub header: &'a mut [u64],
    pub systems: &'a mut [u64],
    pub vls: &'a mut [u64],
    pub streams: &'a mut [u64],
    pub ports: &'a mut [u64],
    pub hops: &'a mut [u64],
}
