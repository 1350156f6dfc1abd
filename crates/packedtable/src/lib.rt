// What a supplier of tables links: the unpacker and the writer of the packed table, as functions that C calls.
// Bytes and flat lists of numbers are lent; a struct of number, section, row, test and values goes out. Both answer for all input, as the unpacker and the writer do.
#![tactic(auto)]

ghost use Rattle.std.specs.Prelude.{◌≡◌, length};
ghost use Rattle.table.specs.Lists.{lists};
ghost use Rattle.table.specs.Unpack.{unpacked_by, Unpacks};
ghost use Rattle.table.specs.Write.{written_by, Writes};
ghost use Rattle.packedtable.specs.Answers.{unpack_said, write_said};

use table::{Counts, Lists, ListsMut, Refusal};
use unpacker::unpack;
use writer::write;

// The unpacker's answer, and how many records it wrote to each list.
#[repr(C)]
#[derive(Clone, Copy)]
pub struct UnpackAnswer {
    pub number: u64,
    pub section: u64,
    pub row: u64,
    pub test: u64,
    pub systems: usize,
    pub vls: usize,
    pub streams: usize,
    pub ports: usize,
    pub hops: usize,
}

// The header's version and delays, and the table's records, section by section: gaps in milliseconds, speeds in Mbit/s, no padding. Gives the answers 1 to 4 and 11.
#[unsafe(no_mangle)]
pub extern "C" fn avulgjesh_unpack(
    table: &[u8],
    header: &mut [u64],
    systems: &mut [u64],
    vls: &mut [u64],
    streams: &mut [u64],
    ports: &mut [u64],
    hops: &mut [u64],
) -> UnpackAnswer
    ensures { Unpacks
        table.now
        (lists
        header.old
        systems.old
        vls.old
        streams.old
        ports.old
        hops.old)
        (unpack_said result)
        (lists
        header.new
        systems.new
        vls.new
        streams.new
        ports.new
        hops.new) }
{
    let lent = ListsMut {
        header,
        systems,
        vls,
        streams,
        ports,
        hops,
    };
    unpack_answer(unpack(table, lent))
}

// No record is counted on a refusal.
#[tactic(auto, unfolding(crate::specs::Answers::unpack_said, table::specs::Unpack::unpacked_by))]
fn unpack_answer(unpacked: Result<Counts, Refusal>) -> UnpackAnswer
    ensures { unpack_said result ≡ unpacked_by unpacked }
{
    match unpacked {
        Ok(counts) => UnpackAnswer {
            number: 0,
            section: 0,
            row: 0,
            test: 0,
            systems: counts.systems,
            vls: counts.vls,
            streams: counts.streams,
            ports: counts.ports,
            hops: counts.hops,
        },
        Err(refusal) => {
            let answer = refusal.answer();
            UnpackAnswer {
                number: answer.number,
                section: answer.section,
                row: answer.row,
                test: answer.test,
                systems: 0,
                vls: 0,
                streams: 0,
                ports: 0,
                hops: 0,
            }
        }
    }
}

// The writer's answer, and how many bytes the table has.
#[repr(C)]
#[derive(Clone, Copy)]
pub struct WriteAnswer {
    pub number: u64,
    pub section: u64,
    pub row: u64,
    pub test: u64,
    pub length: usize,
}

// The table's bytes from its lists. Gives the answers 2, 4 and 11.
#[unsafe(no_mangle)]
pub extern "C" fn avulgjesh_write(
    header: &[u64],
    systems: &[u64],
    vls: &[u64],
    streams: &[u64],
    ports: &[u64],
    hops: &[u64],
    out: &mut [u8],
) -> WriteAnswer
    ensures { Writes
        (lists
        header.now
        systems.now
        vls.now
        streams.now
        ports.now
        hops.now)
        (length out.old)
        (write_said result)
        out.new }
{
    let given = Lists {
        header,
        systems,
        vls,
        streams,
        ports,
        hops,
    };
    write_answer(write(given, out))
}

// No byte is counted on a refusal.
#[tactic(auto, unfolding(crate::specs::Answers::write_said, table::specs::Write::written_by))]
fn write_answer(written: Result<usize, Refusal>) -> WriteAnswer
    ensures { write_said result ≡ written_by written }
{
    match written {
        Ok(length) => WriteAnswer {
            number: 0,
            section: 0,
            row: 0,
            test: 0,
            length,
        },
        Err(refusal) => {
            let answer = refusal.answer();
            WriteAnswer {
                number: answer.number,
                section: answer.section,
                row: answer.row,
                test: answer.test,
                length: 0,
            }
        }
    }
}
