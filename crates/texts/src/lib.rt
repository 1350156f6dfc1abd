// Tables as text, both ways: `pack` makes a table of a text, and answers for all input. That a table goes to text and back is a theorem of
// specs/, said of what the routines promise.
#![tactic(auto)]

ghost use Rattle.std.specs.Prelude.{◌≤◌, length, get_or, take};
ghost use Rattle.table.specs.Lists.{lists};
ghost use Rattle.table.specs.Write.{Writes, written_by};
ghost use Rattle.texts.specs.Packing.{PacksTo};

use layout::sizes;
use parser::Mistake;
use table::{Lists, ListsMut, Refusal};

// Why a text is not packed: its first mistake, or why the writer refuses the lists that it says.
#[derive(Clone, Copy, PartialEq, Eq, Debug)]
pub enum PackError {
    Mistaken(Mistake),
    Refused(Refusal),
}

impl From<Mistake> for PackError {
    ghost use Rattle.std.specs.Prelude.{◌≡◌};
    ghost use Rattle.texts.specs.declared.PackError.TheVariants.{Mistaken};

    ghost from_gives = { λ m e. e ≡ Mistaken m };

    fn from(mistake: Mistake) -> PackError {
        PackError::Mistaken(mistake)
    }
}

impl From<Refusal> for PackError {
    ghost use Rattle.std.specs.Prelude.{◌≡◌};
    ghost use Rattle.texts.specs.declared.PackError.TheVariants.{Refused};

    ghost from_gives = { λ r e. e ≡ Refused r };

    fn from(refusal: Refusal) -> PackError {
        PackError::Refused(refusal)
    }
}

// Writes the table of the first so many numbers of each list.
fn write_first(lists: Lists<'_>, lengths: [usize; 6], out: &mut [u8]) -> Result<usize, Refusal>
    requires { (get_or lengths 0 0 ≤ length lists.header.now)
        × (get_or lengths 1 0 ≤ length lists.systems.now)
        × (get_or lengths 2 0 ≤ length lists.vls.now)
        × (get_or lengths 3 0 ≤ length lists.streams.now)
        × (get_or lengths 4 0 ≤ length lists.ports.now)
        × (get_or lengths 5 0 ≤ length lists.hops.now) }
    ensures { Writes (record {
      header = take (get_or lengths 0 0) lists.entry.header.now;
      systems = take (get_or lengths 1 0) lists.entry.systems.now;
      vls = take (get_or lengths 2 0) lists.entry.vls.now;
      streams = take (get_or lengths 3 0) lists.entry.streams.now;
      ports = take (get_or lengths 4 0) lists.entry.ports.now;
      hops = take (get_or lengths 5 0) lists.entry.hops.now;
    }) (length out.old) (written_by result) out.new }
{
    let firsts = Lists {
        header: &lists.header[..lengths[0]],
        systems: &lists.systems[..lengths[1]],
        vls: &lists.vls[..lengths[2]],
        streams: &lists.streams[..lengths[3]],
        ports: &lists.ports[..lengths[4]],
        hops: &lists.hops[..lengths[5]],
    };
    writer::write(firsts, out)
}

// Packs a text to a table's bytes, and answers how many they are. On a mistake every lent byte is 0; otherwise they are as the writer leaves them.
pub fn pack(text: &[u8], out: &mut [u8]) -> Result<usize, PackError>
    ensures { PacksTo text.now out.old result out.new }
{
    let mut header = [0u64; sizes::HEADER_LIST];
    let mut systems = [0u64; sizes::SYSTEMS];
    let mut vls = [0u64; sizes::VLS];
    let mut streams = [0u64; sizes::STREAMS];
    let mut ports = [0u64; sizes::PORTS];
    let mut hops = [0u64; sizes::HOPS];
    let lent = ListsMut {
        header: &mut header,
        systems: &mut systems,
        vls: &mut vls,
        streams: &mut streams,
        ports: &mut ports,
        hops: &mut hops,
    };
    // The writer clears what it is lent: so on a mistake alone, which it does not see.
    let lengths = match parser::read(text, lent) {
        Ok(lengths) => lengths,
        Err(mistake) => {
            writer::clear(out);
            return Err(mistake.into());
        }
    };
    let lists = Lists {
        header: &header,
        systems: &systems,
        vls: &vls,
        streams: &streams,
        ports: &ports,
        hops: &hops,
    };
    Ok(write_first(lists, lengths, out)?)
}
