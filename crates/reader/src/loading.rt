// Fills a sheet of zeros from a table that 1 to 4 are not given to: the header's numbers, the counts, and each section's records in its list.
// So much of a list is lent to the unpacker as the records take, so that no number is cleared once more and no list stands anywhere else.
ghost use Rattle.std.specs.Prelude.{◌≡◌};
ghost use Rattle.table.specs.Lists.{unpacked};
ghost use Rattle.unpacker.specs.Unpacking.{table_answer};
ghost use Rattle.sheet.specs.Sheet.{blank, sheet_of};

use layout::sizes;
use sheet::Sheet;

pub fn load(table: &[u8], sheet: &mut Sheet)
    requires { ((table_answer table.now).number ≡ 0) × (sheet.old ≡ blank) }
    ensures { sheet.new ≡ sheet_of (unpacked table.now) }
{
    let counts = unpacker::counts(table);
    sheet.header = unpacker::header_list(table);
    sheet.counts = counts;
    unpacker::fill_section(
        table,
        1,
        &mut sheet.systems[..counts.systems * sizes::SYSTEM],
    );
    unpacker::fill_section(table, 2, &mut sheet.vls[..counts.vls * sizes::VL]);
    unpacker::fill_section(
        table,
        3,
        &mut sheet.streams[..counts.streams * sizes::STREAM],
    );
    unpacker::fill_section(table, 4, &mut sheet.ports[..counts.ports * sizes::PORT]);
    unpacker::fill_section(table, 5, &mut sheet.hops[..counts.hops * sizes::HOP]);
}
