// The reader over the unpacker: what that refuses is refused, and else the references are tested on the sheet that it filled.
// The table's bits are read twice: once to test its rows, once to fill the sheet, which is handed out. It is cleared once and first, so that a caller's own zeros are spared.
ghost use Rattle.std.specs.Prelude.{◌≡◌};
ghost use Rattle.table.specs.Read.{read_answer};
ghost use Rattle.table.specs.Refusals.{said};
ghost use Rattle.reader.specs.Reading.{read_sheet};

use crate::{loading, references};
use sheet::Sheet;
use table::Refusal;

// Whether the table is accepted, and the sheet: the network of an accepted table, and zeros on a refusal.
pub fn read(table: &[u8], sheet: &mut Sheet) -> Result<(), Refusal>
    ensures answer { said result ≡ read_answer table.now }
    ensures network { sheet.new ≡ read_sheet table.now }
{
    sheet.clear();
    if let Err(refusal) = unpacker::own_answer(table) {
        return Err(refusal);
    }
    loading::load(table, sheet);
    let answer = references::references(sheet);
    if let Err(_) = answer {
        sheet.clear();
    }
    answer
}

// The answer alone.
pub fn check(table: &[u8]) -> Result<(), Refusal>
    ensures { said result ≡ read_answer table.now }
{
    let mut sheet = Sheet::blank();
    read(table, &mut sheet)
}
