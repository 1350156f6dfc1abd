// The numbers that the lines of a section say, in the room that is lent for them, and the version of a text.
// Each is one pass over the lines.
ghost use Rattle.std.specs.Prelude.{◌≡◌, ◌≤◌, length};
ghost use Rattle.notation.specs.Meant.{text_lines, section_in, version_in};
ghost use Rattle.notation.specs.Steps.{fields_of};
ghost use Rattle.notation.specs.Fitted.{held, fitted};
ghost use Rattle.parser.specs.Lines.{list_with, place_with};

use crate::lines::line_of;

// Puts numbers at a place of a list, where there is room for all of them, and answers the place behind.
pub(crate) fn put_numbers(list: &mut [u64], at: usize, numbers: &[u64]) -> usize
    requires { at ≤ length list.old }
    ensures behind { result ≡ place_with list.old at numbers.now }
    ensures put { list.new ≡ list_with list.old at numbers.now }
{
    // most lines are of other sections
    if numbers.is_empty() {
        return at;
    }
    if list.len() - at < numbers.len() {
        return at;
    }
    let behind = at + numbers.len();
    list[at..behind].copy_from_slice(numbers);
    behind
}

// The numbers that the lines of a section say, as many whole records as the list has room for, and zeros behind; and how many
// they are.
pub fn fill(text: &[u8], version: u64, section: usize, list: &mut [u64]) -> usize
    ensures count { result ≡ length
        (held (fields_of section) (length list.old) (section_in version section (text_lines text.now))) }
    ensures put { list.new ≡ fitted (fields_of section) (length list.old)
        (section_in version section (text_lines text.now)) }
{
    list.fill(0);
    let mut at = 0;
    let mut put = 0;
    while at <= text.len() {
        let end = words::line_end(text, at);
        let line = line_of(text, at, end, version);
        put = put_numbers(list, put, line.numbers_of(section));
        at = end + 1;
    }
    put
}

// The version that a text says, wherever its line stands; 1 where none does.
pub fn version_of(text: &[u8]) -> u64
    ensures { result ≡ version_in (text_lines text.now) }
{
    let mut version = [0u64; 1];
    if fill(text, 1, 6, &mut version) == 0 {
        return 1;
    }
    version[0]
}
