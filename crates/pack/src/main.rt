// Reads a table's text from standard input and writes the packed table to standard output.
// What table a text makes, `texts` says. On anything wrong nothing is written there, and one sentence on standard error says what.
#![tactic(auto)]

mod mistakes;
mod names;
mod refusals;

use layout::sizes;
use text::Text;
use texts::PackError;

// The longest text, and one byte more, so that a longer one is seen to be too long.
const MOST_TEXT: usize = 262_144;

const MOST_BYTES: usize = MOST_TEXT + 1;

// The longest sentence: a line's number, two names and a word of forty bytes are in it.
const LINE: usize = 256;

// Says what is wrong with a text.
fn say(given: &[u8], error: PackError) {
    let mut line = [0; LINE];
    let mut text = Text::new(&mut line);
    let version = parser::version_of(given);
    match error {
        PackError::Mistaken(mistake) => {
            mistakes::put_mistake(&mut text, given, version, mistake);
        }
        PackError::Refused(refusal) => {
            refusals::put_refusal(&mut text, given, version, refusal);
        }
    }
    console::give_up(text.written());
}

// Packs a text and writes its table, or says what is wrong with it.
fn pack(given: &[u8]) {
    let mut table = [0; sizes::TABLE];
    match texts::pack(given, &mut table) {
        Ok(used) => {
            if console::write_first(&table, used).is_err() {
                console::give_up(b"pack: the table could not be written whole\n");
            }
        }
        Err(error) => say(given, error),
    }
}

fn main(rt: HostRuntime) {
    let mut bytes = [0; MOST_BYTES];
    let Ok(used) = console::read_input(rt.stdin(), &mut bytes) else {
        return console::give_up(b"pack: the text could not be read\n");
    };
    if MOST_TEXT < used {
        return console::give_up(b"pack: the text is longer than 262144 bytes\n");
    }
    pack(&bytes[..used]);
}
