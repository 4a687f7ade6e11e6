//! Which words a service was made with as 0 because nobody gave them, by the input and by what was written of it.

use m88_base::{hex8_of, split_at_byte};

/// How many transactions a record has.
const MOST: usize = 3;

/// How many digits an address has.
const DIGITS: usize = 8;

/// How a store of a whole word ends before its address; it needs no word.
const STORE: &[u8] = b" store to ";

/// The words that transactions take as 0, in their order, each once.
#[derive(Clone, Copy)]
pub struct Unnamed {
    /// The words of the transactions so far.
    seen: [Option<u32>; MOST],
    /// Which of them nobody gave.
    pub taken: [Option<u32>; MOST],
}

impl Unnamed {
    /// Those of a fault's input, by the lines that its service begins with.
    pub fn of(input: &[u8], service: &[u8]) -> Unnamed {
        let mut words = Unnamed {
            seen: [None; MOST],
            taken: [None; MOST],
        };
        let mut lines = service.split(|byte| *byte == b'\n');
        for at in 0..MOST {
            let Some((word, is_stored)) = lines.next().and_then(|line| access_in(line)) else {
                break;
            };
            if !is_stored && !words.seen.contains(&Some(word)) && !is_named(input, word) {
                words.taken[at] = Some(word);
            }
            words.seen[at] = Some(word);
        }
        words
    }
}

/// The word of a line's access, and whether the whole of it is stored; None where the line has none.
fn access_in(line: &[u8]) -> Option<(u32, bool)> {
    if !line.starts_with(b"t") {
        return None;
    }
    let (access, _) = split_at_byte(b':', line)?;
    let (before, address) = access.split_at_checked(access.len().checked_sub(DIGITS)?)?;
    let address = hex8_of(address)?;
    Some((address / 4 * 4, before.ends_with(STORE)))
}

/// Whether a line of an input gives a word.
fn is_named(input: &[u8], word: u32) -> bool {
    for line in input.split(|byte| *byte == b'\n') {
        if let Some(digits) = line.strip_prefix(b"mem ".as_slice())
            && hex8_of(&digits[..digits.len().min(DIGITS)]) == Some(word)
        {
            return true;
        }
    }
    false
}
