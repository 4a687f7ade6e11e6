//! What bytes that are no code are told as: zeros, a text, words, or a byte.
ghost use Rattle.std.specs.Prelude.{◌≡◌, ◌+◌, ◌<◌, ◌≤◌, ◌^◌, drop, length};
ghost use Rattle.m88_sourcing.specs.Data.{is_word_here, item_here, item_length, most_in_line, printed_here, text_ended, text_here, words_here, zeros_here};
ghost use Rattle.m88_sourcing.specs.Inside.Finding.{IsFinding, SameBytes};

/// The fewest zeros that are told as a count.
const FEWEST_ZEROS: usize = 16;

/// The fewest blanks, letters, digits and marks that are a text.
const FEWEST_PRINTED: usize = 8;

/// The most words in a line.
const MOST_WORDS: usize = 8;

/// What stands first of bytes that are no code.
#[derive(Clone, Copy, PartialEq, Eq, Debug)]
pub(crate) enum Item {
    /// So many bytes that are 0.
    Zeros(usize),
    /// A text of so many bytes, with its end where that belongs to it.
    Text(usize),
    /// So many words at multiples of 4.
    Words(usize),
    /// A byte by itself.
    Lone,
}

impl Item {
    /// How many bytes it has.
    pub fn len(self) -> usize
        requires { item_length self < 2 ^ 64 }
        ensures { result ≡ item_length self }
    {
        match self {
            Item::Zeros(count) | Item::Text(count) => count,
            Item::Words(count) => 4 * count,
            Item::Lone => 1,
        }
    }
}

/// How many bytes that are 0 stand first.
fn zeros_len(bytes: &[u8]) -> usize
    ensures { result ≡ zeros_here bytes.now }
{
    bytes.iter().take_while(|b| **b == 0).count()
}

/// How many blanks, letters, digits and marks stand first.
fn printed_len(bytes: &[u8]) -> usize
    ensures value { result ≡ printed_here bytes.now }
    ensures within { result ≤ length bytes.now }
{
    bytes.iter().take_while(|b| 32 <= **b && **b <= 126).count()
}

/// The length of a text of so many printed bytes with its end, by what stands behind them; 0 where that ends no text.
fn ended_len(printed: usize, behind: &[u8]) -> usize
    requires { printed + length behind.now < 2 ^ 63 }
    ensures { result ≡ text_ended printed behind.now }
{
    match behind {
        [0 | b'\n', ..] => printed + 1,
        [b'\r', ..] => printed,
        _ => 0,
    }
}

/// The length of the text that stands first, where so many printed bytes do; 0 where none does.
fn text_len(bytes: &[u8], printed: usize) -> usize
    requires { printed ≡ printed_here bytes.now }
    ensures { result ≡ text_here bytes.now }
{
    if printed < FEWEST_PRINTED {
        return 0;
    }
    let (_, behind) = bytes.split_at(printed);
    ended_len(printed, behind)
}

/// Bytes that are no code from an address on, in which items are looked for from front to back. Where printed bytes
/// that no text ends were seen it is kept, so that each byte is looked at a few times at most.
#[derive(Drop)]
pub(crate) struct Finding<'a> {
    at: u32,
    bytes: &'a [u8],
    /// No text begins at a place from `from` on and before `to`.
    from: usize,
    to: usize,
}

impl<'a> Finding<'a> {
    pub fn new(at: u32, bytes: &'a [u8]) -> Finding<'a>
        ensures finding { IsFinding result }
        ensures at { result.at ≡ at }
        ensures bytes { result.bytes.now ≡ bytes.now }
    {
        Finding {
            at,
            bytes,
            from: 0,
            to: 0,
        }
    }

    /// The length of the text that begins at a place, 0 where none does.
    fn text_at(&mut self, place: usize) -> usize
        requires finding { IsFinding self.old }
        requires within { place ≤ length self.old.bytes.now }
        ensures value { result ≡ text_here (drop place self.old.bytes.now) }
        ensures finding { IsFinding self.new }
        ensures same { SameBytes self.old self.new }
    {
        if self.from <= place && place < self.to {
            return 0;
        }
        let (_, rest) = self.bytes.split_at(place);
        let printed = printed_len(rest);
        let len = text_len(rest, printed);
        if len == 0 {
            self.from = place;
            self.to = place + printed;
        }
        len
    }

    /// Whether a word by itself begins at a place.
    fn is_word_at(&mut self, place: usize) -> bool
        requires finding { IsFinding self.old }
        requires within { place ≤ length self.old.bytes.now }
        ensures value { result
            ≡ is_word_here (self.old.at + place) (drop place self.old.bytes.now) }
        ensures finding { IsFinding self.new }
        ensures same { SameBytes self.old self.new }
    {
        let (_, rest) = self.bytes.split_at(place);
        let at = self.at as usize + place;
        at % 4 == 0 && rest.len() >= 4 && zeros_len(rest) < FEWEST_ZEROS && self.text_at(place) == 0
    }

    /// How many words begin at a place in turn, at most as many as a line has.
    fn words_at(&mut self, place: usize) -> usize
        requires finding { IsFinding self.old }
        requires within { place ≤ length self.old.bytes.now }
        ensures value { result
            ≡ words_here most_in_line (self.old.at + place) (drop place self.old.bytes.now) }
        ensures finding { IsFinding self.new }
        ensures same { SameBytes self.old self.new }
    {
        for count in 0..MOST_WORDS {
            if !self.is_word_at(place + 4 * count) {
                return count;
            }
        }
        MOST_WORDS
    }

    /// The item that begins at a place.
    pub fn item_at(&mut self, place: usize) -> Item
        requires finding { IsFinding self.old }
        requires within { place ≤ length self.old.bytes.now }
        ensures value { result ≡ item_here (self.old.at + place) (drop place self.old.bytes.now) }
        ensures some { 0 < item_length result }
        ensures fits { place < length self.old.bytes.now
            → place + item_length result ≤ length self.old.bytes.now }
        ensures finding { IsFinding self.new }
        ensures same { SameBytes self.old self.new }
    {
        let (_, rest) = self.bytes.split_at(place);
        let zeros = zeros_len(rest);
        if zeros >= FEWEST_ZEROS {
            return Item::Zeros(zeros);
        }
        let text = self.text_at(place);
        if text > 0 {
            return Item::Text(text);
        }
        let words = self.words_at(place);
        if words > 0 {
            Item::Words(words)
        } else {
            Item::Lone
        }
    }
}
