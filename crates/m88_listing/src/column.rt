//! The columns of lines that give no bytes, counted on from line to line.
ghost use Rattle.std.specs.Prelude.{◌≡◌, ◌+◌, ◌<◌, ◌^◌, ◌++◌, [], decimal, length, take, IfNone, IfSome, MatchOption, OnOk};
ghost use Rattle.m88_base.specs.Cut.{Lacks};
ghost use Rattle.m88_base.specs.Lines.{line_end, line_feed};
ghost use Rattle.m88_listing.specs.Columns.{at_right, bare_line, columns, no_address};
ghost use Rattle.m88_listing.specs.Inside.Pushed.{HasRoomForLine, IsFirstFeed, PushesFirst};

use crate::block::Block;
use itoa::write_digits;
use memchr::memchr_iter;
use std::alloc::AllocError;
use std::marker::Model;

/// How many bytes a short line has at most, its end with them.
const NEAR: usize = 64;

/// The columns of a line that gives no bytes, by its number. `alone` is the whole line of an empty one, with its end;
/// `head` stands before any other.
#[derive(Drop)]
pub(crate) struct Column {
    number: u64,
    alone: [u8; 8],
    head: [u8; 40],
}

impl Model for Column {
    ghost use Rattle.std.specs.Prelude.{◌≡◌, ◌<◌, ◌^◌, ◌++◌, [], ℕ, decimal};
    ghost use Rattle.m88_base.specs.Lines.{line_end};
    ghost use Rattle.m88_listing.specs.Columns.{at_right, columns, no_address};

    ghost Value = { ℕ };

    ghost view = { λ c. c.number };

    ghost invariant = { λ c. (c.number < 10 ^ 7) × (c.alone ≡ at_right 7 (decimal c.number) ++ line_end)
        × (c.head ≡ columns c.number no_address []) };
}

impl Column {
    /// The columns of the line of a number of at most seven digits.
    pub fn new(number: u64) -> Column
        requires { number < 10 ^ 7 }
        ensures { result ≡ number }
    {
        let alone = alone(number);
        let mut head = [b' '; 40];
        head[..7].copy_from_slice(&alone[..7]);
        Column {
            number,
            alone,
            head,
        }
    }

    /// The number of the line.
    pub fn number(&self) -> u64
        ensures { result ≡ self.now }
    {
        self.number
    }

    /// Makes of them the columns of the next line: mostly the last digit of the number is one more.
    pub fn count_on(&mut self)
        requires { self.old + 1 < 10 ^ 7 }
        ensures { self.new ≡ self.old + 1 }
    {
        if self.alone[6] < b'9' {
            let digit = self.alone[6] + 1;
            self.number += 1;
            self.alone[6] = digit;
            self.head[6] = digit;
        } else {
            self.set(self.number + 1);
        }
    }

    /// Makes of them the columns of the line of a number. It stands apart, so that counting on is short.
    #[inline(never)]
    fn set(&mut self, number: u64)
        requires { number < 10 ^ 7 }
        ensures { self.new ≡ number }
    {
        let line = alone(number);
        self.number = number;
        self.head[..7].copy_from_slice(&line[..7]);
        self.alone = line;
    }

    /// Puts the first line of what is left of a source behind its columns into a block that has room for it, and
    /// answers what is left then. None where that line is long, or stands near the end of the source.
    pub fn put_short<'a>(&self, block: &mut Block, rest: &'a [u8]) -> Option<&'a [u8]>
        requires { HasRoomForLine block.old }
        ensures some { IfSome result (λ left.
            PushesFirst self.now rest.now block.old block.new left.now) }
        ensures none { IfNone result (block.new ≡ block.old) }
    {
        let (near, _) = rest.split_first_chunk::<NEAR>()?;
        let len = feed_at(near)?;
        let (ended, _) = near.split_at(len);
        let (_, left) = rest.split_at(len + 1);
        match ended.split_last() {
            None => {
                block.put(&self.alone, 8);
                Some(left)
            }
            Some((last, line)) => {
                if *last == b'\r' {
                    self.put_line(block, near, line.len());
                    return Some(left);
                }
                block.put(&self.head, 40);
                block.put(near, len + 1);
                Some(left)
            }
        }
    }

    /// Puts the first of some bytes, so many of them, as a line behind its columns into a block that has room for it.
    fn put_line(&self, block: &mut Block, bytes: &[u8; NEAR], len: usize)
        requires room { HasRoomForLine block.old }
        requires some { len < 64 }
        ensures { block.new
            ≡ block.old ++ (bare_line self.now (take len bytes.now) ++ line_end) }
    {
        if len == 0 {
            block.put(&self.alone, 8);
            return;
        }
        block.put(&self.head, 40);
        block.put(bytes, len);
        block.put(b"\n", 1);
    }

    /// Appends a line of the source behind its columns.
    pub fn push_line(&self, text: &mut Vec<u8>, line: &[u8]) -> Result<(), AllocError>
        ensures { OnOk result
            (text.new.items ≡ text.old.items ++ (bare_line self.now line.now ++ line_end)) }
    {
        if line.is_empty() {
            text.extend_from_slice(&self.alone)?;
            return Ok(());
        }
        text.extend_from_slice(&self.head)?;
        text.extend_from_slice(line)?;
        text.push(b'\n')?;
        Ok(())
    }
}

/// The line of a number alone: the number at the right of its column, and the end of the line.
fn alone(number: u64) -> [u8; 8]
    requires { number < 10 ^ 7 }
    ensures { result ≡ at_right 7 (decimal number) ++ line_end }
{
    let mut line = *b"       \n";
    write_digits(number, &mut line, 7);
    line
}

/// How many bytes stand before the first line feed of a text; None where it has none.
fn feed_at(text: &[u8]) -> Option<usize>
    ensures { MatchOption result (Lacks line_feed text.now) (IsFirstFeed text.now) }
{
    let mut feeds = memchr_iter(b'\n', text);
    feeds.next()
}
