//! What the source and the sink in memory share: which calls fail, and how a piece is copied.
ghost use Rattle.std.specs.Prelude.{◌≡◌, ◌+◌, ◌-◌, ◌≤◌, ◌↔◌, ◌++◌, min, length, take, drop, IsTrue, Contains};

/// Whether a call's number, from 0, is among those that fail.
pub fn is_failing(failing: &[u32], call: u64) -> bool
    ensures { IsTrue result ↔ Contains failing.now call }
{
    failing.iter().any(|number| u64::from(*number) == call)
}

/// Copies the bytes from `at` on to the front of `buf`, as many as there are, `piece` allows and
/// `buf` has room for, and says how many.
pub fn give(bytes: &[u8], at: usize, piece: usize, buf: &mut [u8]) -> usize
    requires { at ≤ length bytes.now }
    ensures count { result ≡ min (min (length buf.old) piece) (length bytes.now - at) }
    ensures bytes { drop at bytes.now ≡ take result buf.new ++ drop (at + result) bytes.now }
{
    let count = buf.len().min(piece).min(bytes.len() - at);
    buf[..count].copy_from_slice(&bytes[at..at + count]);
    count
}
