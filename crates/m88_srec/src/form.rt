//! A line that has the form of a record.
ghost use Rattle.std.specs.Prelude.{◌≡◌, ◌≤◌, ◌<◌, length, sum};

use crate::purpose::Purpose;

/// A line that has the form of a record.
#[derive(Clone, Copy)]
pub struct Form<'a> {
    /// What the record is for.
    pub purpose: Purpose,
    /// The number of bytes of its address.
    pub width: usize,
    /// All its bytes: the count, the address, the data and the sum.
    pub bytes: &'a [u8],
    /// What all of them add up to.
    pub total: u32,
    pub ghost some: { 2 ≤ width },
    pub ghost narrow: { width ≤ 4 },
    pub ghost one: { 0 < length bytes.now },
    pub ghost few: { length bytes.now ≤ 256 },
    pub ghost added: { total ≡ sum bytes.now },
}
