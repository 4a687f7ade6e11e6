//! What a record can't be.
ghost use Rattle.std.specs.Prelude.{◌≡◌, None, Some};
ghost use Rattle.m88_serving.specs.Faults.{first_behind, first_line, first_transaction, has_datum, has_odd_access, has_odd_address, is_status, is_unempty, record_fault};

use crate::access::is_dmt;
use crate::fault::{ServeFault, ServeKind};
use crate::loads::awaited_set;
use m88_base::Triple;
use m88_event::Record;
use m88_isa::{access_in, is_valid_triple};

/// The first fault of a record, by the order of the reasons.
#[tactic(auto, unfolding(crate::specs::Faults::record_fault))]
pub(crate) fn record_fault(fault: &Record) -> Option<ServeFault>
    ensures { result ≡ record_fault fault.now }
{
    if !is_status(fault.epsr) {
        return Some(fault_of_kind(1, ServeKind::Epsr));
    }
    if let Some(line) = odd_access(fault) {
        return Some(fault_of_kind(line, ServeKind::Access));
    }
    if let Some(line) = odd_address(fault) {
        return Some(fault_of_kind(line, ServeKind::Address));
    }
    if let Some(line) = datum(fault) {
        return Some(fault_of_kind(line, ServeKind::Datum));
    }
    if let Some(line) = unempty(fault) {
        return Some(fault_of_kind(line, ServeKind::Empty));
    }
    if let Some(line) = behind(fault) {
        return Some(fault_of_kind(line, ServeKind::Order));
    }
    if fault.ssbr != awaited_set(fault) {
        return Some(fault_of_kind(1, ServeKind::Ssbr));
    }
    None
}

/// A fault of a kind at a line.
fn fault_of_kind(line: u64, kind: ServeKind) -> ServeFault
    ensures { result ≡ record { line = line; kind = kind } }
{
    ServeFault { line, kind }
}

/// Whether a word is the status that a board may have at a data fault.
#[tactic(auto, unfolding(crate::specs::Faults::is_status))]
pub fn is_status(word: u32) -> bool
    ensures { result ≡ is_status word }
{
    word == 0x0000_03F8 || word == 0x0000_03FC || word == 0x1000_03F8 || word == 0x1000_03FC
}

/// The first of the lines 2, 3 and 4 for which the mark is set.
fn first_line(t0: bool, t1: bool, t2: bool) -> Option<u64>
    ensures { result ≡ first_line t0 t1 t2 }
{
    if t0 {
        Some(2)
    } else if t1 {
        Some(3)
    } else if t2 {
        Some(4)
    } else {
        None
    }
}

/// The line of the first valid transaction whose DMT no access has.
fn odd_access(fault: &Record) -> Option<u64>
    ensures { result ≡ first_transaction has_odd_access fault.now }
{
    let [t0, t1, t2] = &fault.triples;
    first_line(has_odd_access(t0), has_odd_access(t1), has_odd_access(t2))
}

/// Whether a transaction is valid, and its DMT that of no access.
#[tactic(auto, unfolding(crate::specs::Faults::has_odd_access))]
fn has_odd_access(triple: &Triple) -> bool
    ensures { result ≡ has_odd_access triple.now }
{
    is_valid_triple(triple) && !is_dmt(triple.dmt)
}

/// The line of the first valid transaction whose address is that of no word.
fn odd_address(fault: &Record) -> Option<u64>
    ensures { result ≡ first_transaction has_odd_address fault.now }
{
    let [t0, t1, t2] = &fault.triples;
    first_line(
        has_odd_address(t0),
        has_odd_address(t1),
        has_odd_address(t2),
    )
}

/// Whether a transaction is valid, and its address that of no word.
#[tactic(auto, unfolding(crate::specs::Faults::has_odd_address))]
fn has_odd_address(triple: &Triple) -> bool
    ensures { result ≡ has_odd_address triple.now }
{
    is_valid_triple(triple) && triple.dma % 4 != 0
}

/// The line of the first load with a datum.
fn datum(fault: &Record) -> Option<u64>
    ensures { result ≡ first_transaction has_datum fault.now }
{
    let [t0, t1, t2] = &fault.triples;
    first_line(has_datum(t0), has_datum(t1), has_datum(t2))
}

/// Whether a transaction is a valid load, and has a datum.
#[tactic(auto, unfolding(crate::specs::Faults::has_datum))]
fn has_datum(triple: &Triple) -> bool
    ensures { result ≡ has_datum triple.now }
{
    is_valid_triple(triple) && !access_in(triple).write && triple.dmd != 0
}

/// The line of the first transaction that isn't valid, and has a word other than 0.
fn unempty(fault: &Record) -> Option<u64>
    ensures { result ≡ first_transaction is_unempty fault.now }
{
    let [t0, t1, t2] = &fault.triples;
    first_line(is_unempty(t0), is_unempty(t1), is_unempty(t2))
}

/// Whether a transaction isn't valid, and has a word other than 0.
#[tactic(auto, unfolding(crate::specs::Faults::is_unempty))]
fn is_unempty(triple: &Triple) -> bool
    ensures { result ≡ is_unempty triple.now }
{
    !is_valid_triple(triple) && !(triple.dmt == 0 && triple.dmd == 0 && triple.dma == 0)
}

/// The line of the first valid transaction behind one that isn't.
fn behind(fault: &Record) -> Option<u64>
    ensures { result ≡ first_behind fault.now }
{
    let [t0, t1, t2] = &fault.triples;
    let (v0, v1, v2) = (
        is_valid_triple(t0),
        is_valid_triple(t1),
        is_valid_triple(t2),
    );
    first_line(false, v1 && !v0, v2 && !(v0 && v1))
}
