// Record lists: records one after another, each after the mark C3 5A (01, "The record's octets"): S-CDRs and M-CDRs. An entry is a mark and the
// record after it.
//
// step.rt goes from entry to entry by the marks and the lengths alone, read.rt reads the record of an entry, count.rt counts entries.
// What a list is that reads in full is said in `cdrs` (crates/cdrs/specs/List.antt); proofs/Theorems.antt says what stepping has to do with it.
#![tactic(auto)]

pub mod count;
pub mod read;
pub mod step;

// What stands at a place of octets that may be a record list: an entry, or what is wrong there.
#[derive(Clone, Copy)]
pub enum Entry {
    // where the record of the entry begins, after its mark, and where it ends: there the next entry begins
    Found(usize, usize),
    // no octets are left
    End,
    // no mark begins at this place
    NoMark(usize),
    // the octets end within the entry that begins at this place
    Cut(usize),
    // after a mark, no value that a record can be begins at this place
    NoValue(usize),
}
