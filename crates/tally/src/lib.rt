// How many records a name has in a record list, and the number that the last of them carries (02, W7).
//
// A list is stepped over by its marks and lengths (entries::step), and of a record 8A, AB and 95 alone are looked at, by the lengths of the
// fields before them. Containers stay unread, and an M-CDR is stepped past: under 8A it has a duration.
//
// count.rt counts, look.rt takes one step, say.rt looks at a record, seek.rt goes from field to field.
#![tactic(auto)]

pub mod count;
mod look;
mod say;
mod seek;

// What does not fit where a step lands: 21, but for the first.
#[derive(Clone, Copy)]
pub enum Fault {
    // all fits
    None,
    // no mark begins there
    Mark,
    // the octets end within the entry that begins there
    Cut,
    // after a mark, no value that a record can be begins there
    Value,
    // the field that begins there does not end within its record
    Field,
}

// What was counted.
#[derive(Clone, Copy)]
pub struct Tally {
    pub fault: Fault,
    // how many octets were stepped over; after a fault, how many lie before what does not fit
    pub at: usize,
    // how many records the name has; 0 after a fault
    pub count: usize,
    // the number that the last of them carries: 0 where it carries none, where there is no record, and after a fault
    pub number: u64,
}
