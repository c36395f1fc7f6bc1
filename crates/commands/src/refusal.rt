// The refusals in words: the table's own first, then what to do.
use std::fmt;
use std::fmt::Write;
use tally::Fault;

// An event that is refused: the answer, which event it is, counted from 1, and how many octets of the file lie before it.
// (A bad profile, 12, is setup's to say.)
#[derive(Clone, Copy)]
pub struct Refused {
    pub answer: u8,
    pub number: u64,
    pub offset: u64,
}

impl fmt::Display for Refused {
    fn fmt<W: Write>(&self, f: &mut fmt::Formatter<W>) -> fmt::Result {
        let Refused {
            answer,
            number,
            offset,
        } = self;
        let words = words_of(*answer);
        write!(
            f,
            "refused {answer} at event {number} (octet {offset}): {words}"
        )
    }
}

fn words_of(answer: u8) -> &'static str {
    match answer {
        1 => "event under 7 octets: it is cut short; get the whole file",
        2 =>
            "mark: an event begins with C3 5E; here none begins, so look at the event before it, its n (octet 36) if it is an activate",
        3 => "kind not 1..12: octet 2 of the event is none of the twelve kinds",
        4 => "length not the kind's: the event is cut short or too long; get the whole file",
        5 =>
            "a field out of range: look at its flags, IMSI, QoS, n and access point name, its limits, or its cause (0, 4 or 18 in a release, 0 or 4 in a detach)",
        6 =>
            "time above the end of 2099 or below the clock: put the events in the order of their times",
        7 => "1,000,000,000,000,000 events accepted already: begin with a fresh node",
        8 => "name not active: this charging ID and GGSN were not activated, or are released",
        9 => "name active: release this charging ID and GGSN before they are activated again",
        10 => "all 16 slots taken: release a context before another is activated",
        11 => "output longer than the buffer: lend a longer one",
        13 =>
            "the node breaks a rule of a sound node: do not go on with it, begin with a fresh one",
        15 => "attached already: detach this IMSI before it is attached again",
        16 =>
            "not attached: this IMSI was not attached, or is detached; look for its attach before this event",
        17 => "no free place: 16 subscribers are attached; detach one before another is attached",
        18 =>
            "unknown set: the node has no set of limits of this number; the profile's lines limits count from 1",
        19 =>
            "edition not the next: a set is replaced by the edition one above its own, up to 65535; look for the replacement before this one",
        _ => "",
    }
}

// A record list that a count refuses: the answer, what does not fit, and how many octets of the list lie before it.
#[derive(Clone, Copy)]
pub struct Unfit {
    pub answer: u8,
    pub fault: Fault,
    pub offset: u64,
}

impl fmt::Display for Unfit {
    fn fmt<W: Write>(&self, f: &mut fmt::Formatter<W>) -> fmt::Result {
        let Unfit { answer, offset, .. } = self;
        let words = fault_words(self.fault);
        write!(f, "refused {answer} at octet {offset}: {words}")
    }
}

fn fault_words(f: Fault) -> &'static str {
    match f {
        Fault::None => "",
        Fault::Mark =>
            "the mark does not fit: a record begins with C3 5A, and here none does; the length of the record before may be wrong",
        Fault::Cut =>
            "the length does not fit: the list ends within this record; get the whole file",
        Fault::Value =>
            "the length does not fit: no S-CDR or M-CDR of up to 1024 octets begins here; the list is damaged",
        Fault::Field =>
            "the length does not fit: this field does not end within its record; the list is damaged",
    }
}
