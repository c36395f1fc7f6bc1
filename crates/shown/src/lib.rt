// A record in its forms: a line a field for people, with 12.15's name for it and the containers or location changes as a table; a JSON object
// on one line for scripts, with the same names; and the plain form that tests compare, every field at its place. Fields that are absent are
// left out of the first two.
//
// No contract says what is written: each function is proved safe and ending.
#![tactic(auto)]

mod json;
mod people;
mod plain;
mod values;

use mcdr::MmRecord;
use scdr::Record;
use std::fmt;
pub use values::Hex;

// The forms.
#[derive(Clone, Copy, PartialEq, Eq, Debug)]
pub enum Style {
    Text,
    Json,
    Plain,
}

// A record to be shown in a form: which it is, counted from 1, how many octets of the file lie before its mark, and how many it has without
// the mark. Only the form for people says these three.
#[derive(Clone, Copy)]
pub struct Shown<'a, R> {
    pub record: &'a R,
    pub style: Style,
    pub which: u64,
    pub before: u64,
    pub size: u64,
}

impl<'a, R> Shown<'a, R> {
    // A record that is in no file.
    pub fn plain(record: &'a R) -> Shown<'a, R> {
        Shown {
            record,
            style: Style::Plain,
            which: 0,
            before: 0,
            size: 0,
        }
    }

    // The line with which each record begins for people.
    fn begin<W: fmt::Write>(&self, f: &mut fmt::Formatter<W>) -> fmt::Result {
        let Shown {
            which,
            before,
            size,
            ..
        } = self;
        writeln!(f, "record {which} (octet {before}, {size} octets)")
    }
}

impl<'a> fmt::Display for Shown<'a, Record> {
    fn fmt<W: fmt::Write>(&self, f: &mut fmt::Formatter<W>) -> fmt::Result {
        match self.style {
            Style::Text => {
                self.begin(f)?;
                people::put_record(f, self.record)
            }
            Style::Json => json::put_record(f, self.record),
            Style::Plain => plain::put_record(f, self.record),
        }
    }
}

impl<'a> fmt::Display for Shown<'a, MmRecord> {
    fn fmt<W: fmt::Write>(&self, f: &mut fmt::Formatter<W>) -> fmt::Result {
        match self.style {
            Style::Text => {
                self.begin(f)?;
                people::put_mm_record(f, self.record)
            }
            Style::Json => json::put_mm_record(f, self.record),
            Style::Plain => plain::put_mm_record(f, self.record),
        }
    }
}
