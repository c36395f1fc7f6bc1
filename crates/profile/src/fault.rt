// What can be wrong with a line.
use std::fmt;

#[derive(Clone, Copy, Debug, PartialEq, Eq)]
pub enum Fault {
    // the text ends before the line
    Missing,
    // the text ends within the line
    End,
    // the line does not begin with its name
    Name,
    // no single space after the name
    Space,
    // not a number
    Number,
    // a zero where none may stand
    Zero,
    // not an address
    Address,
    // something after the last line
    More,
}

// A line's number, 1 to 12, and what is wrong there.
#[derive(Clone, Copy, Debug, PartialEq, Eq)]
pub struct BadLine {
    pub line: u8,
    pub fault: Fault,
}

impl Fault {
    // The same in words, for people.
    fn words(self) -> &'static str {
        match self {
            Fault::Missing => {
                "the line is missing: write all lines (sgsn, one to eight times limits, offset, node-id)"
            }
            Fault::End => "no line feed at the end of the line",
            Fault::Name => {
                "the line does not begin with its name: sgsn, limits (one to eight lines), offset, node-id stand in this order"
            }
            Fault::Space => {
                "one space must follow the name (and node-id stands alone where the node ID is empty)"
            }
            Fault::Number => {
                "the value is not a whole number: digits only (and limits has three, with one space between them)"
            }
            Fault::Zero => "a number begins with a zero",
            Fault::Address => "not an address: four numbers 0 to 255 with dots",
            Fault::More => "something follows the last line",
        }
    }
}

impl fmt::Display for Fault {
    fn fmt<W: fmt::Write>(&self, f: &mut fmt::Formatter<W>) -> fmt::Result {
        f.write_str(self.words())
    }
}

impl fmt::Display for BadLine {
    fn fmt<W: fmt::Write>(&self, f: &mut fmt::Formatter<W>) -> fmt::Result {
        write!(f, "profile line {}: {}", self.line, self.fault)
    }
}
