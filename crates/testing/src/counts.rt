// Counts of a name's records in lists, for comparison with another program.
//
//     counts
//
// Standard input has cases: a charging ID of four octets, a GGSN of four, how wide the window is and how long the list, two each, and the list.
// A line a case out: the answer 0, how many records the name has and the number of the last, or - where it carries none; or 21, a word for
// what does not fit, and its place. A window from 1,026 on has the list counted in turns of so many octets, any other all at once
// (docs/FORMATS.md).
use crate::records::block;
use crate::{lent, put_line};
use setup::{Command, Turns};
use std::env::Env;
use std::io::{Read, Stderr, Stdout};
use std::rt::Files;
use tally::{Fault, Tally};

// The longest record with its mark: no window is narrower.
const LONGEST: usize = 1026;

// What does not fit, in a word.
fn word_of(f: Fault) -> &'static str {
    match f {
        Fault::None => "",
        Fault::Mark => "mark",
        Fault::Cut => "cut",
        Fault::Value => "value",
        Fault::Field => "field",
    }
}

// Writes the line of a case.
fn write_tally(output: Stdout, t: Tally) {
    let answer = tally::count::answer(t.fault);
    if answer != 0 {
        put_line(
            output,
            &format_args!("{answer} {} {}", word_of(t.fault), t.at),
        );
    } else if t.number == 0 {
        put_line(output, &format_args!("0 {} -", t.count));
    } else {
        put_line(output, &format_args!("0 {} {}", t.count, t.number));
    }
}

// One turn: counts on over what a window of so many octets shows of the list.
fn count_on(t: Tally, list: &[u8], wide: usize, id: u32, ggsn: u32) -> Tally {
    let here = octets::front(octets::part(list, t.at, list.len()), wide);
    let ended = list.len() <= t.at.wrapping_add(wide);
    tally::count::go_on(t, here, ended, id, ggsn)
}

// In turns, until one has a fault or moves no further. Each moves by an octet at least, and a list has less than 65,536.
fn in_turns(list: &[u8], wide: usize, id: u32, ggsn: u32) -> Tally {
    let mut t = tally::count::START;
    for _ in 0..65536 {
        let from = t.at;
        t = count_on(t, list, wide, id, ggsn);
        if t.at == from || tally::count::answer(t.fault) != 0 {
            break;
        }
    }
    t
}

// The list of a case, of which the head has twelve octets.
fn tally_of(head: &[u8], list: &[u8]) -> Tally {
    let id = block::four(head, 0);
    let ggsn = block::four(head, 4);
    let wide = block::two(head, 8);
    if wide < LONGEST {
        tally::count::count(list, id, ggsn)
    } else {
        in_turns(list, wide, id, ggsn)
    }
}

// A file of cases.
#[derive(Drop)]
struct Counts<F> {
    output: Stdout,
    error: Stderr,
    file: F,
}

impl<F: Read> Turns for Counts<F> {
    // Takes one case, and answers whether to go on.
    fn turn(&mut self) -> bool {
        let mut head = [0u8; 12];
        match window::read_full(&mut self.file, &mut head) {
            0 => false,
            12 => self.take_list(&head),
            _ => self.cut_short(),
        }
    }
}

impl<F: Read> Counts<F> {
    // Takes the list of a case, and answers whether it was there.
    fn take_list(&mut self, head: &[u8]) -> bool {
        let mut b = [0u8; 65536];
        let n = block::two(head, 10);
        if window::read_full(&mut self.file, lent(&mut b, n)) < n {
            return self.cut_short();
        }
        write_tally(self.output, tally_of(head, octets::front(&b, n)));
        true
    }

    fn cut_short(&self) -> bool {
        setup::say_line(self.error, b"counts: the last case is cut short\n");
        false
    }
}

// The cases of the file that an argument names.
pub fn count_file<R: Env + Files>(rt: &R, output: Stdout, error: Stderr, argument: usize) {
    let command = Command {
        name: b"counts",
        error,
    };
    if let Some(file) = command.open(rt, argument) {
        main(output, error, file);
    }
}

pub fn main<F: Read + Drop>(output: Stdout, error: Stderr, file: F) {
    let mut counts = Counts {
        output,
        error,
        file,
    };
    setup::run(&mut counts);
}
