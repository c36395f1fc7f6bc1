// The node's calls, for comparison with other programs.
//
//     calls PROFILE CALLS
//
// The calls of a file are run from a fresh node, each on the node that the last one handed back, refused ones among them. A line a
// call: the answer, the written length, the written octets in hex (docs/FORMATS.md). A call is a room and an event, after two lengths; where
// the second is FFFF, a list of reports follows, and its line has the word batch before it and tells how many pairs were applied.
mod reports;

use crate::records::block::two;
use node::{Node, refusal};
use out::Stream;
use profile::Profile;
use setup::{Command, Turns};
use shown::Hex;
use std::env::Env;
use std::fmt;
use std::io::{Read, Stderr, Stdout, Write};
use std::rt::Files;
use window::Input;

// The largest room, the longest event, and the longest list.
const ROOM: usize = 20000;

const EVENT: usize = 300;

const LIST: usize = 1000;

// A call that lies whole in the window: its room, and where what it holds ends, which is an event or a list of reports.
#[derive(Clone, Copy)]
struct Call {
    room: usize,
    end: usize,
    batch: bool,
}

// What is wrong with a call: the file ends within it, or its room, its event or its list is too large.
#[derive(Clone, Copy)]
enum Wrong {
    Ends,
    Room(usize),
    Event(usize),
    List(usize),
}

impl fmt::Display for Wrong {
    fn fmt<W: fmt::Write>(&self, f: &mut fmt::Formatter<W>) -> fmt::Result {
        match self {
            Wrong::Ends => write!(f, "the file ends within the call"),
            Wrong::Room(n) => write!(f, "a room of {n} octets; at most {ROOM}"),
            Wrong::Event(n) => write!(f, "an event of {n} octets; at most {EVENT}"),
            Wrong::List(n) => write!(f, "a batch of {n} numbers; at most {LIST}"),
        }
    }
}

// The call that octets begin with, if it is there whole.
fn next_call(here: &[u8]) -> Result<Option<Call>, Wrong> {
    if here.len() < 4 {
        return Ok(None);
    }
    let room = two(here, 0);
    let length = two(here, 2);
    if room > ROOM {
        return Err(Wrong::Room(room));
    }
    if length == reports::LIST {
        return next_list(here, room);
    }
    if length > EVENT {
        return Err(Wrong::Event(length));
    }
    Ok(whole(here, room, 4 + length, false))
}

// The same of a list of reports, whose room was read.
fn next_list(here: &[u8], room: usize) -> Result<Option<Call>, Wrong> {
    if here.len() < 18 {
        return Ok(None);
    }
    let count = two(here, 16);
    if count > LIST {
        return Err(Wrong::List(count));
    }
    Ok(whole(here, room, 18 + 4 * count, true))
}

// A call, if as much is there.
fn whole(here: &[u8], room: usize, end: usize, batch: bool) -> Option<Call> {
    (end <= here.len()).then_some(Call { room, end, batch })
}

// What a call of either kind answers beside the node: of a list, how many pairs were applied.
#[derive(Clone, Copy)]
struct Called {
    answer: u8,
    applied: Option<usize>,
    written: usize,
}

// A call of the node where it lies, by the octets of an event or of a list.
fn ask(node: &mut Node, batch: bool, octets: &[u8], out: &mut [u8]) -> Called {
    if batch {
        let r = reports::told(*node, octets, out);
        *node = r.node;
        return Called {
            answer: refusal::answer_of(r.refusal),
            applied: Some(r.applied),
            written: r.written,
        };
    }
    let (answer, written) = match node::step::step(*node, octets, out) {
        Ok(stepped) => {
            *node = stepped.node;
            (0, stepped.written)
        }
        Err(refusal) => (refusal.into(), 0),
    };
    Called {
        answer,
        applied: None,
        written,
    }
}

// A file of calls through its window, the buffer of which each call is lent its room, the node that they are run on, and the number of the
// next, from 1.
#[derive(Drop)]
struct Calls<'a, F> {
    command: Command<'a>,
    to: Stream,
    input: Input<'a, F>,
    out: [u8; ROOM],
    node: Node,
    number: u64,
}

impl<'a, F: Read> Turns for Calls<'a, F> {
    // Runs the next call, or reads more of the file: so that it lies whole in the window. Answers whether to go on.
    fn turn(&mut self) -> bool {
        match next_call(self.input.here()) {
            Ok(Some(call)) => self.run(call),
            Ok(None) => self.read_on(),
            Err(wrong) => self.stop(wrong),
        }
    }
}

impl<'a, F: Read> Calls<'a, F> {
    // More of the file, or its end.
    fn read_on(&mut self) -> bool {
        let read = self.command.read_on(b"the file of calls", &mut self.input);
        if !self.input.ended {
            return read;
        }
        if !self.input.here().is_empty() {
            return self.stop(Wrong::Ends);
        }
        false
    }

    // Runs a call, and writes its line. Answers whether that could be written.
    fn run(&mut self, call: Call) -> bool {
        let Calls {
            input,
            out,
            node,
            ..
        } = self;
        let octets = octets::part(input.here(), 4, call.end);
        let r = ask(node, call.batch, octets, crate::lent(out, call.room));
        self.number = self.number.wrapping_add(1);
        self.input.pass(call.end);
        self.write_line(&r)
    }

    // Writes a line: the answer, of a list how many pairs were applied, how many octets were written, and these in hex.
    fn write_line(&mut self, r: &Called) -> bool {
        let (answer, written) = (r.answer, r.written);
        let hex = Hex(octets::front(&self.out, written));
        let _ = match r.applied {
            Some(applied) => writeln!(self.to, "batch {answer} {applied} {written} {hex}"),
            None => writeln!(self.to, "{answer} {written} {hex}"),
        };
        let done = self.to.flush().is_ok();
        if !done {
            self.command.fail_output(&self.to);
        }
        done
    }

    // Says what is wrong with the next call.
    fn stop(&mut self, wrong: Wrong) -> bool {
        let mut to = out::to_error(self.command.error);
        let _ = writeln!(
            to,
            "calls: call {}, at octet {} of the file: {wrong}",
            self.number, self.input.place.offset
        );
        let _ = to.flush();
        false
    }
}

fn run<F: Read + Drop>(command: Command, output: Stdout, file: F, profile: Profile) {
    let mut held = [0u8; 4096];
    let mut calls = Calls {
        command,
        to: out::to_output(output),
        input: Input::new(file, &mut held),
        out: [0; ROOM],
        node: setup::node_of(profile),
        number: 1,
    };
    setup::run(&mut calls);
}

// The file that an argument names, from a fresh node.
pub fn run_file<R: Env + Files>(rt: &R, output: Stdout, error: Stderr, argument: usize) {
    let command = Command {
        name: b"calls",
        error,
    };
    if let Some((profile, file)) = command.start(rt, argument) {
        run(command, output, file, profile);
    }
}

pub fn main<R: Env + Files>(rt: &R, output: Stdout, error: Stderr) {
    if setup::arg_count(rt) == 4 {
        run_file(rt, output, error, 3);
    } else {
        setup::say_line(error, b"usage: calls PROFILE CALLS\n");
    }
}
