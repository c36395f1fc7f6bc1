// How many records a context has in a record list, and the number that the last of them carries (02, W7).
//
//     count RECORDS ID GGSN
//
// The list is stepped over by its marks and lengths (tally::count::go_on, on what is in the window; a list that is cut into windows gives
// what the whole gives). Standard output has one line, the count and the number, or - where the last one carries none; and nothing where the
// list is refused: standard error says then what does not fit, and where (docs/FORMATS.md).
use crate::refusal::Unfit;
use out::Stream;
use profile::{address, number};
use setup::{Command, Turns};
use std::env::Env;
use std::io::{Read, Stderr, Stdout, Write};
use std::rt::Files;
use tally::Tally;
use window::Input;

// The longest record with its mark.
const LONGEST: usize = 1026;

// A list through its window, of whose records those of a name are counted; and what was counted up to the next.
#[derive(Drop)]
struct Count<'a, F> {
    command: Command<'a>,
    input: Input<'a, F>,
    id: u32,
    ggsn: u32,
    tally: Tally,
}

impl<'a, F: Read> Turns for Count<'a, F> {
    // Counts on, or reads more of the file: so that a whole record is in the window, or all that is left. Answers whether to go on.
    fn turn(&mut self) -> bool {
        if self.input.wants(LONGEST) {
            return self.command.read_on(b"the record list", &mut self.input);
        }
        self.count_on()
    }
}

impl<'a, F: Read> Count<'a, F> {
    // What is in the window is counted: all that is left of the file, or all but the last record that may go on behind it.
    fn count_on(&mut self) -> bool {
        let ended = self.input.ended;
        let tally = tally::count::go_on(self.tally, self.input.here(), ended, self.id, self.ggsn);
        self.input.pass(tally.at.wrapping_sub(self.tally.at));
        self.tally = tally;
        !ended && tally::count::answer(tally.fault) == 0
    }

    // Says how it ended. Where the file could not be read, that has been said.
    fn finish(&self, output: Stdout) {
        let t = self.tally;
        let answer = tally::count::answer(t.fault);
        if answer != 0 {
            self.command.say(&Unfit {
                answer,
                fault: t.fault,
                offset: t.at as u64,
            });
        } else if self.input.ended {
            write_count(self.command, &mut out::to_output(output), t);
        }
    }
}

// The line: how many records there are, and the number of the last.
fn write_count(command: Command, to: &mut Stream, t: Tally) {
    let _ = match t.number {
        0 => writeln!(to, "{} -", t.count),
        number => writeln!(to, "{} {number}", t.count),
    };
    if to.flush().is_err() {
        command.fail_output(to);
    }
}

fn run<F: Read + Drop>(command: Command, output: Stdout, file: F, id: u32, ggsn: u32) {
    let mut held = [0u8; 65536];
    let mut count = Count {
        command,
        input: Input::new(file, &mut held),
        id,
        ggsn,
        tally: tally::count::START,
    };
    setup::run(&mut count);
    count.finish(output);
}

// The charging ID that an argument spells, without zeros in front. One that is longer than the longest ID by far counts as empty.
fn id_of(rt: &impl Env, argument: usize) -> Option<u32> {
    let mut held = [0u8; 16];
    let text = setup::arg(rt, argument, &mut held);
    u32::try_from(number::read(text).ok()?).ok()
}

// The address that an argument is.
fn address_of(rt: &impl Env, argument: usize) -> Option<u32> {
    let mut held = [0u8; 16];
    let text = setup::arg(rt, argument, &mut held);
    address::address_ok(text).then(|| address::address(text))
}

// The list that an argument names, counted for the context that the two after it name.
pub fn count_file<R: Env + Files>(rt: &R, output: Stdout, error: Stderr, argument: usize) {
    let command = command(error);
    let Some(id) = id_of(rt, argument.wrapping_add(1)) else {
        setup::say_line(
            error,
            b"count: ID is a whole number of 0 to 4294967295 in decimal, without zeros in front\n",
        );
        return;
    };
    let Some(ggsn) = address_of(rt, argument.wrapping_add(2)) else {
        setup::say_line(
            error,
            b"count: GGSN is an address: four numbers of 0 to 255 with dots\n",
        );
        return;
    };
    if let Some(file) = command.open(rt, argument) {
        run(command, output, file, id, ggsn);
    }
}

fn command(error: Stderr) -> Command<'static> {
    Command {
        name: b"count",
        error,
    }
}

pub fn main<R: Env + Files>(rt: &R, output: Stdout, error: Stderr) {
    if setup::arg_count(rt) == 5 {
        count_file(rt, output, error, 2);
    } else {
        setup::say_line(error, b"usage: count RECORDS ID GGSN\n");
    }
}
