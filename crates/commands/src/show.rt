// A record list for people and for scripts.
//
//     show RECORDS          each record with 12.15's field names, its containers or location changes as a table
//     show --json RECORDS   a JSON object a line, with the same names
//
// It stops at the first record that the reader refuses, and says on standard error which it is and where. What stands before it has
// been written then. The last line on standard error says how many records were shown, and how many octets of the file they take.
// docs/FORMATS.md has both forms.
use entries::Entry;
use entries::read::Cdr;
use out::Stream;
use setup::{Command, Turns};
use shown::{Shown, Style};
use std::env::Env;
use std::io::{Read, Stderr, Stdout, Write};
use std::rt::Files;
use std::{fmt, io};
use window::Input;

// The longest record with its mark.
const LONGEST: usize = 1026;

// What is wrong with the record at which it stopped.
#[derive(Clone, Copy)]
enum Wrong {
    NoMark,
    Cut,
    NoRecord,
}

impl fmt::Display for Wrong {
    fn fmt<W: fmt::Write>(&self, f: &mut fmt::Formatter<W>) -> fmt::Result {
        f.write_str(match self {
            Wrong::NoMark => "no mark",
            Wrong::Cut => "cut short",
            Wrong::NoRecord => "not a record within the rules",
        })
    }
}

// A list through its window, each record of which is shown in a style; how many were; and what is wrong with the next.
#[derive(Drop)]
struct Show<'a, F> {
    command: Command<'a>,
    to: Stream,
    style: Style,
    input: Input<'a, F>,
    records: u64,
    wrong: Option<Wrong>,
}

impl<'a, F: Read> Turns for Show<'a, F> {
    // One record, or more of the file: so that a whole record is in the window, or all that is left. Answers whether to go on.
    fn turn(&mut self) -> bool {
        if self.input.wants(LONGEST) {
            return self.command.read_on(b"the record list", &mut self.input);
        }
        self.show_next()
    }
}

impl<'a, F: Read> Show<'a, F> {
    // What lies at the front of the octets that are left: a record and more, or all that is left of the file. Nothing more is shown once a
    // write has failed.
    fn show_next(&mut self) -> bool {
        let r = entries::read::read_entry(self.input.here(), 0);
        match (r.entry, r.cdr) {
            (Entry::Found(_, end), Some(cdr)) => self.show(&cdr, end).is_ok(),
            (Entry::End, _) => false,
            (Entry::NoMark(_), _) => self.stop(Wrong::NoMark),
            (Entry::Cut(_), _) => self.stop(Wrong::Cut),
            (Entry::Found(_, _) | Entry::NoValue(_), _) => self.stop(Wrong::NoRecord),
        }
    }

    fn stop(&mut self, wrong: Wrong) -> bool {
        self.wrong = Some(wrong);
        false
    }

    // A record, whose entry takes so many octets of the file.
    fn show(&mut self, cdr: &Cdr, end: usize) -> io::Result<()> {
        let before = self.input.place.offset;
        self.input.pass(end);
        self.records = self.records.wrapping_add(1);
        match cdr {
            Cdr::Pdp(record) => {
                let shown = self.shown(record, before, end);
                write!(self.to, "{shown}")
            }
            Cdr::Mm(record) => {
                let shown = self.shown(record, before, end);
                write!(self.to, "{shown}")
            }
        }
    }

    // The record that is shown next, in the style, with what is said of it.
    fn shown<'r, R>(&self, record: &'r R, before: u64, end: usize) -> Shown<'r, R> {
        Shown {
            record,
            style: self.style,
            which: self.records,
            before,
            size: (end as u64).wrapping_sub(2),
        }
    }

    // Writes what waits, and says how it ended: which record was refused, counted from 1, how many octets lie before its mark and what was
    // found there; and what was shown.
    fn finish(&mut self) {
        if self.to.flush().is_err() {
            self.command.fail_output(&self.to);
            return;
        }
        let offset = self.input.place.offset;
        let records = self.records;
        let mut to = out::to_error(self.command.error);
        if let Some(wrong) = self.wrong {
            let next = records.wrapping_add(1);
            let _ = writeln!(
                to,
                "show: refused 20 at record {next} (octet {offset}): {wrong}"
            );
        }
        let _ = writeln!(to, "show: {records} records, {offset} octets");
        let _ = to.flush();
    }
}

fn run<F: Read + Drop>(command: Command, to: Stream, file: F, style: Style) {
    let mut held = [0u8; 65536];
    let mut show = Show {
        command,
        to,
        style,
        input: Input::new(file, &mut held),
        records: 0,
        wrong: None,
    };
    setup::run(&mut show);
    show.finish();
}

fn command(error: Stderr) -> Command<'static> {
    Command {
        name: b"show",
        error,
    }
}

// The list that an argument names.
pub fn show_file<R: Env + Files>(
    rt: &R,
    output: Stdout,
    error: Stderr,
    argument: usize,
    style: Style,
) {
    let command = command(error);
    if let Some(file) = command.open(rt, argument) {
        run(command, out::to_output(output), file, style);
    }
}

pub fn main<R: Env + Files>(rt: &R, output: Stdout, error: Stderr) {
    let json = setup::is_word(rt, 2, b"--json");
    match (setup::arg_count(rt), json) {
        (3, false) => show_file(rt, output, error, 2, Style::Text),
        (4, true) => show_file(rt, output, error, 3, Style::Json),
        _ => setup::say_line(error, b"usage: show [--json] RECORDS\n"),
    }
}
