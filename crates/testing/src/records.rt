// The writers and readers of records, for comparison with other programs.
//
//     records write      blocks of 549 octets in, a line a block out: the S-CDR's octets in hex, or 24
//     records read       S-CDRs in, each after its length in two octets; a line a record out: the block of 549 in hex, or 20
//     records both       blocks in; for each the line that write gives, then what is read back: the block and the access point name
//     records write-mm   the same of M-CDRs, with blocks of 191 octets
//     records read-mm
//     records both-mm    for each the line that write-mm gives, then the block that is read back
//
// A block is the plain form of a record, every field at a fixed place (docs/FORMATS.md).
pub mod block;

use crate::{lent, put, put_line};
use ber::answer;
use ber::written::NotWritten;
use mcdr::MmRecord;
use scdr::Record;
use setup::{Command, Turns};
use shown::{Hex, Shown};
use std::env::Env;
use std::io::{Read, Stderr, Stdout};
use std::marker::PhantomData;
use std::rt::Files;

// What is to be done with a file.
#[derive(Clone, Copy)]
enum Task {
    Write,
    Read,
    Both,
}

// A kind of records, each of which has a block.
trait Kind: Sized + Drop {
    // How many octets a block has, at most 549.
    const SIZE: usize;

    // Are a block's flags 0 or 1? A record can't hold anything else.
    fn flags_ok(block: &[u8]) -> bool;

    fn of_block(block: &[u8]) -> Self;

    fn write(&self, out: &mut [u8]) -> Result<usize, NotWritten>;

    fn read(octets: &[u8]) -> Option<Self>;

    fn put_block(&self, output: Stdout);

    // Where the access point name lies in a record's octets, if its kind has one.
    fn name(octets: &[u8]) -> Option<&[u8]>;
}

impl Kind for Record {
    const SIZE: usize = 549;

    fn flags_ok(block: &[u8]) -> bool {
        block::flags_ok(block)
    }

    fn of_block(block: &[u8]) -> Record {
        block::record_of(block)
    }

    fn write(&self, out: &mut [u8]) -> Result<usize, NotWritten> {
        scdr::write::write_record(self, out)
    }

    fn read(octets: &[u8]) -> Option<Record> {
        scdr::read::read_record(octets)
    }

    fn put_block(&self, output: Stdout) {
        put(output, &Shown::plain(self));
    }

    fn name(octets: &[u8]) -> Option<&[u8]> {
        Some(scdr::read::apn_part(octets))
    }
}

impl Kind for MmRecord {
    const SIZE: usize = 191;

    fn flags_ok(_block: &[u8]) -> bool {
        true
    }

    fn of_block(block: &[u8]) -> MmRecord {
        block::mm_record_of(block)
    }

    fn write(&self, out: &mut [u8]) -> Result<usize, NotWritten> {
        mcdr::write::write_record(self, out)
    }

    fn read(octets: &[u8]) -> Option<MmRecord> {
        mcdr::read::read_record(octets)
    }

    fn put_block(&self, output: Stdout) {
        put(output, &Shown::plain(self));
    }

    fn name(_octets: &[u8]) -> Option<&[u8]> {
        None
    }
}

// One block: its record's octets, or the number of the refusal; and read back, where that is asked. Unless it is, its flags are looked at.
fn write_block<K: Kind>(output: Stdout, block: &[u8], back: bool) {
    if !back && !K::flags_ok(block) {
        refuse(output, NotWritten::OutsideRules);
        return;
    }
    let mut out = [0u8; 1024];
    match K::of_block(block).write(&mut out) {
        Ok(n) => put_record::<K>(output, octets::front(&out, n), back),
        Err(e) => refuse(output, e),
    }
}

// The number of a refusal.
fn refuse(output: Stdout, e: NotWritten) {
    put_line(output, &e.number());
}

// The octets of a record; and what they are read as, and the access point name where it lies in them.
fn put_record<K: Kind>(output: Stdout, octets: &[u8], back: bool) {
    put_line(output, &Hex(octets));
    if back {
        read_record::<K>(output, octets);
        if let Some(name) = K::name(octets) {
            put_line(output, &Hex(name));
        }
    }
}

// One record: its block, or the number of the refusal.
fn read_record<K: Kind>(output: Stdout, octets: &[u8]) {
    let read = K::read(octets);
    match &read {
        Some(record) => record.put_block(output),
        None => put_line(output, &answer::answer_of(&read)),
    }
}

// A file of blocks, or of records.
#[derive(Drop)]
struct Records<F, K> {
    output: Stdout,
    error: Stderr,
    file: F,
    task: Task,
    kind: PhantomData<K>,
}

impl<F: Read, K: Kind> Turns for Records<F, K> {
    // Takes one block or one record, and answers whether to go on.
    fn turn(&mut self) -> bool {
        match self.task {
            Task::Write => self.take_block(false),
            Task::Read => self.take_record(),
            Task::Both => self.take_block(true),
        }
    }
}

impl<F: Read, K: Kind> Records<F, K> {
    // Takes one block, and answers whether it was there.
    fn take_block(&mut self, back: bool) -> bool {
        let mut b = [0u8; 549];
        let n = window::read_full(&mut self.file, lent(&mut b, K::SIZE));
        if n == 0 {
            return false;
        }
        if n < K::SIZE {
            setup::say_line(self.error, b"records: the last block is cut short\n");
            return false;
        }
        write_block::<K>(self.output, octets::front(&b, n), back);
        true
    }

    // Takes one record, and answers whether it was there.
    fn take_record(&mut self) -> bool {
        let mut head = [0u8; 2];
        if window::read_full(&mut self.file, &mut head) == 0 {
            return false;
        }
        let mut b = [0u8; 65536];
        let n = block::two(&head, 0);
        if window::read_full(&mut self.file, lent(&mut b, n)) < n {
            setup::say_line(self.error, b"records: the last record is cut short\n");
            return false;
        }
        read_record::<K>(self.output, octets::front(&b, n));
        true
    }
}

// Does one task with a file of one kind.
fn run<F: Read + Drop, K: Kind>(
    output: Stdout,
    error: Stderr,
    file: F,
    task: Task,
    kind: PhantomData<K>,
) {
    let mut records = Records {
        output,
        error,
        file,
        task,
        kind,
    };
    setup::run(&mut records);
}

// The blocks of S-CDRs in a file.
pub fn both<F: Read + Drop>(output: Stdout, error: Stderr, file: F) {
    run(output, error, file, Task::Both, PhantomData::<Record>);
}

// The blocks of M-CDRs in the file that an argument names.
pub fn both_mm<R: Env + Files>(rt: &R, output: Stdout, error: Stderr, argument: usize) {
    let command = Command {
        name: b"records",
        error,
    };
    if let Some(file) = command.open(rt, argument) {
        run(output, error, file, Task::Both, PhantomData::<MmRecord>);
    }
}

pub fn main<F: Read + Drop>(rt: &impl Env, output: Stdout, error: Stderr, file: F) {
    let cdr = PhantomData::<Record>;
    let mm = PhantomData::<MmRecord>;
    let mut held = [0u8; 16];
    match setup::arg(rt, 2, &mut held) {
        b"write" => run(output, error, file, Task::Write, cdr),
        b"read" => run(output, error, file, Task::Read, cdr),
        b"both" => run(output, error, file, Task::Both, cdr),
        b"write-mm" => run(output, error, file, Task::Write, mm),
        b"read-mm" => run(output, error, file, Task::Read, mm),
        b"both-mm" => run(output, error, file, Task::Both, mm),
        _ => setup::say_line(
            error,
            b"usage: records write|read|both|write-mm|read-mm|both-mm\n",
        ),
    }
}
