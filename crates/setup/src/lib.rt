// How a program begins: the files that its arguments name, and the node that the profile among them sets up. What is wrong is said on
// standard error, after the command's name.
//
// No contract can say what is read or written: each function that does so is proved safe and ending.
#![tactic(auto)]

ghost use Rattle.std.specs.Prelude.{◌≡◌};
ghost use Rattle.node.specs.Sound.{fresh_of};

use node::Node;
use out::Stream;
use profile::Profile;
use std::env::{Env, FillError};
use std::io::{Cursor, ErrorKind, Read, Stderr, Write};
use std::rt::Files;
use std::{fmt, fs, io};
use window::Input;

// The numbers that the system has for an argument that is missing, and for a name that is too long.
const INVALID: i32 = 22;

const TOO_LONG: i32 = 36;

// How many characters of what is said of an error are words, without the number that may stand behind them.
fn words(s: &[u8]) -> usize {
    let number = b" (os error ".as_slice();
    s.windows(number.len())
        .position(|w| w == number)
        .unwrap_or(s.len())
}

// Says what failed, and why.
pub fn say_why(error: Stderr, what: &[u8], why: io::Error) {
    let mut cursor = Cursor::new([0u8; 256]);
    let _ = write!(cursor, "{why}");
    let end = cursor.position();
    let text = cursor.into_inner();
    let said = octets::front(&text, end as usize);
    let mut to = out::to_error(error);
    let _ = to.write_all(what);
    let _ = to.write_all(b": ");
    let _ = to.write_all(octets::front(said, words(said)));
    let _ = to.write_all(b"\n");
    let _ = to.flush();
}

// Says a line as it stands, in which its line feed is.
pub fn say_line(error: Stderr, line: &[u8]) {
    let _ = error.write_all(line);
}

// Says what can be shown, and a line feed after it.
pub fn say(error: Stderr, line: &impl fmt::Display) {
    let mut to = out::to_error(error);
    let _ = writeln!(to, "{line}");
    let _ = to.flush();
}

// How many arguments there are, the program's own name among them.
pub fn arg_count(rt: &impl Env) -> usize {
    let mut held = [0u8; 1];
    for i in 0..usize::MAX {
        if let Err(FillError::NotPresent) = rt.arg(i, &mut held) {
            return i;
        }
    }
    usize::MAX
}

// An argument, in a buffer that is lent; nothing where it is missing, or longer than the buffer.
pub fn arg<'a>(rt: &impl Env, argument: usize, held: &'a mut [u8]) -> &'a [u8] {
    let n = rt.arg(argument, held).unwrap_or(0);
    octets::front(held, n)
}

// Is an argument this word?
pub fn is_word(rt: &impl Env, argument: usize, word: &[u8]) -> bool {
    let mut held = [0u8; 16];
    arg(rt, argument, &mut held) == word
}

// What the system says of an argument that is missing, or too long for a name. (Both types are std's, so no `From` can stand here.)
fn error_of(why: FillError) -> io::Error {
    match why {
        FillError::NotPresent => io::Error::from_raw_os_error(INVALID),
        FillError::TooLong => io::Error::from_raw_os_error(TOO_LONG),
    }
}

fn file_at<R: Files>(rt: &R, path: &[u8]) -> io::Result<R::File> {
    match str::from_utf8(path) {
        Ok(name) => fs::open(rt, name),
        Err(_) => Err(io::Error::new(ErrorKind::InvalidInput, "the name is not UTF-8")),
    }
}

// What goes on in turns, as long as its input does.
pub trait Turns {
    // Takes a turn, and answers whether to go on.
    fn turn(&mut self) -> bool;
}

// Takes turns to the end. A proved loop has to end, and nothing says that a file does. So it counts them, up to a number that no run uses up.
pub fn run<T: Turns>(turns: &mut T) {
    for _ in 0..u64::MAX {
        if !turns.turn() {
            break;
        }
    }
}

// A command: its name, any octets, with which it says what is wrong, and standard error, where it does.
#[derive(Clone, Copy)]
pub struct Command<'a> {
    pub name: &'a [u8],
    pub error: Stderr,
}

impl<'a> Command<'a> {
    // Says a line, after the command's name.
    pub fn say(self, line: &impl fmt::Display) {
        let mut to = out::to_error(self.error);
        let _ = to.write_all(self.name);
        let _ = writeln!(to, ": {line}");
        let _ = to.flush();
    }

    // Says what failed, and why, after the command's name.
    pub fn fail(self, what: &[u8], why: io::Error) {
        let mut to = out::to_error(self.error);
        let _ = to.write_all(self.name);
        let _ = to.write_all(b": ");
        let _ = to.flush();
        say_why(self.error, what, why);
    }

    // The same of standard output, where a write failed. A stream to another end is called so too.
    pub fn fail_output<W: Write>(self, output: &Stream<W>) {
        if let Some(why) = output.failed() {
            self.fail(b"standard output", why);
        }
    }

    // Reads on in a file, behind what is left in its window, and answers whether it could. If not, it says so, with a word for the file.
    pub fn read_on<F: Read>(self, what: &[u8], input: &mut Input<F>) -> bool {
        match input.read_on() {
            Ok(_) => true,
            Err(why) => {
                self.fail(what, why);
                false
            }
        }
    }

    // Opens the file that an argument names, if it can.
    pub fn open<R: Env + Files>(self, rt: &R, argument: usize) -> Option<R::File> {
        let mut path = [0u8; 4096];
        match rt.arg(argument, &mut path) {
            Ok(n) => self.open_path(rt, octets::front(&path, n)),
            Err(why) => {
                self.fail(b"argument", error_of(why));
                None
            }
        }
    }

    // Opens the file of a name.
    fn open_path<R: Files>(self, rt: &R, path: &[u8]) -> Option<R::File> {
        match file_at(rt, path) {
            Ok(file) => Some(file),
            Err(why) => {
                self.fail(path, why);
                None
            }
        }
    }

    // The profile in the file of an argument, which is in range; nothing after standard error has said what is wrong.
    pub fn profile<R: Env + Files>(self, rt: &R, argument: usize) -> Option<Profile> {
        let mut file = self.open(rt, argument)?;
        self.profile_in(&mut file)
    }

    // The profile in a file.
    fn profile_in<F: Read>(self, file: &mut F) -> Option<Profile> {
        let mut text = [0u8; 4096];
        match file.read(&mut text) {
            Ok(n) => {
                let more = window::read_full(file, &mut text[n..]);
                self.profile_of_front(&text, n + more)
            }
            Err(why) => {
                self.fail(b"the profile", why);
                None
            }
        }
    }

    // The profile of the first n octets of text, if that is not all of it: a text that fills the buffer may go on.
    fn profile_of_front(self, text: &[u8], n: usize) -> Option<Profile> {
        if n < text.len() {
            return self.profile_of_text(octets::front(text, n));
        }
        self.say(&"the profile has more than 4,095 octets");
        None
    }

    // The profile that a text has.
    fn profile_of_text(self, s: &[u8]) -> Option<Profile> {
        match profile::text::read_profile(s) {
            Ok(profile) if profile::profile_ok(profile) => Some(profile),
            Ok(_) => {
                self.say(&OUT_OF_RANGE);
                None
            }
            Err(bad) => {
                self.say(&bad);
                None
            }
        }
    }

    // How a command on a file starts: the profile of the second argument (the first is the command), and the file of another; nothing after
    // standard error has said what is wrong.
    pub fn start<R: Env + Files>(self, rt: &R, argument: usize) -> Option<(Profile, R::File)> {
        let profile = self.profile(rt, 2)?;
        let file = self.open(rt, argument)?;
        Some((profile, file))
    }
}

// What is said of a profile that reads, and is out of range.
const OUT_OF_RANGE: &str =
    "refused 12: the profile is out of range: limits of 1 to 1000000000000 octets, 1 to 604800 seconds and 1 to 15 changes, \
offset -720 to 840, node-id of up to 20 characters from space to ~";

// The node that a profile in range sets up.
pub fn node_of(p: Profile) -> Node
    ensures { result ≡ (fresh_of p).1 }
{
    node::sound::fresh(p).unwrap_or(node::sound::no_node())
}
