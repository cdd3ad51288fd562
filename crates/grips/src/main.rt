// For each grip of a bench log on standard input the record number of its message in a file of event records (README.md).
#![tactic(auto)]

mod seconds; // a number of seconds in text

use limits::Refusal;
use std::fs;
use std::io::{Error, ErrorKind, Read, Seek, SeekFrom};
use std::os::fd::AsRawFd;
use std::rt::{Env, Files};

// The longest line of a log.
const MOST_LINE: usize = 64;

// The number of standard input.
const STDIN: i32 = 0;

fn say(rt: &impl Eprint, text: &str) {
    let _ = rt.eprint(text);
}

fn say_no_input(rt: &impl Eprint) -> bool {
    say(rt, "grips: standard input can't be read\n");
    false
}

// The system's words of an error's text, without its number behind them.
fn words_of(text: &str) -> &str {
    match text.split_once(" (os error ") {
        Some((words, _)) => words,
        None => text,
    }
}

// A line on standard error: why the file of records can't be read.
fn say_why(rt: &(impl Eprint + Alloc), error: Error) {
    let Ok(text) = format!(in rt.alloc(); "{error}") else {
        let _ = eprintln!(rt; "grips: the file of records: {error}");
        return;
    };
    let words = words_of(text.as_str());
    let _ = eprintln!(rt; "grips: the file of records: {words}");
}

fn print_nearest(rt: &impl Print, answer: Result<Option<usize>, Refusal>) {
    match answer {
        Ok(Some(n)) => {
            replay::print_number(rt, n);
            replay::print_end(rt);
        }
        Ok(None) => replay::print_none(rt),
        Err(refusal) => replay::print_refusal(rt, refusal),
    }
}

// The line of one that is no number: its own number.
fn print_unknown(rt: &impl Print, number: u64) -> bool {
    replay::print(rt, b"? ");
    replay::print_number(rt, number);
    replay::print_end(rt);
    true
}

// The file of event records, and how far from a grip its message may be.
#[derive(Drop)]
struct Records<F> {
    file: F,
    within: f64,
}

// The line of a grip, or why the records can't be read. They are read in parts of 512, so that they need not stand in memory.
fn read_for(rt: &impl Print, file: &mut impl Read, grip: f64, within: f64) -> Result<(), Error> {
    let mut part = [0u8; 61440];
    let mut best = grip::no_records();
    let mut bytes: usize = 0;
    while bytes <= limits::MOST_RECORD_BYTES {
        let n = reading::fill(file, &mut part)?;
        if n == 0 {
            print_nearest(rt, grip::found(best, grip, within));
            return Ok(());
        }
        bytes += n;
        if limits::MOST_RECORD_BYTES < bytes {
            replay::print_refusal(rt, Refusal::Long);
            return Ok(());
        }
        best = grip::read_records(best, &part[..n], grip, within);
    }
    Ok(())
}

impl<F: Read + Seek> Records<F> {
    // From the file's start on, for each grip anew.
    fn answer(&mut self, rt: &(impl Print + Eprint + Alloc), grip: f64) -> bool {
        let start = self.file.seek(SeekFrom::Start(0));
        if let Err(e) = read_for(rt, &mut self.file, grip, self.within) {
            say_why(rt, e);
            return false;
        }
        if let Err(e) = start {
            say_why(rt, e);
            return false;
        }
        true
    }
}

fn print_line<F: Read + Seek>(
    rt: &(impl Print + Eprint + Alloc),
    text: &[u8],
    number: u64,
    records: &mut Records<F>,
) -> bool {
    match seconds::parse(text) {
        Some(grip) => records.answer(rt, grip),
        None => print_unknown(rt, number),
    }
}

// A line of the log and what it prints; false where nothing follows.
fn turn<F: Read + Seek>(
    rt: &(impl Input + Print + Eprint + Alloc),
    number: u64,
    records: &mut Records<F>,
) -> bool {
    let mut line = [0u8; 64];
    match reading::next_line(rt, &mut line) {
        Ok(None) => false,
        Err(_) => say_no_input(rt),
        Ok(Some(n)) => {
            if n <= MOST_LINE {
                return print_line(rt, &line[..n], number, records);
            }
            print_unknown(rt, number)
        }
    }
}

fn read_log<F: Read + Seek>(rt: &(impl Input + Print + Eprint + Alloc), records: &mut Records<F>) {
    for number in 1..replay::MOST_CASES {
        if !turn(rt, number, records) {
            return;
        }
    }
}

// The file that the first argument names. A path that is no text in UTF-8 names none.
fn open_records<R: Env + Files>(rt: &R) -> Result<R::File, Error> {
    let mut path = [0u8; 4096];
    let n = command_line::arg(rt, 1, &mut path);
    match std::str::from_utf8(&path[..n]) {
        Ok(name) => fs::open(rt, name),
        Err(_) => Err(Error::from(ErrorKind::InvalidInput)),
    }
}

fn main(rt: HostRuntime) {
    let mut text = [0u8; 64];
    let n = command_line::arg(&rt, 2, &mut text);
    let (3, Some(within)) = (command_line::arg_count(&rt), seconds::parse(&text[..n])) else {
        say(
            &rt,
            "grips: a file of event records and a number of seconds are wanted: grips RECORDS SECONDS < LOG\n",
        );
        return;
    };
    let file = match open_records(&rt) {
        Ok(file) => file,
        Err(e) => {
            say_why(&rt, e);
            return;
        }
    };
    // where standard input is closed the file gets its number
    if file.as_raw_fd() == STDIN {
        say_no_input(&rt);
        return;
    }
    read_log(&rt, &mut Records { file, within });
}
