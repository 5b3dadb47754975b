// What is printed after a case's name.

use gdi_read::LineRead;
use refusal::Refusal;
use std::{fmt, io};
use text::row_line;

// The digits of 32,768 bytes, and a newline.
const LINE: usize = 65537;

// What a function answered, where it refused nothing.
#[derive(Clone, Copy)]
pub enum Answer {
    Pages(usize),
    Read(LineRead),
    Written(usize),
    Linefill(u16),
}

impl fmt::Display for Answer {
    fn fmt<W: fmt::Write>(&self, f: &mut fmt::Formatter<W>) -> fmt::Result {
        match self {
            Answer::Pages(n) => write!(f, "pages {n}"),
            Answer::Read(LineRead::Line { offset, left }) => write!(f, "line {offset} {left}"),
            Answer::Read(LineRead::PageEnd { offset, left }) => write!(
                f,
                "pageend {offset} {left}"
            ),
            Answer::Written(n) => write!(f, "written {n}"),
            Answer::Linefill(command) => write!(f, "linefill {command:04X}"),
        }
    }
}

// Bytes in capital digits, `-` for none: at most as many as a line holds. They are put into a line at once: a format for each byte costs seven times as much.
pub(super) fn print_digits(rt: &impl Print, bytes: &[u8]) -> io::Result<()> {
    if bytes.is_empty() {
        return print!(rt; "-");
    }
    let mut line = [0u8; LINE];
    match row_line(bytes, &mut line).and_then(|n| line.get(..n.saturating_sub(1))) {
        Some(digits) => rt.write_all(digits),
        None => Ok(()),
    }
}

pub(super) fn print_answer(rt: &impl Print, answer: Result<Answer, Refusal>) -> io::Result<()> {
    match answer {
        Ok(answer) => print!(rt; "{answer}"),
        Err(refusal) => print!(rt; "{refusal}"),
    }
}

// The case's name and a blank.
pub(super) fn print_name(rt: &impl Print, name: &[u8]) -> io::Result<()> {
    rt.write_all(name)?;
    print!(rt; " ")
}

// Ends the line, and begins another of the same case.
pub(super) fn print_next(rt: &impl Print, name: &[u8]) -> io::Result<()> {
    println!(rt; "")?;
    print_name(rt, name)
}

pub(super) fn print_bad_line(rt: &impl Print) -> io::Result<()> {
    print!(rt; "bad line")
}
