// Checks one job, reads the lines of one page, or writes one row, and prints the answer, so that the instructions can be counted. The standard input
// is two words, high byte first: 1, 2 or 3 for one of these, and the width; then the job, the page from after its head on, or the row. With 4 a row is
// written into an output of as many bytes as a third word says. The input has at most 131,072 bytes. Of another one nothing is printed.
#![tactic(auto)]

use gdi_check::check_job;
use gdi_read::{LineRead, read_line};
use gdi_rows::write_row;
use reading::read_full;
use refusal::Refusal;
use std::io;

fn print_refusal(rt: &impl Print, refusal: Refusal) -> io::Result<()> {
    println!(rt; "refused {} {}", u8::from(refusal.fault), refusal.place)
}

fn check(rt: &impl Print, job: &[u8]) -> io::Result<()> {
    match check_job(job) {
        Ok(pages) => println!(rt; "pages {pages} 0"),
        Err(refusal) => print_refusal(rt, refusal),
    }
}

// Reads lines one after another from the beginning of the bytes on, as many as there are bytes at the most.
fn read_lines(rt: &impl Print, bytes: &[u8], width: usize, row: &mut [u8]) -> io::Result<()> {
    let mut at = 0;
    let mut rest = 0;
    for lines in 0..bytes.len() {
        match read_line(bytes, at, rest, width, row) {
            Ok(LineRead::Line { offset, left }) => {
                at = offset;
                rest = left;
            }
            Ok(LineRead::PageEnd { offset, .. }) => {
                return println!(rt; "page end {offset} {lines}");
            }
            Err(refusal) => return print_refusal(rt, refusal),
        }
    }
    Ok(())
}

fn write(rt: &impl Print, width: usize, row: &[u8], output: &mut [u8]) -> io::Result<()> {
    match write_row(width, row, output) {
        Ok(n) => println!(rt; "written {n} 0"),
        Err(refusal) => print_refusal(rt, refusal),
    }
}

// The number of a word, high byte first.
fn number(high: u8, low: u8) -> usize {
    usize::from(u16::from_be_bytes([high, low]))
}

fn run(rt: &impl Print, input: &[u8], row: &mut [u8], output: &mut [u8]) -> io::Result<()> {
    match input {
        [0, 1, _, _, job @ ..] => check(rt, job),
        [0, 2, high, low, page @ ..] => {
            let width = number(*high, *low);
            match row.get_mut(..width.div_ceil(8)) {
                Some(row) => read_lines(rt, page, width, row),
                None => Ok(()),
            }
        }
        [0, 3, high, low, row @ ..] => write(rt, number(*high, *low), row, output),
        [0, 4, high, low, room_high, room_low, row @ ..] => {
            match output.get_mut(..number(*room_high, *room_low)) {
                Some(output) => write(rt, number(*high, *low), row, output),
                None => Ok(()),
            }
        }
        _ => Ok(()),
    }
}

fn main(rt: HostRuntime) -> io::Result<()> {
    let mut input = [0u8; 131072];
    let mut row = [0u8; 8192];
    // The longest line that the writer writes.
    let mut output = [0u8; 16773];
    let n = read_full(&mut rt.stdin(), &mut input)?;
    run(&rt, &input[..n], &mut row, &mut output)
}
