// Runs the functions of `row` on small rows and prints a line for each case: the function, the row's bytes in hexadecimal, the other
// arguments, and after `=` the answer, or the row as it is then. What the program must print is in the file stdout beside src/.
#![tactic(auto)]

use std::{fmt, io};

// A row's bytes, or `-` where it has none.
#[derive(Clone, Copy)]
struct Bytes<'a>(&'a [u8]);

impl fmt::Display for Bytes<'_> {
    fn fmt<W: fmt::Write>(&self, f: &mut fmt::Formatter<W>) -> fmt::Result {
        if self.0.is_empty() {
            return write!(f, "-");
        }
        for b in self.0 {
            write!(f, "{b:02x}")?;
        }
        Ok(())
    }
}

fn dot(rt: &impl Print, row: &[u8], f: usize) -> io::Result<()> {
    let dot = u8::from(row::dot(row, f));
    println!(rt; "dot {} {f} = {dot}", Bytes(row))
}

fn set_dot(rt: &impl Print, row: &mut [u8], f: usize, v: bool) -> io::Result<()> {
    print!(rt; "set_dot {} {f} {} = ", Bytes(row), u8::from(v))?;
    row::set_dot(row, f, v);
    println!(rt; "{}", Bytes(row))
}

fn fill(rt: &impl Print, row: &mut [u8], from: usize, to: usize, v: bool) -> io::Result<()> {
    print!(rt; "fill {} {from} {to} {} = ", Bytes(row), u8::from(v))?;
    row::fill(row, from, to, v);
    println!(rt; "{}", Bytes(row))
}

fn ones(rt: &impl Print, row: &[u8]) -> io::Result<()> {
    println!(rt; "ones {} = {}", Bytes(row), row::ones(row))
}

fn run_end(rt: &impl Print, row: &[u8], from: usize, width: usize) -> io::Result<()> {
    let end = row_runs::run_end(row, from, width);
    println!(rt; "run_end {} {from} {width} = {end}", Bytes(row))
}

fn spare_clear(rt: &impl Print, row: &[u8], width: usize) -> io::Result<()> {
    let clear = u8::from(row_runs::spare_clear(row, width));
    println!(rt; "spare_clear {} {width} = {clear}", Bytes(row))
}

// Each function on a row without bytes.
fn empty(rt: &impl Print, row: &mut [u8]) -> io::Result<()> {
    dot(rt, row, 0)?;
    set_dot(rt, row, 0, true)?;
    fill(rt, row, 0, 8, true)?;
    ones(rt, row)?;
    run_end(rt, row, 0, 5)?;
    spare_clear(rt, row, 0)
}

// One dot, on either side of a byte border, and past the end.
fn dots(rt: &impl Print, row: &mut [u8]) -> io::Result<()> {
    set_dot(rt, row, 7, true)?;
    set_dot(rt, row, 8, true)?;
    set_dot(rt, row, 7, false)?;
    set_dot(rt, row, 16, true)?;
    dot(rt, row, 7)?;
    dot(rt, row, 9)?;
    dot(rt, row, usize::MAX)
}

// A stretch within a byte, one over a byte border, one that ends before it starts, one past the end, and one cleared.
fn stretches(rt: &impl Print, row: &mut [u8]) -> io::Result<()> {
    fill(rt, row, 1, 4, true)?;
    fill(rt, row, 7, 9, true)?;
    fill(rt, row, 12, 9, true)?;
    fill(rt, row, 14, usize::MAX, true)?;
    fill(rt, row, 2, 8, false)
}

// Counts, runs and spare dots of the row 70 01: dots 1 to 3 and 15.
fn readings(rt: &impl Print, row: &[u8]) -> io::Result<()> {
    ones(rt, row)?;
    run_end(rt, row, 1, 16)?;
    run_end(rt, row, 4, 16)?;
    run_end(rt, row, 4, 12)?;
    run_end(rt, row, 9, 5)?;
    run_end(rt, row, 0, 0)?;
    spare_clear(rt, row, 4)?;
    spare_clear(rt, row, 15)?;
    spare_clear(rt, row, 16)
}

fn main(rt: HostRuntime) -> io::Result<()> {
    println!(rt; "row")?;
    let mut none = [0u8; 0];
    empty(&rt, &mut none)?;
    let mut first = [0u8; 2];
    dots(&rt, &mut first)?;
    let mut second = [0u8; 2];
    stretches(&rt, &mut second)?;
    readings(&rt, &[0x70, 0x01])?;
    // A row within a longer slice: the bytes on either side of it stay.
    let mut fourth = [0u8; 4];
    fill(&rt, &mut fourth[1..3], 4, usize::MAX, true)?;
    ones(&rt, &fourth)
}
