// Runs `film_check::check` on the cases of the standard input, at most 65,536 bytes, and prints a line for each. A case is a line of three
// fields, split by one blank: a name, then the sheet's bytes and the load's in hexadecimal, `-` for none. What is printed is the name with
// the number of pages, with a refusal's number and place, or with `bad line` where the line has not this form; nothing for an empty line. For a
// longer input it prints `input too long` alone. What it must print for the file stdin beside src/ is in the file stdout there.
#![tactic(auto)]

use film_check::check;
use reading::read_full;
use std::io;

// The byte of two hexadecimal digits.
fn pair(high: u8, low: u8) -> Option<u8> {
    let high = char::from(high).to_digit(16)?;
    let low = char::from(low).to_digit(16)?;
    u8::try_from(16 * high + low).ok()
}

// The bytes of a field, `-` or pairs of digits, at least one. They are put at its start.
fn decode(field: &mut [u8]) -> Option<&[u8]> {
    if &*field == b"-".as_slice() {
        return Some(b"");
    }
    if field.is_empty() || field.len() % 2 == 1 {
        return None;
    }
    // Indices: the bytes are written where the digits are read.
    for i in 0..field.len() / 2 {
        field[i] = pair(field[2 * i], field[2 * i + 1])?;
    }
    field.get(..field.len() / 2)
}

// The sheet and the load: what stands after the name and its blank.
fn read_case(fields: &mut [u8]) -> Option<(&[u8], &[u8])> {
    let n = fields.iter().position(|b| *b == b' ')?;
    let (sheet, load) = fields.split_at_mut(n);
    Some((decode(sheet)?, decode(&mut load[1..])?))
}

fn print_bad_line(rt: &impl Print) -> io::Result<()> {
    println!(rt; "bad line")
}

fn run_line(rt: &impl Print, line: &mut [u8]) -> io::Result<()> {
    if line.is_empty() {
        return Ok(());
    }
    let n = line.iter().position(|b| *b == b' ').unwrap_or(line.len());
    let (name, fields) = line.split_at_mut(n);
    if name.is_empty() {
        return print_bad_line(rt);
    }
    rt.write_all(name)?;
    print!(rt; " ")?;
    if fields.is_empty() {
        return print_bad_line(rt);
    }
    match read_case(&mut fields[1..]) {
        Some((sheet, load)) => match check(sheet, load) {
            Ok(pages) => println!(rt; "pages {pages}"),
            Err(refusal) => println!(rt; "{refusal}"),
        },
        None => print_bad_line(rt),
    }
}

fn run_lines(rt: &impl Print, text: &mut [u8]) -> io::Result<()> {
    for line in text.split_mut(|b| *b == b'\n') {
        run_line(rt, line)?;
    }
    Ok(())
}

fn main(rt: HostRuntime) -> io::Result<()> {
    let mut text = [0u8; 65537];
    let n = read_full(&mut rt.stdin(), &mut text)?;
    if n > 65536 {
        return println!(rt; "input too long");
    }
    run_lines(&rt, &mut text[..n])
}
