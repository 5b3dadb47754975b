// Draws one band into a buffer of 65,536 bytes and prints the answer, so that a draw's instructions can be counted. The standard input is four
// numbers of eight bytes each, high byte first: the sheet's bytes, the load's bytes, page and band; then sheet and load. It has at most 131,072
// bytes. Of another input nothing is printed.
#![tactic(auto)]

use film_draw::draw;
use film_drawing::Drawn;
use reading::read_full;
use std::io;

// The number of the first eight bytes, and what stands behind them.
fn split_number(input: &[u8]) -> Option<(usize, &[u8])> {
    let (number, rest) = input.split_first_chunk::<8>()?;
    Some((usize::from_be_bytes(*number), rest))
}

// A band to draw.
#[derive(Clone, Copy)]
struct Case<'a> {
    sheet: &'a [u8],
    load: &'a [u8],
    page: usize,
    band: usize,
}

fn read_case(input: &[u8]) -> Option<Case<'_>> {
    let (sheet_bytes, rest) = split_number(input)?;
    let (load_bytes, rest) = split_number(rest)?;
    let (page, rest) = split_number(rest)?;
    let (band, rest) = split_number(rest)?;
    let (sheet, rest) = rest.split_at_checked(sheet_bytes)?;
    let load = rest.get(..load_bytes)?;
    Some(Case {
        sheet,
        load,
        page,
        band,
    })
}

fn run(rt: &impl Print, case: Case, buffer: &mut [u8]) -> io::Result<()> {
    match draw(case.sheet, case.load, case.page, case.band, buffer) {
        Ok(Drawn { rows, dots }) => println!(rt; "drawn {rows} {dots}"),
        Err(refusal) => println!(rt; "refused {} {}", u8::from(refusal.fault), refusal.place),
    }
}

fn main(rt: HostRuntime) -> io::Result<()> {
    let mut input = [0u8; 131072];
    let mut buffer = [0u8; 65536];
    let n = read_full(&mut rt.stdin(), &mut input)?;
    match read_case(&input[..n]) {
        Some(case) => run(&rt, case, &mut buffer),
        None => Ok(()),
    }
}
