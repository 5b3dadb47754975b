// Receives the stream on its standard input, at most 65,536 bytes, and prints a line for each byte that is answered something else than a plain 0: its place
// in the stream and the answer. The status is 02 hex. At the end it prints the rows of the last page that was printed, in hexadecimal. For a longer input it
// prints `input too long` alone. What it must print for the file stdin beside src/ is in the file stdout there.
#![tactic(auto)]

use reading::read_full;
use refusal::Refusal;
use std::io;
use strip::{Answer, Receiver};
use strip_step::step;
use text::row_line;

const ROW_BYTES: usize = 40;

const BAND_ROWS: usize = 16;

// The answer to the byte at a place, where it is not a plain 0.
fn print_answer(rt: &impl Print, place: usize, answer: Result<Answer, Refusal>) -> io::Result<()> {
    match answer {
        Ok(Answer::Reply(0)) => Ok(()),
        Ok(Answer::Reply(byte)) => println!(rt; "{place} reply {byte}"),
        Ok(Answer::Initialized) => println!(rt; "{place} initialize"),
        Ok(Answer::Added(count)) => println!(rt; "{place} band {count}"),
        Ok(Answer::Ended) => println!(rt; "{place} page end"),
        Ok(Answer::Inquired) => println!(rt; "{place} inquiry"),
        Ok(
            Answer::Printed {
                count,
                margins,
                density,
            },
        ) => println!(rt; "{place} print {count} margins {margins} density {density}"),
        Err(refusal) => println!(rt; "{place} {refusal}"),
    }
}

fn print_rows(rt: &impl Print, dots: &[u8], bands: u8) -> io::Result<()> {
    let mut line = [0u8; 2 * ROW_BYTES + 1];
    for row in dots
        .chunks_exact(ROW_BYTES)
        .take(BAND_ROWS * usize::from(bands))
    {
        if row_line(row, &mut line).is_some() {
            rt.write_all(&line)?;
        }
    }
    Ok(())
}

fn receive_all(
    rt: &impl Print,
    stream: &[u8],
    bands: &mut [u8],
    dots: &mut [u8],
) -> io::Result<()> {
    let mut rec = Receiver {
        status: 2,
        ..strip::new()
    };
    let mut printed = 0;
    for (i, byte) in stream.iter().enumerate() {
        let s = step(rec, *byte, bands, dots);
        print_answer(rt, i, s.answer)?;
        if let Ok(Answer::Printed { count, .. }) = s.answer {
            printed = count;
        }
        rec = s.rec;
    }
    print_rows(rt, dots, printed)
}

fn main(rt: HostRuntime) -> io::Result<()> {
    let mut input = [0u8; 65537];
    let mut bands = [0u8; strip::ROOM];
    let mut dots = [0u8; strip::ROOM];
    let n = read_full(&mut rt.stdin(), &mut input)?;
    if 65536 < n {
        return println!(rt; "input too long");
    }
    receive_all(&rt, &input[..n], &mut bands, &mut dots)
}
