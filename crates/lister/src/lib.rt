// Listings: what the check answers for a sheet with an empty load, then each band of each page as it is drawn.
#![tactic(auto)]

ghost use Rattle.std.specs.Prelude.{◌≡◌, ◌<◌, List, ℕ, length, IfOk};
ghost use Rattle.std.specs.Io.KnownBytes.{Consumes, IsAtEnd};
ghost use Rattle.film_check.specs.Promise.{checked_as};
ghost use Rattle.lister.specs.Listing.{empty_load, list_answer};

use film_check::check;
use film_draw::draw;
use film_drawing::Drawn;
use film_herald::{bands_per_page, row_bytes};
use film_words::word;
use reading::read_full;
use refusal::{Fault, Refusal};
use std::io;
use std::io::Read;
use text::{band_line, pages_line, refusal_line, row_line};

// The most bytes that are listed.
const LONGEST: usize = 65536;

// Room for one byte more.
const ROOM: usize = 65537;

// Writes what was put at the start of the line.
fn print_start(rt: &impl Print, line: &[u8], put: Option<usize>) -> io::Result<()> {
    match put.and_then(|n| line.get(..n)) {
        Some(text) => rt.write_all(text),
        None => Ok(()),
    }
}

fn print_refusal(rt: &impl Print, r: Refusal) -> io::Result<()> {
    let mut line = [0u8; 128];
    let put = refusal_line(u8::from(r.fault), r.place, &mut line);
    print_start(rt, &line, put)
}

// Prints the rows that stand end to end, of at most 4,096 bytes each; no sheet that passes has longer ones, or rows without bytes.
fn print_rows(rt: &impl Print, buffer: &[u8], rows: usize, row_bytes: usize) -> io::Result<()> {
    let mut line = [0u8; 8193];
    for row in buffer.chunks_exact(row_bytes.max(1)).take(rows) {
        let put = row_line(row, &mut line);
        print_start(rt, &line, put)?;
    }
    Ok(())
}

// Draws a band into the buffer and prints it.
fn print_band(
    rt: &impl Print,
    sheet: &[u8],
    load: &[u8],
    page: usize,
    band: usize,
    buffer: &mut [u8],
) -> io::Result<()> {
    match draw(sheet, load, page, band, buffer) {
        Ok(Drawn { rows, dots }) => {
            let mut line = [0u8; 128];
            let put = band_line(page, band, rows, dots, &mut line);
            print_start(rt, &line, put)?;
            print_rows(rt, buffer, rows, row_bytes(word(sheet, 6)))
        }
        Err(refusal) => print_refusal(rt, refusal),
    }
}

// Prints the pages one after another. A band's rows take at most 65,536 bytes.
fn print_pages(rt: &impl Print, sheet: &[u8], load: &[u8], pages: usize) -> io::Result<()> {
    let bands = bands_per_page(sheet);
    let mut line = [0u8; 128];
    let put = pages_line(pages, bands, &mut line);
    print_start(rt, &line, put)?;
    let mut buffer = [0u8; 65536];
    for page in 0..pages {
        for band in 0..bands {
            print_band(rt, sheet, load, page, band, &mut buffer)?;
        }
    }
    Ok(())
}

// A load file without words: the count 0 alone.
fn no_load() -> &'static [u8]
    ensures { result.now ≡ empty_load }
{
    let load = b"\x00\x00\x00\x00";
    load
}

// What the check answers for a sheet of at most 65,536 bytes with an empty load; a longer input is refused with 1 at 0.
#[tactic(auto, unfolding(crate::specs::Listing::list_answer))]
pub fn answer(input: &[u8]) -> Result<usize, Refusal>
    ensures { checked_as result ≡ list_answer input.now }
{
    if input.len() > LONGEST {
        return Err(Fault::Length.at(0));
    }
    check(input, no_load())
}

// Prints the listing of the input, or the line of its refusal, and gives what is answered for it. Where a line cannot be written, it answers that error, and no
// other.
pub fn list(rt: &impl Print, input: &[u8]) -> io::Result<Result<usize, Refusal>>
    ensures { IfOk result (λ checked. checked_as checked ≡ list_answer input.now) }
{
    let checked = answer(input);
    match checked {
        Ok(pages) => print_pages(rt, input, no_load(), pages)?,
        Err(refusal) => print_refusal(rt, refusal)?,
    }
    Ok(checked)
}

// The same for an input that is read: all of it, or its first 65,537 bytes. A read that fails is answered as its error.
pub fn list_input<R: Read>(rt: &impl Print, input: &mut R) -> io::Result<Result<usize, Refusal>>
    ensures { IfOk result (λ checked. (bytes : List ℕ)
        × Consumes (R.remaining input.old) (R.remaining input.new) bytes
        × (length bytes < 65537 → IsAtEnd (R.remaining input.new))
        × (checked_as checked ≡ list_answer bytes)) }
{
    let mut buffer = [0u8; ROOM];
    let n = read_full(input, &mut buffer)?;
    list(rt, &buffer[..n])
}
