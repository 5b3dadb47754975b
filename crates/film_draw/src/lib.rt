// Films: the draw of one band of a page.
#![tactic(auto)]

ghost use Rattle.std.specs.Prelude.{◌≡◌, ◌*◌, ◌<◌, ◌≤◌, ◌%◌, length};
ghost use Rattle.row.specs.Counts.{ones_of};
ghost use Rattle.film_words.specs.Words.{words};
ghost use Rattle.film_commands.specs.Band.{strokes};
ghost use Rattle.film_cursor.specs.Cursors.{reading};
ghost use Rattle.film_herald.specs.Herald.{herald_of, band_count};
ghost use Rattle.film_drawing.specs.Promise.{DrawPromised};
ghost use Rattle.film_draw.specs.Functions.{Fits, FrameOf, inked_with};

use film_cursor::{Cursor, Step, advance, start, test_band};
use film_drawing::Drawn;
use film_herald::{bands_per_page, row_bytes, test_herald};
use film_layout::{find_band, find_page};
use film_masks::ink_mask;
use film_paint::Frame;
use film_words::word;
use refusal::{Fault, Refusal};
use row::{clear, ones};

// The frame of band `band` of a page: its lines, and every dot of the film.
fn band_frame(sheet: &[u8], band: usize) -> Frame
    requires { (0 < (herald_of (words sheet.now)).band_s_size) × (band < band_count (herald_of (words sheet.now))) }
    ensures { FrameOf sheet.now band result }
{
    let lines = word(sheet, 5) as usize;
    let most = word(sheet, 7) as usize;
    let above = most * band;
    let own = most.min(lines - above);
    Frame {
        top: above as u16,
        rows: own as u16,
        left: 0,
        width: word(sheet, 6),
    }
}

// Carries out the commands of the band from place `from` up to, not including, `end` on the frame's rows, which are all 0 at first. Where a command is
// refused, those before it are carried out.
fn ink_band<'a>(
    buf: &mut [u8],
    frame: Frame,
    sheet: &'a [u8],
    load: &'a [u8],
    from: usize,
    end: usize,
)
    requires { Fits buf.old frame }
    ensures { buf.new ≡ inked_with frame (strokes from (reading sheet.now load.now from end).items) buf.old }
{
    let size = frame.size();
    clear(&mut buf[..size]);
    let mut c = start(from);
    // A refusal ends the band as its end does. No `while let`: the check does not cover one over a value that holds a reference.
    loop {
        let Some(step) = advance(sheet, load, end, c).unwrap_or(None) else {
            return;
        };
        c = match step {
            Step::Paint(m, at) => {
                ink_mask(buf, frame, c.colour, m);
                Cursor { at, ..c }
            }
            Step::Other(d) => d,
        };
    }
}

// The number of one bits in rows of `row_bytes` bytes each: each row's, added up.
fn count_dots(rows: &[u8], row_bytes: usize) -> usize
    requires { (length rows.now ≤ 65536) × (0 < row_bytes) × (length rows.now % row_bytes ≡ 0) }
    ensures { result ≡ ones_of rows.now }
{
    let mut dots = 0;
    for row in rows.chunks_exact(row_bytes) {
        dots += ones(row);
    }
    dots
}

// Draws band `band` of page `page` into the buffer: its rows from the first byte on, and the bytes beyond them stay. A refusal leaves the
// buffer as it is: the band's commands are all tested before the first byte is stored.
pub fn draw<'a>(
    sheet: &'a [u8],
    load: &'a [u8],
    page: usize,
    band: usize,
    buffer: &mut [u8],
) -> Result<Drawn, Refusal>
    ensures { DrawPromised sheet.now load.now page band buffer.old result buffer.new }
{
    test_herald(sheet, load)?;
    if page >= word(sheet, 11) as usize || band >= bands_per_page(sheet) {
        return Err(Fault::NoBand.at(0));
    }
    let frame = band_frame(sheet, band);
    let size = frame.size();
    if buffer.len() < size {
        return Err(Fault::ShortBuffer.at(0));
    }
    let walk = find_page(sheet, page)?;
    let (from, end) = find_band(sheet, walk, band)?;
    test_band(sheet, load, from, end)?;
    ink_band(buffer, frame, sheet, load, from, end);
    let dots = count_dots(&buffer[..size], row_bytes(frame.width));
    Ok(Drawn {
        rows: frame.rows as usize,
        dots,
    })
}
