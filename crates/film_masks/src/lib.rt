// Masks in a colour, inked into the rows that they have in a band buffer. Each row is lent as its own part of the buffer.
#![tactic(auto)]

ghost use Rattle.std.specs.Prelude.{◌≡◌, ◌&&◌, ◌+◌, ◌-◌, ◌≤◌, ◌<◌, ℕ, Bool, leb, ltb, eqb, length};
ghost use Rattle.film_words.specs.Words.{words};
ghost use Rattle.film_commands.specs.Commands.{rectangle, trapezoid, runs, samples};
ghost use Rattle.film_commands.specs.Code.{mask_of, colour_of};
ghost use Rattle.film_imaging.specs.Masks.{masked};
ghost use Rattle.film_imaging.specs.Colours.{painted};
ghost use Rattle.film_paint.specs.Rows.{window_of, painted_row};
ghost use Rattle.film_masks.specs.Bands.{painted_frame};
ghost use Rattle.film_masks.specs.Lines.{HasRows, TakesLines, LinesInked};

use film_commands::{Colour, Mask, Rectangle, Trapezoid};
use film_edges::edge_at;
use film_herald::row_bytes;
use film_paint::{Frame, ink_samples, ink_stretch};
use film_words::word;

// Inks the stretch from dot `from` up to, not including, `to` into line s, which the band has.
fn stretch_in_row(buf: &mut [u8], frame: Frame, s: u32, from: usize, to: usize, colour: Colour)
    requires { HasRows frame buf.old × (frame.top ≤ s) × (s < frame.top + frame.rows) }
    ensures { buf.new ≡ painted_frame frame (colour_of colour.entry) (λ t f. eqb t s && (leb from f && ltb f to)) buf.old }
{
    let n = row_bytes(frame.width);
    let at = (s - frame.top as u32) as usize * n;
    ink_stretch(&mut buf[at..at + n], frame, s, from, to, colour);
}

// Inks the mask's lines from `first` up to, not including, `end` that the band has, each by `ink_row` into its row.
fn ink_lines<F: Fn(&mut [u8], u32)>(buf: &mut [u8], frame: Frame, first: u32, end: u32, ink_row: F)
    requires { HasRows frame buf.old × TakesLines first end (F.pre ink_row) }
    ensures { LinesInked frame first end (F.post ink_row) buf.old buf.new }
{
    let n = row_bytes(frame.width);
    let top = frame.top as u32;
    for s in first.max(top)..end.min(top + frame.rows as u32) {
        let at = (s - top) as usize * n;
        ink_row(&mut buf[at..at + n], s);
    }
}

// Inks a rectangle.
fn ink_rectangle(buf: &mut [u8], frame: Frame, r: Rectangle, colour: Colour)
    requires { HasRows frame buf.old }
    ensures { buf.new ≡ painted_frame frame (colour_of colour.entry) (masked (rectangle r.s_min r.s_size r.f_min r.f_size)) buf.old }
{
    let first = r.s_min as u32;
    let end = first + r.s_size as u32;
    let from = r.f_min as usize;
    let to = from + r.f_size as usize;
    ink_lines(
        buf,
        frame,
        first,
        end,
        |row, s| ink_stretch(row, frame, s, from, to, colour),
    );
}

// Inks line s of a trapezoid into its row: the stretch between its two edges there, rounded up. One of a single line has an edge over no lines, its first.
fn ink_trapezoid_row(row: &mut [u8], frame: Frame, t: Trapezoid, s: u32, colour: Colour)
    requires { (t.s_min ≤ s) × (s < t.s_min + t.s_size) }
    ensures { row.new ≡ painted_row (window_of frame) (colour_of colour.entry) s (masked (trapezoid t.s_min t.s_size t.f_min t.f_size t.f_min_last t.f_size_last) s) row.old }
{
    let lines = t.s_size - 1;
    let d = (s - t.s_min as u32) as u16;
    let a = t.f_min as u32;
    let z = t.f_min_last as u32;
    let from = edge_at(a, z, lines, d) as usize;
    let to = edge_at(a + t.f_size as u32, z + t.f_size_last as u32, lines, d) as usize;
    ink_stretch(row, frame, s, from, to, colour);
}

// Inks a trapezoid.
fn ink_trapezoid(buf: &mut [u8], frame: Frame, t: Trapezoid, colour: Colour)
    requires { HasRows frame buf.old }
    ensures { buf.new ≡ painted_frame frame (colour_of colour.entry) (masked (trapezoid t.s_min t.s_size t.f_min t.f_size t.f_min_last t.f_size_last)) buf.old }
{
    let first = t.s_min as u32;
    let end = first + t.s_size as u32;
    ink_lines(
        buf,
        frame,
        first,
        end,
        |row, s| ink_trapezoid_row(row, frame, t, s, colour),
    );
}

// Inks a run group: it is walked once, forward, up to the band's last line. `group` are its words.
fn ink_runs(buf: &mut [u8], frame: Frame, s_min: u16, group: &[u8], colour: Colour)
    requires { HasRows frame buf.old }
    ensures { buf.new ≡ painted_frame frame (colour_of colour.entry) (masked (runs s_min (words group.now))) buf.old }
{
    let top = frame.top as u32;
    let band_end = top + frame.rows as u32;
    let end = group.len() / 2;
    let mut s = s_min as u32;
    let mut lines = word(group, 0);
    let mut q = 1;
    // By place, and not a `for` over runs: two counts, of lines and of the band's, end it as well.
    while lines > 0 && s < band_end && q + 2 <= end {
        let w = word(group, q + 1);
        if s >= top {
            let from = word(group, q) as usize;
            stretch_in_row(buf, frame, s, from, from + (w % 32768) as usize, colour);
        }
        q += 2;
        if w >= 32768 {
            lines -= 1;
            s += 1;
        }
    }
}

// Inks a sample array, line by line. `array` are its words.
fn ink_array(buf: &mut [u8], frame: Frame, s_min: u16, f_min: u16, array: &[u8], colour: Colour)
    requires { HasRows frame buf.old }
    ensures { buf.new ≡ painted_frame frame (colour_of colour.entry) (masked (samples s_min f_min (words array.now))) buf.old }
{
    // Dots right of the window are none of the band's.
    if f_min as usize >= frame.left as usize + frame.width as usize {
        return;
    }
    let first = s_min as u32;
    let end = first + word(array, 0) as u32;
    ink_lines(
        buf,
        frame,
        first,
        end,
        |row, s| ink_samples(row, frame, s, (s - first) as usize, f_min, array, colour),
    );
}

// Inks a mask into a band buffer, on the rows that it has in the band. A buffer that is shorter than the band's rows stays as it is.
#[tactic(auto, using(crate::proofs::Bands::band_short), unfolding(film_commands::specs::Code::mask_of))]
pub fn ink_mask(buf: &mut [u8], frame: Frame, colour: Colour, mask: Mask)
    ensures { buf.new ≡ painted_frame frame (colour_of colour.entry) (masked (mask_of mask.entry)) buf.old }
{
    if buf.len() < frame.size() {
        return;
    }
    match mask {
        Mask::Rectangle(r) => ink_rectangle(buf, frame, r, colour),
        Mask::Trapezoid(t) => ink_trapezoid(buf, frame, t, colour),
        Mask::Runs { s_min, group } => ink_runs(buf, frame, s_min, group.bytes, colour),
        Mask::Samples {
            s_min,
            f_min,
            array,
        } => ink_array(buf, frame, s_min, f_min, array.bytes, colour),
    }
}
