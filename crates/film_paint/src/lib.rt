// Painting: a stretch or a line of samples, into a line's row. Rows are written by the functions of `row` alone. s is a line of the film, f a dot of it.
#![tactic(auto)]

ghost use Rattle.std.specs.Prelude.{◌≡◌, true, ◌&&◌, ◌+◌, ◌-◌, ◌*◌, ◌≤◌, ◌<◌, ◌^◌, Bool, ℕ, leb, ltb, length, drop};
ghost use Rattle.row.specs.Dots.{dot_at, row_of};
ghost use Rattle.row.specs.Stretches.{with_dot};
ghost use Rattle.film_words.specs.Words.{words};
ghost use Rattle.film_words.specs.Arrays.{samples_in, tile_in};
ghost use Rattle.film_commands.specs.Code.{colour_of};
ghost use Rattle.film_herald.specs.Herald.{row_length};
ghost use Rattle.film_imaging.specs.Masks.{sample};
ghost use Rattle.film_imaging.specs.Colours.{tile_dot, painted};
ghost use Rattle.film_paint.specs.Rows.{window_of, painted_row};
ghost use Rattle.film_paint.specs.Loops.{Takes, Tells};

use film_commands::Colour;
use film_herald::row_bytes;
use film_words::word;
use row::{fill, set_dot};

// The rows of a band buffer: `rows` rows, of which the first is line `top`; each holds the `width` dots from dot `left` on.
#[derive(Clone, Copy)]
pub struct Frame {
    pub top: u16,
    pub rows: u16,
    pub left: u16,
    pub width: u16,
}

impl Frame {
    // The bytes of its rows.
    pub fn size(self) -> usize
        ensures { result ≡ self.rows * row_length self.width }
    {
        self.rows as usize * row_bytes(self.width)
    }
}

// Dot j of line i of the sample array at place `at` of the file.
fn sample_dot(file: &[u8], at: usize, i: usize, j: usize) -> bool
    requires { at ≤ 3 }
    ensures { result ≡ sample (samples_in (drop at (words file.now))) i j }
{
    let dots = word(file, at + 1) as usize;
    if i >= word(file, at) as usize || j >= dots {
        return false;
    }
    let w = word(file, at + 2 + i * dots.div_ceil(16) + j / 16);
    (w >> (15 - j % 16)) & 1 == 1
}

// Dot f of line s of the tile as it is laid over the film.
fn tile_dot(tile: &[u8], s: u32, f: usize) -> bool
    ensures { result ≡ tile_dot (tile_in (words tile.now)) s f }
{
    let s_min = word(tile, 1) as u32;
    let s_size = word(tile, 3) as u32;
    let f_size = word(tile, 4) as usize;
    if s_size == 0 || f_size == 0 || s < s_min {
        return false;
    }
    let d = s - s_min;
    let start = word(tile, 2) as usize + (d / s_size) as usize * word(tile, 0) as usize;
    if f < start {
        return false;
    }
    sample_dot(tile, 3, (d % s_size) as usize, (f - start) % f_size)
}

// Paints dot f of line s, which is dot j of the row.
fn paint_dot(row: &mut [u8], j: usize, s: u32, f: usize, colour: Colour)
    ensures { row.new ≡ row_of (length row.old) (with_dot j (painted (colour_of colour.entry) s f true (dot_at row.old j)) (dot_at row.old)) }
{
    match colour {
        Colour::Solid(v) => set_dot(row, j, v),
        Colour::Tile(t) => {
            let c = tile_dot(t.words, s, f);
            // Where it is 0, a transparent tile leaves the dot.
            if c || !t.transparent {
                set_dot(row, j, c);
            }
        }
    }
}

// Paints the dots of the row from `from` up to, not including, `to`, one by one, where the mask has them. The row's first dot is dot `left` of the film, whose
// dots the mask is asked for.
fn paint_dots<F: Fn(usize) -> bool>(
    row: &mut [u8],
    left: u16,
    s: u32,
    from: usize,
    to: usize,
    colour: Colour,
    mask: F,
)
    requires { (to < 2 ^ 32) × Takes left from to (F.pre mask) }
    ensures { (M : ℕ → Bool) → Tells left from to (F.post mask) M → row.new ≡ row_of (length row.old) (λ j. painted (colour_of colour.entry) s (left + j) (leb from j && ltb j to && M (left + j)) (dot_at row.old j)) }
{
    // Past the row's end there is nothing to paint.
    let end = to.min(row.len().saturating_mul(8));
    for j in from..end {
        let f = left as usize + j;
        if mask(f) {
            paint_dot(row, j, s, f, colour);
        }
    }
}

// Inks the stretch of the film from dot `from` up to, not including, `to` into the row of line s.
pub fn ink_stretch(row: &mut [u8], frame: Frame, s: u32, from: usize, to: usize, colour: Colour)
    ensures { row.new ≡ painted_row (window_of frame) (colour_of colour.entry) s (λ f. leb from f && ltb f to) row.old }
{
    let left = frame.left as usize;
    let first = from.saturating_sub(left);
    let last = to.saturating_sub(left);
    let end = last.min(frame.width as usize);
    match colour {
        Colour::Solid(v) => fill(row, first, end, v),
        Colour::Tile(_) => paint_dots(row, frame.left, s, first, end, colour, |_| true),
    }
}

// Inks line i of a sample array, from dot f_min of the film on, into the row of line s.
pub fn ink_samples(
    row: &mut [u8],
    frame: Frame,
    s: u32,
    i: usize,
    f_min: u16,
    array: &[u8],
    colour: Colour,
)
    ensures { row.new ≡ painted_row (window_of frame) (colour_of colour.entry) s (λ f. leb f_min f && sample (samples_in (words array.now)) i (f - f_min)) row.old }
{
    let left = frame.left as usize;
    let from = f_min as usize;
    let first = from.saturating_sub(left);
    let last = (from + word(array, 1) as usize).saturating_sub(left);
    let end = last.min(frame.width as usize);
    let mask = |f| sample_dot(array, 0, i, f - from);
    paint_dots(row, frame.left, s, first, end, colour, mask);
}
