// The writer of rows: a row as a line of a Sagem GDI job, one command for each run of a colour, in blocks.
#![tactic(auto)]

ghost use Rattle.std.specs.Prelude.{◌≡◌, Bool, cond, [], ◌∷◌, ◌++◌, ◌+◌, ◌*◌, ◌≤◌, leb, length, drop};
ghost use Rattle.row.specs.Dots.{bit};
ghost use Rattle.gdi_jobs.specs.Commands.{run};
ghost use Rattle.gdi_jobs.specs.Rows.{command_bytes, row_bytes};
ghost use Rattle.gdi_jobs.specs.Writers.{fits_width, row_writing, answer_of, output_after};
ghost use Rattle.gdi_jobs.specs.Room.{row_room};
ghost use Rattle.gdi_write.specs.Answers.{written_as};
ghost use Rattle.gdi_rows.specs.Places.{put_at};

use gdi_jobs::WIDEST;
use refusal::{Fault, Refusal};

// The only refusal of the row writer: of the width, of the row, and then of the output.
const REFUSED: Refusal = Refusal {
    fault: Fault::Writing,
    place: 0,
};

// A width that a row may have, in dots.
#[derive(Clone, Copy)]
struct Width {
    dots: usize,
    ghost some: { 1 ≤ dots },
    ghost most: { dots ≤ 16383 },
}

// Puts the bytes at place `at` of the output, where it has room for them. Not by get_mut: a proof has no name for the output after it.
#[tactic(auto, using(crate::proofs::Places::put_past, crate::proofs::Places::put_part))]
fn put_at(bytes: &[u8], at: usize, output: &mut [u8])
    ensures { output.new ≡ put_at bytes.now at output.old }
{
    if at <= output.len() {
        buffers::put(bytes, &mut output[at..]);
    }
}

// Puts the head of a block of `size` bytes at place `at` of the output.
fn put_block_head(size: usize, at: usize, output: &mut [u8])
    requires { size ≤ 255 }
    ensures { output.new ≡ put_at (0x12 ∷ 0x00 ∷ size ∷ 0x00 ∷ 0x00 ∷ 0x00 ∷ []) at output.old }
{
    put_at(&[0x12, 0, size as u8, 0, 0, 0], at, output);
}

// How many bytes the command of a run has.
#[tactic(auto, unfolding(gdi_jobs::specs::Rows::command_bytes))]
fn command_size(dots: usize) -> usize
    ensures { (black : Bool) → result ≡ length (command_bytes (run black dots)) }
{
    if dots < 64 { 1 } else { 2 }
}

// The bit of a command that says black.
fn colour_bit(black: bool) -> u8
    ensures { result ≡ 64 * bit black }
{
    64 * u8::from(black)
}

// Puts the command of a run at place `at` of the output.
#[tactic(auto, unfolding(gdi_jobs::specs::Rows::command_bytes))]
fn put_command(black: bool, dots: usize, at: usize, output: &mut [u8])
    requires { dots ≤ 16383 }
    ensures { output.new ≡ put_at (command_bytes (run black dots)) at output.old }
{
    let colour = colour_bit(black);
    if dots < 64 {
        put_at(&[colour + dots as u8], at, output);
    } else {
        put_at(
            &[128 + colour + (dots % 64) as u8, (dots / 64) as u8],
            at,
            output,
        );
    }
}

// A block: the place of its head, and how many bytes it has.
#[derive(Clone, Copy)]
struct Block {
    head: usize,
    size: usize,
}

// The block that takes n bytes more: the same, or one after it where they would take it over 255.
fn block_for(b: Block, n: usize) -> Block
    requires { (b.head + b.size ≤ 1000000) × (n ≤ 2) }
    ensures head_value { result.head ≡ cond (leb (b.size + n) 255) b.head (b.head + 6 + b.size) }
    ensures size_value { result.size ≡ cond (leb (b.size + n) 255) (b.size + n) n }
{
    if b.size + n <= 255 {
        Block {
            size: b.size + n,
            ..b
        }
    } else {
        Block {
            head: b.head + 6 + b.size,
            size: n,
        }
    }
}

// Goes over the runs of the row and puts the line's blocks at the beginning of the output, as far as it has room for them. Answers how many
// bytes the line has.
fn put_runs(row: &[u8], width: Width, output: &mut [u8]) -> usize
    ensures value { result ≡ length (row_bytes width.dots row.now) }
    ensures output_after { length (row_bytes width.dots row.now) ≤ length output.old
        → output.new ≡ row_bytes width.dots row.now ++ drop (length (row_bytes width.dots row.now)) output.old }
{
    let mut block = Block { head: 0, size: 0 };
    let mut from = 0;
    put_block_head(0, 0, output);
    // By place: each turn passes a whole run.
    while from < width.dots {
        let end = row_runs::run_end(row, from, width.dots);
        let dots = end - from;
        let n = command_size(dots);
        block = block_for(block, n);
        put_block_head(block.size, block.head, output);
        put_command(
            row::dot(row, from),
            dots,
            block.head + 6 + block.size - n,
            output,
        );
        from = end;
    }
    block.head + 6 + block.size
}

// Whether the row has just the bytes of its width, and no spare bit is set.
#[tactic(auto, unfolding(gdi_jobs::specs::Writers::fits_width, gdi_jobs::specs::Lines::line_bytes))]
fn fits_width(row: &[u8], width: Width) -> bool
    ensures { result ≡ fits_width row.now width.dots }
{
    row.len() == width.dots.div_ceil(8) && row_runs::spare_clear(row, width.dots)
}

// The bytes that a line of this width never needs more of.
#[tactic(auto, unfolding(gdi_jobs::specs::Room::row_room))]
fn row_room(width: Width) -> usize
    ensures { result ≡ row_room width.dots }
{
    width.dots + 6 * width.dots.div_ceil(255)
}

// Whether an output of `room` bytes is long enough for the line. Where it is for any line of this width, the row is not looked at.
#[tactic(auto, using(crate::proofs::Refusals::room_yes))]
fn has_room(row: &[u8], width: Width, room: usize) -> bool
    ensures { result ≡ leb (length (row_bytes width.dots row.now)) room }
{
    // Nothing is put into no bytes: there the line is only measured.
    row_room(width) <= room || put_runs(row, width, &mut []) <= room
}

// Puts a row of the given width, as a line, at the beginning of the output, and answers how many bytes the line has; the bytes of the output beyond
// them stay. It is refused for the width, the row, and then the output, which is whole as it was after a refusal.
#[tactic(auto, unfolding(gdi_jobs::specs::Writers::row_writing, gdi_jobs::specs::Groups::admitted))]
pub fn write_row(width: usize, row: &[u8], output: &mut [u8]) -> Result<usize, Refusal>
    ensures result_value { written_as result ≡ answer_of (row_writing width row.now (length output.old)) }
    ensures output_after { output.new ≡ output_after (row_writing width row.now (length output.old)) output.old }
{
    if !(1..=WIDEST).contains(&width) {
        return Err(REFUSED);
    }
    let width = Width { dots: width };
    if !fits_width(row, width) || !has_room(row, width, output.len()) {
        return Err(REFUSED);
    }
    Ok(put_runs(row, width, output))
}
