// The rows that Print writes: four dots at a time, by a table for the palette.
#![tactic(auto)]

ghost use Rattle.std.specs.Prelude.{◌≡◌, ℕ, ◌+◌, ◌*◌, ◌/◌, ◌%◌, ◌^◌, ◌≤◌, ◌<◌, length, get_or};
ghost use Rattle.strip.specs.Dots.{index_of, shade, tile_byte, printed, printing};
ghost use Rattle.strip_rows.specs.Table.{four, entry_of};

use strip::BAND_BYTES;

// The first byte has an index's low bit, and the palette's highest two bits are for index 0.
#[tactic(auto, using(crate::proofs::Laws::shade_shifts))]
fn dot(palette: u8, first: u8, second: u8, x: u8) -> u8
    requires { x < 8 }
    ensures { (result ≡ shade palette (index_of first second x)) × (result < 4) }
{
    let index = (first >> (7 - x)) % 2 + 2 * ((second >> (7 - x)) % 2);
    (palette >> (6 - 2 * index)) % 4
}

// The leftmost dot is highest.
fn four_dots(palette: u8, low: u8, high: u8) -> u8
    ensures { result ≡ four palette low high 4 }
{
    64 * dot(palette, low, high, 4)
        + 16 * dot(palette, low, high, 5)
        + 4 * dot(palette, low, high, 6)
        + dot(palette, low, high, 7)
}

// An entry's number has the four dots' low bits as its low nibble, their high bits as its high nibble.
#[tactic(auto, unfolding(crate::specs::Table::entry_of, crate::proofs::Laws::zeros))]
fn table_of(palette: u8) -> [u8; 256]
    ensures { (k : ℕ) → k < 256 → get_or result k 0 ≡ entry_of palette k }
{
    let mut table = [0u8; 256];
    // By index: tried with array::from_fn, whose result the check and the library's lemmas give no entry of.
    for k in 0..256 {
        table[k] = four_dots(palette, (k % 16) as u8, (k / 16) as u8);
    }
    table
}

// The entry of four dots by the nibbles of their low bits and high bits.
fn entry(table: &[u8; 256], low: u8, high: u8) -> u8
    requires { (low < 16) × (high < 16) }
    ensures { result ≡ get_or table.now (16 * high + low) 0 }
{
    table[16 * (high as usize) + low as usize]
}

// Pair i of output bytes is of row i / 20 and tile i % 20.
fn tile_byte(i: usize) -> usize
    requires { i < 2 ^ 32 }
    ensures { result ≡ tile_byte (i / 20) (8 * (i % 20)) }
{
    320 * (i / 20 / 8) + 16 * (i % 20) + 2 * (i / 20 % 8)
}

// Two bytes of a tile give the two output bytes of eight dots.
fn rows(bands: &[u8], n: usize, palette: u8, dots: &mut [u8])
    requires { (n < 256) × (640 * n ≤ length bands.now) × (640 * n ≤ length dots.old) }
    ensures { dots.new ≡ printed bands.now n palette dots.old }
{
    let table = table_of(palette);
    // By index: the check knows nothing of the elements behind chunks_exact_mut.
    for i in 0..320 * n {
        let at = tile_byte(i);
        let first = bands[at];
        let second = bands[at + 1];
        dots[2 * i] = entry(&table, first / 16, second / 16);
        dots[2 * i + 1] = entry(&table, first % 16, second % 16);
    }
}

// Nothing is written where a buffer is too short for n bands.
#[tactic(auto, unfolding(strip::specs::Dots::printing))]
pub fn print(bands: &[u8], n: u8, palette: u8, dots: &mut [u8])
    ensures { dots.new ≡ printing bands.now n palette dots.old }
{
    let size = BAND_BYTES * n as usize;
    if bands.len() < size || dots.len() < size {
        return;
    }
    rows(bands, n as usize, palette, dots);
}
