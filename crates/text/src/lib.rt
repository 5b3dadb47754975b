// The lines of a listing, in ASCII. Each public function puts one line at the start of `out`, with the newline that ends it, and answers
// how many bytes it has; the bytes of `out` beyond it stay. Where `out` is too short for the line it stays whole, and the answer is None.
#![tactic(auto)]

ghost use Rattle.std.specs.Prelude.{◌≡◌, List, ℕ, ◌++◌, ◌+◌, ◌≤◌, ◌<◌, length, drop};
ghost use Rattle.text.specs.declared.TheConstants.{SPACE};
ghost use Rattle.text.specs.Numbers.{hex_digit, decimal};
ghost use Rattle.text.specs.Lines.{newline, pages_line, band_line, row_line, refusal_line};
ghost use Rattle.buffers.specs.Buffers.{written, count};

use std::marker::Model;

// The space for a line of labels and numbers: the longest has 104 bytes.
const SPACE: usize = 128;

// A line of labels and numbers. It is made from its end, as the digits of a number are: what is put into it stands before what is there already.
#[derive(Drop)]
struct Line {
    space: [u8; SPACE],
    start: usize,
}

// What was put so far.
impl Model for Line {
    ghost Value = { List ℕ };

    ghost view = { λ l. drop l.start l.space };

    ghost invariant = { λ l. l.start ≤ SPACE };
}

impl Line {
    // The newline alone.
    fn new() -> Line
        ensures { result ≡ newline }
    {
        Line {
            space: [b'\n'; SPACE],
            start: SPACE - 1,
        }
    }

    // Puts n in decimal.
    fn put_number(&mut self, n: usize)
        requires { 20 + length self.old ≤ SPACE }
        ensures { self.new ≡ decimal n ++ self.old }
    {
        // By what is left of the number: there is nothing to iterate over.
        let mut at = self.start - 1;
        let mut rest = n;
        while 10 <= rest {
            self.space[at] = b'0' + (rest % 10) as u8;
            at -= 1;
            rest /= 10;
        }
        self.space[at] = b'0' + rest as u8;
        self.start = at;
    }

    // Puts the label.
    fn put_label(&mut self, label: &[u8])
        requires { length label.now + length self.old ≤ SPACE }
        ensures { self.new ≡ label.now ++ self.old }
    {
        let end = self.start;
        self.start -= label.len();
        self.space[self.start..end].copy_from_slice(label);
    }

    // Puts the label and then n.
    fn put_pair(&mut self, label: &[u8], n: usize)
        requires { 20 + length label.now + length self.old ≤ SPACE }
        ensures { self.new ≡ label.now ++ decimal n ++ self.old }
    {
        self.put_number(n);
        self.put_label(label);
    }

    // Puts two labels, each with its number.
    fn put_pairs(&mut self, first: &[u8], n: usize, second: &[u8], m: usize)
        requires { 40 + length first.now + length second.now + length self.old ≤ SPACE }
        ensures { self.new ≡ first.now ++ decimal n ++ second.now ++ decimal m ++ self.old }
    {
        self.put_pair(second, m);
        self.put_pair(first, n);
    }

    // Puts the line at the start of `out` where it fits, and answers how many bytes were put there.
    fn put_into(&self, out: &mut [u8]) -> Option<usize>
        ensures value { result ≡ count self.now out.old }
        ensures out_after { out.new ≡ written self.now out.old }
    {
        buffers::put(&self.space[self.start..], out)
    }
}

// The line `pages 1 bands 2`.
pub fn pages_line(pages: usize, bands: usize, out: &mut [u8]) -> Option<usize>
    ensures value { result ≡ count (pages_line pages bands) out.old }
    ensures out_after { out.new ≡ written (pages_line pages bands) out.old }
{
    let mut line = Line::new();
    line.put_pairs(b"pages ", pages, b" bands ", bands);
    line.put_into(out)
}

// The line `page 0 band 0 rows 2 dots 3`.
pub fn band_line(
    page: usize,
    band: usize,
    rows: usize,
    dots: usize,
    out: &mut [u8],
) -> Option<usize>
    ensures value { result ≡ count (band_line page band rows dots) out.old }
    ensures out_after { out.new ≡ written (band_line page band rows dots) out.old }
{
    let mut line = Line::new();
    line.put_pairs(b" rows ", rows, b" dots ", dots);
    line.put_pairs(b"page ", page, b" band ", band);
    line.put_into(out)
}

// The line `refused 7 at 14`.
pub fn refusal_line(number: u8, place: usize, out: &mut [u8]) -> Option<usize>
    ensures value { result ≡ count (refusal_line number place) out.old }
    ensures out_after { out.new ≡ written (refusal_line number place) out.old }
{
    let mut line = Line::new();
    line.put_pairs(b"refused ", usize::from(number), b" at ", place);
    line.put_into(out)
}

// The ASCII code of a hexadecimal digit, in capitals.
#[tactic(auto, using(crate::proofs::Numbers::hex_digit_low, crate::proofs::Numbers::hex_digit_high))]
fn hex_digit(d: u8) -> u8
    requires { d < 16 }
    ensures { result ≡ hex_digit d }
{
    if d < 10 { b'0' + d } else { b'A' + (d - 10) }
}

// The bytes of the row in hexadecimal, two digits a byte: 7000 for 0x70 0x00.
pub fn row_line(row: &[u8], out: &mut [u8]) -> Option<usize>
    ensures value { result ≡ count (row_line row.now) out.old }
    ensures out_after { out.new ≡ written (row_line row.now) out.old }
{
    // Half of `out`, rounded up: twice the row's length can pass the type's largest number.
    if out.len() - out.len() / 2 <= row.len() {
        return None;
    }
    // An index into `out`: the check knows no element of a slice after `chunks_mut`.
    for (i, byte) in row.iter().enumerate() {
        out[2 * i] = hex_digit(byte / 16);
        out[2 * i + 1] = hex_digit(byte % 16);
    }
    let end = 2 * row.len();
    out[end] = b'\n';
    Some(end + 1)
}
