// The fields of a line: numbers, and bytes with marks among their digits.

ghost use Rattle.std.specs.Prelude.{◌≤◌, length, IfSome};

use std::str::FromStr;

// The number in decimal, where its type has it.
pub(super) fn number<T: FromStr>(field: &[u8]) -> Option<T>
where
    T::Err: Drop,
{
    // The library takes a plus sign too.
    if field.starts_with(b"+") {
        return None;
    }
    str::from_utf8(field).ok()?.parse().ok()
}

// The value of a hexadecimal digit; a capital is none.
fn digit(c: u8) -> Option<u8> {
    match c {
        b'0'..=b'9' => Some(c - b'0'),
        b'a'..=b'f' => Some(c - b'a' + 10),
        _ => None,
    }
}

// The byte of two digits.
fn pair(high: u8, low: u8) -> Option<u8> {
    Some(digit(high)? << 4 | digit(low)?)
}

// Two bytes of four digits, in the order of the digits.
fn word(digits: [u8; 4]) -> Option<[u8; 2]> {
    let [a, b, c, d] = digits;
    Some([pair(a, b)?, pair(c, d)?])
}

// Puts bytes at the start of `out`, and answers how many they are.
fn put(bytes: &[u8], out: &mut [u8]) -> Option<usize>
    ensures { IfSome result (λ n. n ≤ length out.old) }
{
    out.get_mut(..bytes.len())?.copy_from_slice(bytes);
    Some(bytes.len())
}

// The same for a byte that stands n times.
fn put_times(n: usize, byte: u8, out: &mut [u8]) -> Option<usize>
    ensures { IfSome result (λ n. n ≤ length out.old) }
{
    out.get_mut(..n)?.fill(byte);
    Some(n)
}

// The same for a page head, whose numbers have their low bytes first.
fn put_page_head(width: [u8; 2], height: [u8; 2], out: &mut [u8]) -> Option<usize>
    ensures { IfSome result (λ n. n ≤ length out.old) }
{
    let [w_high, w_low] = width;
    let [h_high, h_low] = height;
    let head = [
        0x11, 0, 0x0f, 0, 0, 0, 0, 0, 4, 4, 0, 0, w_low, w_high, h_low, h_high, 0, 0, 1, 0, 0,
    ];
    put(&head, out)
}

// The same for the mark or the pair of digits that the text begins with.
fn put_mark(text: &[u8], out: &mut [u8]) -> Option<usize>
    ensures { IfSome result (λ n. n ≤ length out.old) }
{
    match text {
        [b'-', ..] => Some(0),
        [b'H', ..] => put(
            b") SAG-GDI RL;0;0;Comment Copyright Sagem Communication 2005. Version 1.0.0.0\r\n\x10\x00\x02\x00\x00\x00\x00\x00",
            out,
        ),
        [b'P', a, b, c, d, e, f, g, h, ..] => {
            put_page_head(word([*a, *b, *c, *d])?, word([*e, *f, *g, *h])?, out)
        }
        [b'B', a, b, c, d, ..] => {
            let [high, low] = word([*a, *b, *c, *d])?;
            put(&[0x12, 0, low, high, 0, 0], out)
        }
        [b'E', ..] => put(&[0x13, 0, 0, 0, 0, 0], out),
        [b'D', ..] => put(&[0x14, 0, 0, 0, 0, 0], out),
        [b'X', a, b, c, d, e, f, ..] => {
            let n = u16::from_be_bytes(word([*a, *b, *c, *d])?);
            put_times(usize::from(n), pair(*e, *f)?, out)
        }
        [high, low, ..] => put(&[pair(*high, *low)?], out),
        _ => None,
    }
}

// How many characters the mark takes with its digits, or a pair that begins with this digit.
fn taken(mark: u8) -> usize
    ensures { 1 ≤ result }
{
    match mark {
        b'-' | b'H' | b'E' | b'D' => 1,
        b'P' => 9,
        b'B' => 5,
        b'X' => 7,
        _ => 2,
    }
}

// Puts the bytes of the field at the start of `out`, and answers how many they are.
fn decode(field: &[u8], out: &mut [u8]) -> Option<usize> {
    if field.is_empty() {
        return None;
    }
    let mut rest = field;
    let mut n = 0;
    // By what is left: each mark says how many characters it takes.
    while !rest.is_empty() {
        n += put_mark(rest, &mut out[n..])?;
        rest = rest.get(taken(rest[0])..)?;
    }
    Some(n)
}

// The bytes of the field, in the buffer that is lent.
pub(super) fn bytes<'a>(field: &[u8], out: &'a mut [u8]) -> Option<&'a mut [u8]> {
    let n = decode(field, out)?;
    out.get_mut(..n)
}
