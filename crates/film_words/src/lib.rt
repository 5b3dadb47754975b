// Words of a file, and what stands in them: long numbers, run groups and sample arrays. A file is a slice of bytes, two to a word, the high
// byte first; places count words from 0. Every function takes any slice and any place.
#![tactic(auto)]

ghost use Rattle.std.specs.Prelude.{◌≡◌, drop};
ghost use Rattle.film_words.specs.Words.{words, at, long_at};
ghost use Rattle.film_words.specs.Parts.{part_of};
ghost use Rattle.film_words.specs.Arrays.{array_extent};
ghost use Rattle.film_words.specs.Padding.{padding_set};
ghost use Rattle.film_words.specs.Groups.{group_extent};
ghost use Rattle.film_words.specs.Answers.{extent_of};

// The word at place p; 0 past the end.
#[tactic(auto, using(crate::proofs::Words::at_words, crate::proofs::Words::at_past))]
pub fn word(file: &[u8], p: usize) -> u16
    ensures { result ≡ at (words file.now) p }
{
    if p < file.len() / 2 {
        u16::from_be_bytes([file[2 * p], file[2 * p + 1]])
    } else {
        0
    }
}

// The long number at place p, the low word first; a word past the end is 0.
#[tactic(auto, using(crate::proofs::Words::long_is, crate::proofs::Words::long_past))]
pub fn long(file: &[u8], p: usize) -> u32
    ensures { result ≡ long_at (words file.now) p }
{
    if p < file.len() / 2 {
        let low = u32::from(word(file, p));
        let high = u32::from(word(file, p + 1));
        low + 65536 * high
    } else {
        0
    }
}

// The bytes of the words from place p up to, not including, place end; empty where the file has not all of them.
#[tactic(auto, using(crate::proofs::Parts::part_slice, crate::proofs::Parts::part_over, crate::proofs::Parts::part_empty))]
pub fn part(file: &[u8], p: usize, end: usize) -> &[u8]
    ensures { result.now ≡ part_of file.now p end }
{
    if p <= end && end <= file.len() / 2 {
        &file[2 * p..2 * end]
    } else {
        &[]
    }
}

// How many words the sample array at place p takes; none where it runs past the end.
#[tactic(auto, using(crate::proofs::Arrays::array_none, crate::proofs::Arrays::array_some))]
pub fn array_extent(file: &[u8], p: usize) -> Option<usize>
    ensures { result ≡ extent_of (array_extent (drop p (words file.now))) }
{
    let left = (file.len() / 2).saturating_sub(p);
    if left < 2 {
        return None;
    }
    let lines = usize::from(word(file, p));
    let dots = usize::from(word(file, p + 1));
    let n = 2 + lines * dots.div_ceil(16);
    (n <= left).then_some(n)
}

// Whether a bit is set in the padding of the sample array at place p: in each line's last word, the low bits that are no dots. The last word of each
// line is read, and no other.
#[tactic(auto, using(crate::proofs::Padding::no_array, crate::proofs::Padding::array_unpadded, crate::proofs::Padding::array_clear))]
pub fn padding_set(file: &[u8], p: usize) -> bool
    ensures { result ≡ padding_set (drop p (words file.now)) }
{
    if p >= file.len() / 2 {
        return false;
    }
    let lines = word(file, p);
    let dots = word(file, p + 1);
    if dots % 16 == 0 {
        return false;
    }
    let mask = u16::MAX >> (dots % 16);
    let step = usize::from(dots).div_ceil(16);
    // The last word of the line before.
    let mut last = p + 1;
    for _ in 0..lines {
        last += step;
        if word(file, last) & mask != 0 {
            return true;
        }
    }
    false
}

// How many words the run group at place p takes; none where it runs past the end.
#[tactic(auto, using(crate::proofs::Groups::no_group, crate::proofs::Groups::walked_none, crate::proofs::Groups::walked_done))]
pub fn group_extent(file: &[u8], p: usize) -> Option<usize>
    ensures { result ≡ extent_of (group_extent (drop p (words file.now))) }
{
    let end = file.len() / 2;
    if p >= end {
        return None;
    }
    let mut lines = word(file, p);
    let mut q = p + 1;
    // No `for`: a line is over only at its last run.
    while lines > 0 {
        if end - q < 2 {
            return None;
        }
        let w = word(file, q + 1);
        q += 2;
        if w >= 32768 {
            lines -= 1;
        }
    }
    Some(q - p)
}
