// A band out of a body, plain or coded.
#![tactic(auto)]

ghost use Rattle.std.specs.Prelude.{◌≡◌, cond, [], ◌≤◌, eqb, length};
ghost use Rattle.strip.specs.Coding.{run_of, left_of, whole, expand};
ghost use Rattle.strip.specs.Actions.{of_expansion};
ghost use Rattle.strip_band.specs.Puts.{expansion_from, band_or_refusal, Puts};

use strip::{BAND_BYTES, Run};

// How far a band is filled, and what the next byte of its body is.
#[derive(Clone, Copy)]
struct Filled {
    run: Run,
    at: usize,
}

// The run that a first byte opens.
fn run_of(b: u8) -> Run
    ensures { result ≡ run_of b }
{
    if 128 <= b {
        Run::Copied(b % 128 + 2)
    } else {
        Run::Literal(b)
    }
}

// A literal run after one more of its bytes.
#[tactic(auto, using(crate::proofs::Laws::left_some))]
fn left_of(n: u8) -> Run
    ensures { result ≡ left_of n }
{
    if n == 0 {
        Run::First
    } else {
        Run::Literal(n - 1)
    }
}

// One byte of a coded body; none where it overfills the band.
fn expand_byte(filled: Filled, b: u8, out: &mut [u8; BAND_BYTES]) -> Option<Filled>
    requires { (filled.at ≤ 640) × (length out.old ≡ 640) }
    ensures { Puts filled b out.old result out.new }
{
    let Filled { run, at } = filled;
    match run {
        Run::First => Some(Filled { run: run_of(b), at }),
        Run::Copied(n) => {
            let end = at + n as usize;
            if BAND_BYTES < end {
                return None;
            }
            out[at..end].fill(b);
            Some(Filled {
                run: Run::First,
                at: end,
            })
        }
        Run::Literal(n) => {
            if at == BAND_BYTES {
                return None;
            }
            out[at] = b;
            Some(Filled {
                run: left_of(n),
                at: at + 1,
            })
        }
    }
}

// At the body's end a band is whole where no run is open and all its bytes are there.
#[tactic(auto, using(crate::proofs::Laws::ends_whole, crate::proofs::Laws::ends_short, crate::proofs::Laws::ends_cut))]
fn finish(filled: Filled, out: [u8; BAND_BYTES]) -> Option<[u8; BAND_BYTES]>
    requires { (filled.at ≤ 640) × (length out ≡ 640) }
    ensures { of_expansion (expansion_from out filled.at [] filled.run) ≡ band_or_refusal result }
{
    match filled.run {
        Run::First if filled.at == BAND_BYTES => Some(out),
        _ => None,
    }
}

// A coded body, up to the byte that overfills the band.
fn expanded(body: &[u8]) -> Option<[u8; BAND_BYTES]>
    ensures { of_expansion (expand body.now) ≡ band_or_refusal result }
{
    let mut out = [0u8; BAND_BYTES];
    let mut filled = Filled {
        run: Run::First,
        at: 0,
    };
    for b in body {
        filled = expand_byte(filled, *b, &mut out)?;
    }
    finish(filled, out)
}

// A plain body is the band itself, or none by its length.
fn plain(body: &[u8]) -> Option<[u8; BAND_BYTES]>
    ensures { of_expansion (whole body.now) ≡ band_or_refusal result }
{
    body.try_into().ok()
}

// Indicator 0 is a plain body, any other a coded one.
#[tactic(auto, using(crate::proofs::Laws::is_plain, crate::proofs::Laws::is_coded))]
pub fn band_of(body: &[u8], indicator: u8) -> Option<[u8; BAND_BYTES]>
    ensures { of_expansion (cond (eqb indicator 0) (whole body.now) (expand body.now)) ≡ band_or_refusal result }
{
    if indicator == 0 {
        plain(body)
    } else {
        expanded(body)
    }
}
