// Runs of like dots in a row, and the dots past a width. A row is that of crate `row`.
#![tactic(auto)]

ghost use Rattle.std.specs.Prelude.{◌≡◌, ◌-◌, ◌*◌, ◌≤◌, ◌==◌, max};
ghost use Rattle.std.specs.List.{list_all, prefix_len};
ghost use Rattle.row.specs.Dots.{dot_at};
ghost use Rattle.row_runs.specs.Runs.{first_not, run_end};
ghost use Rattle.row_runs.specs.Spare.{spare_clear};

use row::{dot, whole};

// The first dot from `from` on, below `to`, that is not v; `to` where there is none. It looks at one dot after another.
fn run_dots(row: &[u8], v: bool, from: usize, to: usize) -> usize
    ensures { result ≡ first_not v (dot_at row.now) to from (to - from) }
{
    for f in from..to {
        if dot(row, f) != v {
            return f;
        }
    }
    to
}

// How many bytes at the front are b.
fn like_bytes(bytes: &[u8], b: u8) -> usize
    ensures { result ≡ prefix_len (λ x. x == b) bytes.now }
{
    bytes.iter().take_while(|byte| **byte == b).count()
}

// A byte from `from` on, up to `to`, such that the dots of the bytes before it are all v.
fn pass_bytes(row: &[u8], v: bool, from: usize, to: usize) -> usize
    ensures lower_bound { from ≤ result }
    ensures upper_bound { result ≤ max from to }
    ensures from_value { first_not v (dot_at row.now) (8 * result) (8 * from) (8 * result - 8 * from) ≡ 8 * result }
{
    let end = to.min(row.len());
    if end <= from {
        return from;
    }
    from + like_bytes(&row[from..end], whole(v))
}

// The first dot after `from`, below `width`, that differs from dot `from`; `width` where there is none. Whole bytes of a run are passed at once.
pub fn run_end(row: &[u8], from: usize, width: usize) -> usize
    ensures { result ≡ run_end (dot_at row.now) from width }
{
    let v = dot(row, from);
    let next = from / 8 + 1;
    let last = width / 8;
    if next < last {
        let found = run_dots(row, v, from, 8 * next);
        if found < 8 * next {
            return found;
        }
        let i = pass_bytes(row, v, next, last);
        run_dots(row, v, 8 * i, width)
    } else {
        run_dots(row, v, from, width)
    }
}

// Whether every dot from `width` to the row's end is 0. It goes by bytes: the number of a long row's last dot passes the type's largest.
pub fn spare_clear(row: &[u8], width: usize) -> bool
    ensures { result ≡ spare_clear row.now width }
{
    let spare = &row[(width / 8).min(row.len())..];
    match spare {
        [first, later @ ..] => first & (255 >> (width % 8)) == 0 && all_zero(later),
        [] => true,
    }
}

// Whether each byte is 0.
fn all_zero(bytes: &[u8]) -> bool
    ensures { result ≡ list_all (λ b. b == 0) bytes.now }
{
    bytes.iter().all(|byte| *byte == 0)
}
