// The place of a trapezoid's edge on a line.
#![tactic(auto)]

ghost use Rattle.std.specs.Prelude.{◌≡◌, ◌^◌, ◌<◌, ◌≤◌};
ghost use Rattle.std.specs.Int.Signed.{mag};
ghost use Rattle.film_edges.specs.Edges.{ceil_z, edge_at};

// x / n, rounded up: the quotient of -x goes down, and so its negation up. The bound is above every slope times its lines.
#[tactic(auto, using(crate::proofs::Edges::ceil_computed))]
fn ceil_signed(x: i64, n: u16) -> i64
    requires { (mag x < 2 ^ 49) × (1 ≤ n) }
    ensures { result ≡ ceil_z x n }
{
    -(-x).div_euclid(n as i64)
}

// The place of an edge d lines after its first, rounded up: `a` on the first line, `z` n lines after it. The difference is signed. Over no lines, where
// n is 0, it stays at a.
pub fn edge_at(a: u32, z: u32, n: u16, d: u16) -> i64
    ensures { result ≡ edge_at a z n d }
{
    let first = a as i64;
    let last = z as i64;
    if n == 0 {
        return first;
    }
    let lean = last - first;
    first + ceil_signed(lean * d as i64, n)
}
