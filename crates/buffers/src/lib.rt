// Bytes put into a buffer that the caller lends.
#![tactic(auto)]

ghost use Rattle.std.specs.Prelude.{◌≡◌};
ghost use Rattle.buffers.specs.Buffers.{written, count};

// Puts the bytes at the start of `out`, and answers how many there are; the bytes of `out` beyond them stay. Where `out` is too short it
// stays whole, and the answer is None.
pub fn put(bytes: &[u8], out: &mut [u8]) -> Option<usize>
    ensures value { result ≡ count bytes.now out.old }
    ensures out_after { out.new ≡ written bytes.now out.old }
{
    if out.len() < bytes.len() {
        return None;
    }
    out[..bytes.len()].copy_from_slice(bytes);
    Some(bytes.len())
}
