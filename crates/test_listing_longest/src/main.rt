// Lists a sheet of 65,536 bytes, the longest that it lists. The program is that of crates/listing.
#![tactic(auto)]

use std::io;

fn main(rt: HostRuntime) -> io::Result<()> {
    lister::list_input(&rt, &mut rt.stdin()).map(|_| ())
}
