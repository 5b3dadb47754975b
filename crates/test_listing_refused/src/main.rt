// Lists a sheet with an unknown command code. The program is that of crates/listing.
#![tactic(auto)]

use std::io;

fn main(rt: HostRuntime) -> io::Result<()> {
    lister::list_input(&rt, &mut rt.stdin()).map(|_| ())
}
