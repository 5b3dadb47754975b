// Lists a sheet of two pages with every mask and colour that an empty load allows. The program is that of crates/listing.
#![tactic(auto)]

use std::io;

fn main(rt: HostRuntime) -> io::Result<()> {
    lister::list_input(&rt, &mut rt.stdin()).map(|_| ())
}
