// Lists the sheet of crates/test_listing_longest and a word more. The program is that of crates/listing.
#![tactic(auto)]

use std::io;

fn main(rt: HostRuntime) -> io::Result<()> {
    lister::list_input(&rt, &mut rt.stdin()).map(|_| ())
}
