// Lists the sheet on standard input. What it must print for the file stdin beside src/ is in the file stdout there.
#![tactic(auto)]

use std::io;

fn main(rt: HostRuntime) -> io::Result<()> {
    lister::list_input(&rt, &mut rt.stdin()).map(|_| ())
}
