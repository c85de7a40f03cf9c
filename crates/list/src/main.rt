// Lists the tag of the file on standard input.
#![tactic(auto)]

use std::io;

fn main(rt: HostRuntime) -> io::Result<()> {
    listing_input::list_input(&rt)
}
