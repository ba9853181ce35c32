// The listing program of document 01: it reads an AREA file from standard input and writes its listing to standard output.
#![tactic(auto)]

use list_output::print_listing;
use std::io;
use std::io::Read;

// Reads at most one byte more than is listed, which shows that an input is too long.
fn main(rt: HostRuntime) -> io::Result<()> {
    let mut file = Vec::new(rt.alloc());
    rt.reader().take(65537).read_to_end(&mut file)?;
    print_listing(&rt, &file)?;
    Ok(())
}
