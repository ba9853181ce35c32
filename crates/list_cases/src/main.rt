// Listings of the files in `data/`, each under its name. What the program must write, in the file `stdout`, was worked out from document 01.
#![tactic(auto)]

use list_output::print_listing;
use std::io::Read;
use std::rt::Files;
use std::{fs, io};

// Reads a file, at most one byte more than is listed, and writes its listing.
fn list_from<R: Alloc + Print, F: Read + Drop>(rt: &R, from: F) -> io::Result<()> {
    let mut file = Vec::new(rt.alloc());
    from.take(65537).read_to_end(&mut file)?;
    print_listing(rt, &file)?;
    Ok(())
}

// Writes the name of a file and the file's listing, or on standard error why it cannot be opened.
fn list<R: Files + Alloc + Print + Eprint>(rt: &R, name: &str) -> io::Result<()> {
    println!(rt; "{name}:")?;
    match fs::open(rt, name) {
        Ok(file) => list_from(rt, file),
        Err(error) => eprintln!(rt; "{name}: {error}"),
    }
}

// `little` is the file of 1,000 bytes in little order that listing_rules/specs/Worked gives as `little_file`, `torn` the worked file P cut to 263 bytes,
// `grid` the worked file G. `full` has 65,536 bytes, the most that are listed, in big order: NAV at 300, AUX at 1000, DATA at 4096 (50 lines of a prefix of
// 200 bytes and 70 elements, each of 3 bands of 4 bytes), AUDIT of 5 cards behind it, and CAL at 60000. `too_long` has a byte more. In the listings of
// `little` and of `full` no number stands twice, so that no two numbers can be exchanged unseen.
fn main(rt: HostRuntime) -> io::Result<()> {
    list(&rt, "little")?;
    list(&rt, "torn")?;
    list(&rt, "grid")?;
    list(&rt, "empty")?;
    list(&rt, "full")?;
    list(&rt, "too_long")
}
