// The listing program: each program that lists is one call of `list_input`.
#![tactic(auto)]

use std::io;
use std::io::Write;

// Reads more of the input and drops it; false at its end.
fn read_more(rt: &impl Input) -> io::Result<bool> {
    let mut part = [0u8; 65536];
    let n = input::read_full(rt, &mut part)?;
    Ok(0 < n)
}

// Reads the input to its end, so that whoever writes it can finish. A proved loop has to end: no run uses up its turns.
fn read_rest(rt: &impl Input) -> io::Result<()> {
    for _ in 0..u64::MAX {
        if !read_more(rt)? {
            break;
        }
    }
    Ok(())
}

// Lists the tag of the file on standard input.
pub fn list_input(rt: &(impl Input + Print)) -> io::Result<()> {
    // A byte more than a file that is listed may have.
    let mut file = [0u8; 16385];
    let n = input::read_full(rt, &mut file)?;
    read_rest(rt)?;
    let mut text = [0u8; 147473];
    let m = listing::list_tag(&file[..n], &mut text);
    io::writer(rt).write_all(&text[..m])
}
