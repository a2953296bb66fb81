//! The line listing: commands in on standard input, a line for each out on standard output.
#![tactic(auto)]

mod terminal;

use crate::terminal::Terminal;
use codes::fault::Fault;
use lines::reply::Reply;
use listings::listing::{Listing, ROOM};
use std::io;

/// Answers each line of an open listing.
fn converse(terminal: &mut Terminal, mut listing: Listing) -> io::Result<()> {
    // Counted, since input may have no end and every loop has one; no iterator, since replies go out by the same terminal.
    for _ in 0..u64::MAX {
        let Some(line) = terminal.line()? else {
            break;
        };
        // The library has no heap: it writes into a buffer that is lent, and answers how many bytes.
        let mut buffer = [0; ROOM];
        let count = listing.line(line.line(), &mut buffer).unwrap();
        terminal.reply(&buffer[..count])?;
    }
    Ok(())
}

/// Answers a first line that names no code.
fn refuse(terminal: &mut Terminal, fault: Fault) -> io::Result<()> {
    let mut buffer = [0; ROOM];
    let count = Reply::Refused(fault.cause).write(&mut buffer).unwrap();
    terminal.reply(&buffer[..count])
}

fn run(terminal: &mut Terminal) -> io::Result<()> {
    if let Some(first) = terminal.line()? {
        match Listing::open(first.line()) {
            Ok(listing) => converse(terminal, listing)?,
            Err(fault) => refuse(terminal, fault)?,
        }
    }
    terminal.flush()
}

fn main(rt: HostRuntime) -> io::Result<()> {
    let mut terminal = Terminal::new(rt.stdin(), rt.stdout(), rt.alloc())?;
    run(&mut terminal)
}
