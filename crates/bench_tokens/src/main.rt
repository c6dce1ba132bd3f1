//! How long it takes to cut sixteen megabytes into tokens, and to place a million of them: the number of tokens and the last
//! line met on standard output, the times on standard error.
#![tactic(auto)]

use rl_base::chars;
use rl_tokens::tokens;
use std::alloc::{AllocError, Global};
use std::io;
use std::rt::Clock;
use std::time::Instant;

// A line with tokens of many kinds.
const LINE: &str =
    "str s = \"a<f(x[1], {2})>b\"; // text\nsyntax E = N > left E \"*\" E !>> [a-z];\nint y = 12 + 3 <= 40; \n";

// As many lines as have no more bytes than a module may.
const LINES: u32 = 171_000;

fn text(alloc: Global) -> Result<String, AllocError> {
    let mut text = String::new(alloc);
    for _ in 0..LINES {
        text.push_str(LINE)?;
    }
    Ok(text)
}

fn run<R: Print + Eprint + Clock>(rt: &R, alloc: Global) -> io::Result<()> {
    let text = text(alloc)?;
    let bytes = text.as_bytes();
    if bytes.len() > 1 << 24 {
        return eprintln!(rt; "too long");
    }
    let start = Instant::now(rt)?;
    let Ok(characters) = chars(alloc, bytes) else {
        return eprintln!(rt; "no text");
    };
    let between = Instant::now(rt)?;
    let Ok(found) = tokens(alloc, &characters) else {
        return eprintln!(rt; "no tokens");
    };
    let cut = Instant::now(rt)?;
    let mut line = 0;
    for i in 0..found.len().min(1_000_000) {
        let offset = found.offset(i).min(characters.len());
        line = line.max(characters.place(0, offset).line);
    }
    let placed = Instant::now(rt)?;
    eprintln!(rt;
        "{} bytes, characters {:?}",
        bytes.len(),
        between.duration_since(start)
    )?;
    eprintln!(rt;
        "tokens {:?}, places {:?}",
        cut.duration_since(between),
        placed.duration_since(cut)
    )?;
    println!(rt; "{} {line}", found.len())
}

fn main(rt: HostRuntime) -> io::Result<()> {
    run(&rt, rt.alloc())
}
