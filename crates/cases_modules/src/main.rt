//! Reads small modules and prints what is in each, or its first fault.
#![tactic(auto)]

mod shapes;

use rl_base::Place;
use rl_reader::{ReadFault, read_module};
use shapes::show_module;
use std::alloc::Global;
use std::io;

// Texts of a module `A`.
const TEXTS: [&[u8]; 27] = [
    b"",
    b"module A",
    b" module A\n",
    b"module A import IO;\nextend B::C;\nimport\nD;",
    b"module A void main() { println(\"hi\"); }",
    b"module A\nimport IO;\nprivate void main(list[str] args) {\n  println(\"a\\n\\u0041\");\n  f(g(), \"\");\n}\n",
    b"module A public map[int,loc] f(rel[int a, bool] x, lrel[value] y, set[tuple[void]] z, A t) { f(); }",
    b"module A\n\xFF",
    b"\xC3\xA4\n\xF0\x9F\x98",
    b"module A\n@",
    b"module A\nx = \"",
    b"module A\n/* */ /*",
    b"module A\n170141183460469231731687303715884105728",
    b"module A\n\"\\q\" @",
    b"module A\nimport B",
    b"module A\nimport B; import",
    b"module A::B\nint x = 1;",
    b"module\nB int x = 1;",
    b"module A import B; void main() { }\nint x = 1;",
    b"module A void f() { f(); ; return; }",
    b"module A void f() { f(x, 1); } data T;",
    b"module A void f() { f(\"<1>\"); }",
    b"module A test void f() { }",
    b"module A void f() = 1;",
    b"module A void f(x) { }",
    b"module A void f() { { f(); } }",
    b"module A syntax E = \"a\"; layout L = ;",
];

fn show_fault<R: Print>(rt: &R, place: Place, code: u8) -> io::Result<()> {
    println!(rt; "M{code} {} {}:{}", place.offset, place.line, place.column)
}

fn show_text<R: Print>(rt: &R, alloc: Global, bytes: &[u8]) -> io::Result<()> {
    if bytes.len() > 1 << 24 {
        return println!(rt; "too long");
    }
    match read_module(alloc, 7, "d/A.rsc", "A", bytes) {
        Ok(module) => show_module(rt, &module),
        Err(ReadFault::Fault { place, code }) => show_fault(rt, place, code),
        Err(ReadFault::OutOfMemory) => println!(rt; "out of memory"),
    }
}

// So many pairs of parentheses around a literal.
fn nested(alloc: Global, pairs: u32) -> Result<String, std::alloc::AllocError> {
    let mut text = String::from_str(alloc, "module A void f() { f(")?;
    for _ in 0..pairs {
        text.push('(')?;
    }
    text.push_str("\"\"")?;
    for _ in 0..pairs {
        text.push(')')?;
    }
    text.push_str("); }")?;
    Ok(text)
}

fn run<R: Print>(rt: &R, alloc: Global) -> io::Result<()> {
    for bytes in TEXTS {
        show_text(rt, alloc, bytes)?;
    }
    for pairs in [994, 995, 996, 997] {
        let text = nested(alloc, pairs)?;
        show_text(rt, alloc, text.as_bytes())?;
    }
    Ok(())
}

fn main(rt: HostRuntime) -> io::Result<()> {
    run(&rt, rt.alloc())
}
