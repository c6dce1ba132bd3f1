//! Whole runs over files and sinks in memory.

use super::*;
use rl_base::{MemFiles, MemSink};
use std::alloc::AllocError;
use std::process::Abort;
use std::test::Fail;

const HELLO: &str = "module Main import IO;\nvoid main(list[str] args) { println(\"hi\"); }\n";

const THREE: &str =
    "module Main import IO; void main() { println(\"one\"); println(\"two\"); println(\"six\"); }";

const USAGE_LINE: &str = "usage: rascal JOB MODULE [ARG].. [--root DIR] [--steps N]\n";

// What a run leaves: its status, and the sinks.
#[derive(Drop)]
struct Left {
    status: Status,
    out: MemSink,
    err: MemSink,
}

fn words(alloc: Global, text: &[&str]) -> Result<Vec<String>, AllocError> {
    let mut words = Vec::new(alloc);
    for word in text {
        words.push(String::from_str(alloc, word)?)?;
    }
    Ok(words)
}

fn run_over(
    alloc: Global,
    text: &[&str],
    files: &mut MemFiles,
    out_fails: &[(u32, u32)],
    err_fails: &[(u32, u32)],
) -> Result<Left, AllocError> {
    let words = words(alloc, text)?;
    let mut out = MemSink::new(alloc, 100, out_fails)?;
    let mut err = MemSink::new(alloc, 100, err_fails)?;
    let status = run(alloc, words.as_slice(), files, &mut out, &mut err);
    Ok(Left { status, out, err })
}

// Runs over the file of one path, and compares what is left.
fn check(
    rt: &(impl AllocGlobal + Abort),
    words: &[&str],
    path: &str,
    bytes: &[u8],
    out: &str,
    err: &str,
    status: Status,
) -> Result<(), Fail> {
    let mut files = MemFiles::new(rt.alloc());
    files.add(path, bytes)?;
    let left = run_over(rt.alloc(), words, &mut files, &[], &[])?;
    assert_eq!(rt; left.out.bytes(), out.as_bytes(), "{words:?}");
    assert_eq!(rt; left.err.bytes(), err.as_bytes(), "{words:?}");
    assert_eq!(rt; left.status, status, "{words:?}");
    Ok(())
}

#[test]
fn runs_or_refuses_a_module(rt: HostRuntime) -> Result<(), Fail> {
    let rows: [(&str, &str, &[u8], &str, &str, Status); 14] = [
        (
            "Main",
            "Main.rsc",
            HELLO.as_bytes(),
            "hi\n",
            "",
            Status::Value(0),
        ),
        (
            "Main",
            "Main.rsc",
            THREE.as_bytes(),
            "one\ntwo\nsix\n",
            "",
            Status::Value(0),
        ),
        (
            "a::b",
            "a/b.rsc",
            b"module a::b import IO; void main() { println(\"b\"); }",
            "b\n",
            "",
            Status::Value(0),
        ),
        (
            "Main",
            "Main.rsc",
            b"",
            "",
            "Main.rsc:1:1: M9\n",
            Status::ModuleFault,
        ),
        (
            "Main",
            "Main.rsc",
            b"module Main\nvoid main() {",
            "",
            "Main.rsc:2:14: M9\n",
            Status::ModuleFault,
        ),
        (
            "Main",
            "Main.rsc",
            b"\xFF",
            "",
            "Main.rsc:1:1: M3\n",
            Status::ModuleFault,
        ),
        (
            "Main",
            "Main.rsc",
            b"module Main\nimport Nope;\n",
            "",
            "Main.rsc:2:1: M1\n",
            Status::ModuleFault,
        ),
        (
            "A",
            "A.rsc",
            b"module B\n",
            "",
            "A.rsc:1:8: M11\n",
            Status::ModuleFault,
        ),
        (
            "Mein",
            "Main.rsc",
            HELLO.as_bytes(),
            "",
            "Mein.rsc:1:1: M1\n",
            Status::ModuleFault,
        ),
        (
            "Main",
            "Main.rsc",
            b"module Main import IO;\nint main() { }",
            "",
            "Main.rsc:2:1: M12\n",
            Status::ModuleFault,
        ),
        (
            "Main",
            "Main.rsc",
            b"module Main import IO; void main() {\nprintln(\"a\");\n  println(1); }",
            "",
            "Main.rsc:3:11: M12\n",
            Status::ModuleFault,
        ),
        (
            "Main",
            "Main.rsc",
            b"module Main void main() {\n println(\"a\"); }",
            "",
            "Main.rsc:2:2: M12\n",
            Status::ModuleFault,
        ),
        (
            "Main",
            "Main.rsc",
            b"module Main import IO; void main(str s) { }",
            "",
            "Main.rsc:1:34: M12\n",
            Status::ModuleFault,
        ),
        (
            "Main",
            "Main.rsc",
            b"// nothing\nmodule Main import IO;",
            "",
            "Main.rsc:1:1: M29\n",
            Status::ModuleFault,
        ),
    ];
    for (name, path, bytes, out, err, status) in rows {
        check(&rt, &["run", name], path, bytes, out, err, status)?;
    }
    Ok(())
}

#[test]
fn the_main_of_the_root_alone_runs(rt: HostRuntime) -> Result<(), Fail> {
    let rows: [(&str, &str, &str, Status); 4] = [
        (
            "module a::b import IO; void main() { println(\"b\"); }",
            "main\n",
            "",
            Status::Value(0),
        ),
        (
            "module a::b import IO; extend Main;\nvoid f(list[str] x) { println(\"f\"); }",
            "main\n",
            "",
            Status::Value(0),
        ),
        (
            "module a::b\nvoid f() { println(\"f\"); }",
            "",
            "lib/a/b.rsc:2:12: M12\n",
            Status::ModuleFault,
        ),
        (
            "module a::b\nimport\n  c;",
            "",
            "lib/a/b.rsc:2:1: M1\n",
            Status::ModuleFault,
        ),
    ];
    for (text, out, err, status) in rows {
        let mut files = MemFiles::new(rt.alloc());
        files.add(
            "lib/Main.rsc",
            b"module Main import IO; import a::b; void main() { println(\"main\"); }",
        )?;
        files.add("lib/a/b.rsc", text.as_bytes())?;
        let words: [&str; 4] = ["run", "--root=lib", "--", "Main"];
        let left = run_over(rt.alloc(), &words, &mut files, &[], &[])?;
        assert_eq!(rt; left.out.bytes(), out.as_bytes(), "{text}");
        assert_eq!(rt; left.err.bytes(), err.as_bytes(), "{text}");
        assert_eq!(rt; left.status, status, "{text}");
    }
    Ok(())
}

#[test]
fn words_of_another_form_are_told(rt: HostRuntime) -> Result<(), Fail> {
    let rows: [&[&str]; 4] = [
        &[],
        &["check", "Main"],
        &["run", "1Main"],
        &["run", "Main", "--steps", "18446744073709551616"],
    ];
    for words in rows {
        check(
            &rt,
            words,
            "Main.rsc",
            HELLO.as_bytes(),
            "",
            USAGE_LINE,
            Status::Usage,
        )?;
    }
    Ok(())
}

#[test]
fn one_line_takes_five_units(rt: HostRuntime) -> Result<(), Fail> {
    let rows: [(&str, &str, &str, Status); 2] = [
        ("5", "hi\n", "", Status::Value(0)),
        ("4", "", "budget: 4\n", Status::Budget),
    ];
    for (steps, out, err, status) in rows {
        let words: [&str; 4] = ["run", "Main", "--steps", steps];
        check(&rt, &words, "Main.rsc", HELLO.as_bytes(), out, err, status)?;
    }
    Ok(())
}

#[test]
fn a_budget_cuts_where_its_units_end(rt: HostRuntime) -> Result<(), Fail> {
    for units in 0..13u64 {
        let steps = format!(in rt.alloc(); "{units}")?;
        let line = format!(in rt.alloc(); "budget: {units}\n")?;
        // The alternative and its member take two units, and each statement three, the last of them before it prints.
        let out = match units {
            0..5 => "",
            5..8 => "one\n",
            8..11 => "one\ntwo\n",
            _ => "one\ntwo\nsix\n",
        };
        let (err, status) = if units < 11 {
            (line.as_str(), Status::Budget)
        } else {
            ("", Status::Value(0))
        };
        let words: [&str; 4] = ["run", "Main", "--steps", steps.as_str()];
        check(&rt, &words, "Main.rsc", THREE.as_bytes(), out, err, status)?;
    }
    Ok(())
}

#[test]
fn a_file_past_the_limit_is_too_long(rt: HostRuntime) -> Result<(), Fail> {
    let mut files = MemFiles::new(rt.alloc());
    let text = vec![in rt.alloc(); b' '; 16_777_217]?;
    files.add("Main.rsc", text.as_slice())?;
    let left = run_over(rt.alloc(), &["run", "Main"], &mut files, &[], &[])?;
    assert_eq!(rt; left.out.bytes(), b"".as_slice());
    assert_eq!(rt; left.err.bytes(), b"Main.rsc:1:1: M2\n".as_slice());
    assert_eq!(rt; left.status, Status::ModuleFault);
    Ok(())
}

#[test]
fn a_failed_read_leaves_both_sinks_empty(rt: HostRuntime) -> Result<(), Fail> {
    let mut files = MemFiles::new(rt.alloc());
    files.add("Main.rsc", HELLO.as_bytes())?;
    files.fail_at(1)?;
    let left = run_over(rt.alloc(), &["run", "Main"], &mut files, &[], &[])?;
    assert_eq!(rt; left.out.bytes(), b"".as_slice());
    assert_eq!(rt; left.err.bytes(), b"".as_slice());
    assert_eq!(rt; left.status, Status::FileFault);
    assert_eq!(rt; left.status.code(), 66);
    Ok(())
}

#[test]
fn nothing_is_put_after_a_put_on_out_that_failed(rt: HostRuntime) -> Result<(), Fail> {
    let rows: [(u32, u32, &str); 9] = [
        (1, 0, ""),
        (1, 1, "o"),
        (1, 2, "on"),
        (2, 0, "one\n"),
        (2, 1, "one\nt"),
        (2, 2, "one\ntw"),
        (3, 0, "one\ntwo\n"),
        (3, 1, "one\ntwo\ns"),
        (3, 2, "one\ntwo\nsi"),
    ];
    for (put, part, out) in rows {
        let mut files = MemFiles::new(rt.alloc());
        files.add("Main.rsc", THREE.as_bytes())?;
        let left = run_over(
            rt.alloc(),
            &["run", "Main"],
            &mut files,
            &[(put, part)],
            &[],
        )?;
        assert_eq!(rt; left.out.bytes(), out.as_bytes(), "{put} {part}");
        assert_eq!(rt; left.err.bytes(), b"".as_slice(), "{put} {part}");
        assert_eq!(rt; left.status, Status::SinkFault, "{put} {part}");
        assert_eq!(rt; left.out.puts(), u64::from(put), "{put} {part}");
        assert_eq!(rt; left.err.puts(), 0, "{put} {part}");
    }
    Ok(())
}

#[test]
fn a_put_on_err_that_fails_leaves_a_front_of_its_line(rt: HostRuntime) -> Result<(), Fail> {
    let rows: [(&[&str], &str); 2] = [(&["run"], "usage"), (&["run", "Main"], "Main.")];
    for (words, err) in rows {
        let mut files = MemFiles::new(rt.alloc());
        let left = run_over(rt.alloc(), words, &mut files, &[], &[(1, 5)])?;
        assert_eq!(rt; left.out.bytes(), b"".as_slice(), "{err}");
        assert_eq!(rt; left.err.bytes(), err.as_bytes(), "{err}");
        assert_eq!(rt; left.status, Status::SinkFault, "{err}");
        assert_eq!(rt; left.status.code(), 73, "{err}");
        assert_eq!(rt; left.out.puts(), 0, "{err}");
        assert_eq!(rt; left.err.puts(), 1, "{err}");
    }
    Ok(())
}

#[test]
fn each_line_is_one_put(rt: HostRuntime) -> Result<(), Fail> {
    let rows: [(&[&str], u64, u64); 4] = [
        (&["run", "Main"], 3, 0),
        (&["run", "Main", "--steps", "8"], 2, 1),
        (&["run", "Mein"], 0, 1),
        (&["run"], 0, 1),
    ];
    for (words, out, err) in rows {
        let mut files = MemFiles::new(rt.alloc());
        files.add("Main.rsc", THREE.as_bytes())?;
        let left = run_over(rt.alloc(), words, &mut files, &[], &[])?;
        assert_eq!(rt; left.out.puts(), out, "{words:?}");
        assert_eq!(rt; left.err.puts(), err, "{words:?}");
    }
    Ok(())
}
