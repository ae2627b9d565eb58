//! The generated program.

use super::setting::Setting;
use crate::generated::generated_text;
use std::alloc::Global;
use std::process::Abort;
use std::test::Fail;
use std::thread::Threads;

/// What the program of the number 7 writes.
const OUTPUT: &str = "stats G active 65536 node 1 live 256 node 2 live 4096\ngrid 1 1\n0 65536\n";

/// These words run the program of the number 7. No file is read, so no read fails.
fn seven<R: Threads + Sync + Abort>(rt: &R, alloc: Global, words: &[&str]) -> Result<(), Fail> {
    let setting = Setting {
        words,
        failing_reads: &[1],
        ..Setting::of("")
    };
    setting.ends(rt, alloc, 0, OUTPUT)
}

#[test]
fn seven_on_one_worker(rt: HostRuntime) -> Result<(), Fail> {
    seven(&rt, rt.alloc(), &["--mode", "gen", "7", "--workers", "1"])
}

#[test]
fn seven_on_two_workers(rt: HostRuntime) -> Result<(), Fail> {
    seven(&rt, rt.alloc(), &["--mode=gen", "7", "--workers=2"])
}

#[test]
fn seven_on_sixteen_workers(rt: HostRuntime) -> Result<(), Fail> {
    seven(&rt, rt.alloc(), &["--workers=16", "--mode=gen", "--", "7"])
}

#[test]
fn seven_as_the_text_of_a_file(rt: HostRuntime) -> Result<(), Fail> {
    let source = generated_text(rt.alloc(), 7)?;
    Setting::of(source.as_str()).ends(&rt, rt.alloc(), 0, OUTPUT)
}

/// The program of a number, up to the end of its third line.
fn first_lines(alloc: Global, number: u32) -> Result<String, Fail> {
    let text = generated_text(alloc, number)?;
    match text.as_str().split_once(" cap 256;") {
        Some((front, _rest)) => Ok(String::from_str(alloc, front)?),
        None => Err(Fail::from("no caps")),
    }
}

#[test]
fn numbers_in_the_first_line(rt: HostRuntime) -> Result<(), Fail> {
    assert_eq!(rt;
        first_lines(rt.alloc(), 0)?.as_str(),
        "const S = 0u;\nlayout G(i, j) {\n  hash(i: 16, j: 16)"
    );
    assert_eq!(rt;
        first_lines(rt.alloc(), 4294967295)?.as_str(),
        "const S = 4294967295u;\nlayout G(i, j) {\n  hash(i: 16, j: 16)"
    );
    Ok(())
}
