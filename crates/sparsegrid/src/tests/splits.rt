//! The programs of the folder `examples/`, split in two by a snapshot after each of their commands.

use super::setting::{EveryWorker, named, run_over};
use crate::examples::EXAMPLES;
use crate::picture_examples::PICTURES;
use sg_outside::{MemFiles, MemSink, NamedBytes};
use std::alloc::{AllocError, Global};
use std::process::Abort;
use std::test::Fail;
use std::thread::Threads;

/// Words that run the file `p.sg` on so many workers, with one more word.
fn words_of(alloc: Global, workers: u32, option: &str) -> Result<Vec<String>, AllocError> {
    let mut words = Vec::new(alloc);
    words.push(format!(in alloc; "--workers={workers}")?)?;
    words.push(String::from_str(alloc, option)?)?;
    words.push(String::from_str(alloc, "p.sg")?)?;
    Ok(words)
}

/// What a run of a source writes beside the file `s`, which has this image. It ends well.
fn written<R: Threads + Sync + Abort>(
    rt: &R,
    alloc: Global,
    words: &[String],
    source: &str,
    image: &[u8],
) -> Result<Vec<u8>, Fail> {
    let mut list = Vec::new(alloc);
    list.push(named(alloc, "p.sg", source)?)?;
    list.push(NamedBytes {
        name: String::from_str(alloc, "s")?,
        bytes: Vec::from_slice(alloc, image)?,
    })?;
    let mut files = MemFiles::new(list, Vec::new(alloc));
    let mut out = MemSink::new(alloc, Vec::new(alloc), 0);
    let seen = run_over(rt, alloc, words, &mut files, &mut out, &EveryWorker);
    assert_eq!(rt; seen.status, 0, "{source}");
    Ok(Vec::from_slice(alloc, out.bytes())?)
}

/// What the halves of a program write, one after the other: the second begins with the last state of the first.
fn halves<R: Threads + Sync + Abort>(
    rt: &R,
    alloc: Global,
    workers: u32,
    first: &str,
    second: &str,
) -> Result<Vec<u8>, Fail> {
    let runs = words_of(alloc, workers, "--mode=run")?;
    let saves = words_of(alloc, workers, "--mode=save")?;
    let begins = words_of(alloc, workers, "--from=s")?;
    let mut text = written(rt, alloc, runs.as_slice(), first, b"")?;
    let image = written(rt, alloc, saves.as_slice(), first, b"")?;
    let rest = written(rt, alloc, begins.as_slice(), second, image.as_slice())?;
    text.extend_from_slice(rest.as_slice())?;
    Ok(text)
}

/// The first line of a text, and the others, if it has one.
fn cut(alloc: Global, text: &str) -> Result<Option<(String, String)>, AllocError> {
    match text.split_once("\n") {
        Some((line, rest)) => Ok(Some((
            String::from_str(alloc, line)?,
            String::from_str(alloc, rest)?,
        ))),
        None => Ok(None),
    }
}

/// The declarations of a program, and its commands: each on its own line, unless some are in braces.
fn parted(alloc: Global, source: &str) -> Result<(String, String), Fail> {
    match source.split_once("\nrun ") {
        Some((declared, behind)) => {
            let mut commands = format!(in alloc; "run {behind}")?;
            if commands.as_str().split_once("{").is_none() {
                commands = commands.replace(alloc, "; ", ";\n")?;
            }
            Ok((String::from_str(alloc, declared)?, commands))
        }
        None => Err(Fail::from("no commands")),
    }
}

/// Split after any of its lines of commands, a program writes what it writes whole. How many such lines there are.
fn splits_are_the_whole<R: Threads + Sync + Abort>(
    rt: &R,
    alloc: Global,
    workers: u32,
    source: &str,
    text: &str,
) -> Result<u32, Fail> {
    let (declared, commands) = parted(alloc, source)?;
    let mut first = String::from_str(alloc, declared.as_str())?;
    let mut rest = commands;
    let mut lines = 0u32;
    for _line in 0..source.len() {
        match cut(alloc, rest.as_str())? {
            Some((line, others)) => {
                first = format!(in alloc; "{first}\n{line}")?;
                let second = format!(in alloc; "{declared}\n{others}")?;
                let both = halves(rt, alloc, workers, first.as_str(), second.as_str())?;
                assert_eq!(rt; both.as_slice(), text.as_bytes(), "{first}");
                lines = lines.saturating_add(1);
                rest = others;
            }
            None => return Ok(lines),
        }
    }
    Ok(lines)
}

#[test]
fn examples_split_in_two(rt: HostRuntime) -> Result<(), Fail> {
    let mut lines = 0u32;
    for (_name, source, text) in EXAMPLES {
        let more = splits_are_the_whole(&rt, rt.alloc(), 1, source, text)?;
        lines = lines.saturating_add(more);
    }
    assert_eq!(rt; lines, 45);
    Ok(())
}

#[test]
fn pictures_split_in_two(rt: HostRuntime) -> Result<(), Fail> {
    let mut lines = 0u32;
    for (_name, source, text) in PICTURES {
        let more = splits_are_the_whole(&rt, rt.alloc(), 16, source, text)?;
        lines = lines.saturating_add(more);
    }
    assert_eq!(rt; lines, 37);
    Ok(())
}
