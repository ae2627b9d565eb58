//! Runs of the program over files, an input and an output in memory.

use crate::run;
use sg_outside::{MemFiles, MemSink, NamedBytes};
use std::alloc::{AllocError, Global};
use std::test::Fail;

/// The words behind the program's name.
fn words_of(alloc: Global, words: &[&str]) -> Result<Vec<String>, AllocError> {
    let mut list = Vec::new(alloc);
    for word in words {
        list.push(String::from_str(alloc, word)?)?;
    }
    Ok(list)
}

/// Files in memory: `p.sg` with this text.
fn files_of(alloc: Global, text: &str) -> Result<MemFiles, AllocError> {
    let mut names = Vec::new(alloc);
    names.push(NamedBytes {
        name: String::from_str(alloc, "p.sg")?,
        bytes: Vec::from_slice(alloc, text.as_bytes())?,
    })?;
    Ok(MemFiles::new(names, Vec::new(alloc)))
}

/// Whether a run with these words over `p.sg` and an input ends with a status, and what it writes begins so; of its puts the one of this number
/// fails, none where it is 0.
fn ends(
    alloc: Global,
    words: &[&str],
    input: &str,
    failing: u64,
    status: u8,
    begin: &str,
) -> Result<bool, AllocError> {
    let list = words_of(alloc, words)?;
    let mut files = files_of(
        alloc,
        "layout A(i) { dense(i: 4); field x: i32; }\nrun k;\n",
    )?;
    let mut puts = Vec::new(alloc);
    puts.push(failing)?;
    let mut out = MemSink::new(alloc, puts, 0);
    let found = run(
        alloc,
        list.as_slice(),
        &mut files,
        input.as_bytes(),
        &mut out,
    );
    Ok(found == status && out.bytes().starts_with(begin.as_bytes()))
}

/// Words, an input, the put that fails, and the status and the begin of the output that are wanted.
static RUNS: &[(&[&str], &str, u64, u8, &str)] = &[
    (
        &["p.sg"],
        "",
        0,
        0,
        "p.sg:2:5: `k` is not known here as a kernel\n",
    ),
    (
        &["p.sg", "-"],
        "a\nb\n",
        0,
        0,
        "a\nb\nstandard input: no line begins",
    ),
    (
        &["p.sg", "-", "x=a"],
        "refused: words",
        0,
        0,
        "refused: words\np.sg:2:5: `k`",
    ),
    (&["q.sg"], "", 0, 2, "q.sg: this file can't be read\n"),
    (&[], "", 0, 1, "words: "),
    (&["-"], "", 0, 1, "words: "),
    (&["p.sg", "x"], "", 0, 1, "words: "),
    (&["--mode", "check"], "", 0, 1, "words: "),
    (&["--help"], "", 0, 0, "sparsegrid-explain FILE"),
    (&["--version"], "", 0, 0, "sparsegrid-explain "),
    (
        &["--rules"],
        "",
        0,
        0,
        "refused: limit: file bytes\n  rule:  a file has at most 65,536 bytes\n",
    ),
    (&["--vim"], "", 0, 0, "\" Files of sparsegrid\n"),
    (&["--textmate"], "", 0, 0, "{\n  \"name\": \"sparsegrid\""),
    (&["p.sg"], "", 1, 3, ""),
    (&["p.sg", "-"], "a\n", 1, 3, ""),
];

/// Whether a file of so many equal bytes is told of so.
fn is_told(alloc: Global, byte: u8, count: usize, begin: &str) -> Result<bool, AllocError> {
    let mut bytes = Vec::new(alloc);
    for _turn in 0..count {
        bytes.push(byte)?;
    }
    let mut names = Vec::new(alloc);
    names.push(NamedBytes {
        name: String::from_str(alloc, "p.sg")?,
        bytes,
    })?;
    let mut files = MemFiles::new(names, Vec::new(alloc));
    let mut out = MemSink::new(alloc, Vec::new(alloc), 0);
    let list = words_of(alloc, &["p.sg"])?;
    let status = run(alloc, list.as_slice(), &mut files, b"".as_slice(), &mut out);
    Ok(status == 0 && out.bytes().starts_with(begin.as_bytes()))
}

#[test]
fn files_that_are_too_long_are_told(rt: HostRuntime) -> Result<(), Fail> {
    let alloc = rt.alloc();
    assert!(rt; is_told(alloc, b';', 16384, "p.sg:1:1: this `;` ends nothing")?);
    assert!(rt;
        is_told(
            alloc,
            b';',
            16385,
            "p.sg:1:16385: a file has at most 16,384 tokens"
        )?
    );
    assert!(rt;
        is_told(
            alloc,
            b' ',
            65536,
            "p.sg: nothing is refused before the first command"
        )?
    );
    assert!(rt; is_told(alloc, b' ', 65537, "p.sg: the file is too long")?);
    Ok(())
}

#[test]
fn runs_end_as_they_should(rt: HostRuntime) -> Result<(), Fail> {
    let alloc = rt.alloc();
    for (words, input, failing, status, begin) in RUNS {
        assert!(rt;
            ends(alloc, *words, *input, *failing, *status, *begin)?,
            "{begin}"
        );
    }
    Ok(())
}
