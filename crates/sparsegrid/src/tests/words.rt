use crate::words::read_words;
use sg_words::Stop;
use std::alloc::Global;
use std::test::Fail;

/// What is asked for by a line of words between blanks, as a text.
fn asked(alloc: Global, line: &str) -> Result<String, Fail> {
    let mut words = Vec::new(alloc);
    for word in line.split(' ') {
        words.push(String::from_str(alloc, word)?)?;
    }
    match read_words(alloc, words.as_slice()) {
        Ok(words) => Ok(format!(in alloc;
            "{} {:?} {} {:?} {}",
            words.workers, words.mode, words.file, words.from, words.number
        )?),
        Err(Stop::Refused(bad)) => Ok(format!(in alloc; "{bad:?}")?),
        Err(Stop::Memory) => Err(Fail::from("no memory")),
    }
}

static LINES: [(&str, &str); 22] = [
    ("p.sg", "4 Run p.sg None 0"),
    ("--workers 2 p.sg x=a y=b=c", "2 Run p.sg None 0"),
    ("--workers=16 -- p.sg", "16 Run p.sg None 0"),
    ("--mode check p.sg --workers 1", "1 Check p.sg None 0"),
    ("p.sg x=a x=b", "BadWords"),
    ("p.sg load=a", "BadWords"),
    ("--mode gen 7", "4 Gen  None 7"),
    (
        "--mode=gen --workers 16 -- 4294967295",
        "16 Gen  None 4294967295",
    ),
    ("--mode gen 4294967296", "BadWords"),
    ("--mode gen 07", "BadWords"),
    ("--mode gen +7", "BadWords"),
    ("--mode gen 7 x=a", "BadWords"),
    ("--from s p.sg", "4 Run p.sg Some(\"s\") 0"),
    ("p.sg --from=- --mode=save", "4 Save p.sg Some(\"-\") 0"),
    ("--mode=advise p.sg --from s", "4 Advise p.sg Some(\"s\") 0"),
    (
        "--mode journal --from=s p.sg x=g",
        "4 Journal p.sg Some(\"s\") 0",
    ),
    ("--mode=journals p.sg", "BadWords"),
    ("--from - p.sg", "BadWords"),
    ("--from= p.sg", "BadWords"),
    ("--from=a p.sg --from b", "BadWords"),
    ("--mode=gen --from=s 7", "BadWords"),
    ("p.sg -- --from=s", "BadWords"),
];

#[test]
fn lines_of_words(rt: HostRuntime) -> Result<(), Fail> {
    for (line, want) in &LINES {
        assert_eq!(rt; asked(rt.alloc(), line)?.as_str(), *want);
    }
    Ok(())
}
