//! Mode advise: which layout needs the fewest words for what each keeps.

use super::setting::Setting;
use std::test::Fail;

/// Three layouts of a line that are alike.
const THREE: &str = "layout A(i) { dense(i: 64); field x: i32; }
    layout B(i) { pointer(i: 16) cap 4; dense(i: 4); field y: i32; }
    layout C(i) { pointer(i: 16) cap 1; dense(i: 4); field z: i32; }
    load x; dump x; stats A;";

/// Layouts of which none is alike to another: by its extent, by a type, by the axes.
const ALONE: &str = "layout A(i) { dense(i: 4); field x: i32; }
    layout B(i) { hash(i: 8) cap 2; field y: i32; }
    layout C(i) { dynamic(i: 4) chunk 2 cap 2; field z: u32; }
    layout D(i, j) { bitmasked(i: 4); field w: i32; }
    kernel k { for i in 0..1 { y[3] += 5; y[4] += 0; z[2] += 1u; } } run k;";

const FULL: &str = "layout A(i) { dense(i: 4); field x: i32; }
    layout B(i) { pointer(i: 4) cap 1; field y: i32; }
    kernel k { for i in 1..3 { y[i] = 1; } } run k;";

/// Two layouts that are alike, and the image of a state in which the first one keeps the coordinate 5.
const TWO: &str = "layout A(i) { bitmasked(i: 16); field x: i32; }
    layout B(i) { pointer(i: 4) cap 2; dense(i: 4); field y: i32; }";

const FIVE_KEPT: &str = "SGS1\x02\0\0\0\x01\0\0\0\x05\0\0\0\x07\0\0\0\0\0\0\0";

/// The words, the source, the status, and what is written.
static RUNS: &[(&[&str], &str, u8, &str)] = &[
    (
        &["p.sg", "--mode=advise", "x=g"],
        THREE,
        0,
        "advise A A 64\nadvise A B 24\nadvise A C full\nbest A B 24\nstats B active 8 node 1 live 2\n\
         advise B A 64\nadvise B B 16\nadvise B C 16\nbest B B 16\nstats B active 0 node 1 live 0\n\
         advise C A 64\nadvise C B 16\nadvise C C 16\nbest C B 16\nstats B active 0 node 1 live 0\n",
    ),
    (&["p.sg", "--mode", "advise"], "", 0, ""),
    (
        &["p.sg", "--mode=advise"],
        ALONE,
        0,
        "advise A A 4\nbest A A 4\nstats A active 4\n\
         advise B B 9\nbest B B 9\nstats B active 1 node 1 live 1\n\
         advise C C 8\nbest C C 8\nstats C active 3 node 1 live 2\n\
         advise D D 5\nbest D D 5\nstats D active 0\n",
    ),
    (
        &["--mode=advise", "--from=s", "p.sg"],
        TWO,
        0,
        "advise A A 17\nadvise A B 8\nbest A B 8\nstats B active 4 node 1 live 1\n\
         advise B A 17\nadvise B B 4\nbest B B 4\nstats B active 0 node 1 live 0\n",
    ),
    (
        &["p.sg", "--mode=advise"],
        FULL,
        7,
        "refused: pool full: B node 1 cap 1\n",
    ),
    (
        &["p.sg", "--mode=advise"],
        THREE,
        1,
        "refused: no file for x\n",
    ),
];

static FILES: &[(&str, &str)] = &[("g", "grid 1 2\n5 7\n40 1\n"), ("s", FIVE_KEPT)];

#[test]
fn fewest_words_are_advised(rt: HostRuntime) -> Result<(), Fail> {
    for (words, source, status, text) in RUNS {
        let setting = Setting {
            words,
            others: FILES,
            ..Setting::of(source)
        };
        setting.ends_on_workers(&rt, rt.alloc(), *status, text)?;
    }
    Ok(())
}
