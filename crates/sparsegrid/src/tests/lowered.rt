//! The access code that mode lower writes.

use super::setting::Setting;
use std::test::Fail;

/// Programs, each with the text of its code.
static CODES: &[(&str, &str)] = &[
    // the example of the page
    (
        "layout A(i, j) { dense(i: 4, j: 4); field x: i32; } kernel s { for p in 0..4 { x[p, 1] += p * 2; } }",
        "kernel s\nslice\nr0 = var 0\nr1 = const 1\nwant 0 r0 r1\ncode\nr0 = var 0\nr1 = const 2\nr2 = mul i32 r0 r1\nr3 = const 1\nr4 = offset r0 4 r3\np0 = root 0\np1 = child p0 1 r4\nacc add 0 0 p1 r2 r0 r3\n",
    ),
    // contributions by bits
    (
        "layout A(i) { dense(i: 4); field x: i32; field y: i32; field z: u32; } kernel b { for i in A { x[i] |= 1; y[i] &= 1; z[i] ^= 1u; } }",
        "kernel b\nslice\nr0 = var 0\nwant 0 r0\nwant 0 r0\nwant 0 r0\ncode\nr0 = const 1\nr1 = var 0\np0 = root 0\np1 = child p0 1 r1\nacc or 0 0 p1 r0 r1\nacc and 0 1 p1 r0 r1\nacc xor 0 2 p1 r0 r1\n",
    ),
    // four reads, each with the one check that its index needs
    (
        "layout A(i, j) { dense(i: 4, j: 4); field x: i32; field y: i32; } kernel k { for i, j in A { y[i, j] = x[i - 1, j] + x[i + 1, j] + x[i, j - 1] + x[i, j + 1]; } } load x; run k; image y 0 12;",
        "kernel k\nslice\ncode\nr0 = var 0\nr1 = const 1\nr2 = sub i32 r0 r1\nr3 = var 1\nr4 = extract 1 4 r2\nr5 = offset r4 4 r3\np0 = root 0\np1 = check p0 0 4 r2\np2 = child p1 1 r5\nr6 = read p2 0 0 r2 r3\nr7 = add i32 r0 r1\nr8 = extract 1 4 r7\nr9 = offset r8 4 r3\np3 = check p0 0 4 r7\np4 = child p3 1 r9\nr10 = read p4 0 0 r7 r3\nr11 = add i32 r6 r10\nr12 = sub i32 r3 r1\nr13 = extract 1 4 r12\nr14 = offset r0 4 r13\np5 = check p0 1 4 r12\np6 = child p5 1 r14\nr15 = read p6 0 0 r0 r12\nr16 = add i32 r11 r15\nr17 = add i32 r3 r1\nr18 = extract 1 4 r17\nr19 = offset r0 4 r18\np7 = check p0 1 4 r17\np8 = child p7 1 r19\nr20 = read p8 0 0 r0 r17\nr21 = add i32 r16 r20\nownwrite 0 1 r21\n",
    ),
    // an index that may wrap keeps its check, one that comes back to where it was needs none
    (
        "layout A(i) { dense(i: 4); field x: i32; field y: i32; } kernel k { for i in A { y[i] = x[(i + 2147483647) - 2147483647] + x[(i + 1) - 1] + x[(i - 2147483647) - 2]; } }",
        "kernel k\nslice\ncode\nr0 = var 0\nr1 = const 2147483647\nr2 = add i32 r0 r1\nr3 = sub i32 r2 r1\nr4 = extract 1 4 r3\np0 = root 0\np1 = check p0 0 4 r3\np2 = child p1 1 r4\nr5 = read p2 0 0 r3\nr6 = const 1\nr7 = add i32 r0 r6\nr8 = sub i32 r7 r6\np3 = child p0 1 r8\nr9 = read p3 0 0 r8\nr10 = add i32 r5 r9\nr11 = sub i32 r0 r1\nr12 = const 2\nr13 = sub i32 r11 r12\nr14 = extract 1 4 r13\np4 = check p0 0 4 r13\np5 = child p4 1 r14\nr15 = read p5 0 0 r13\nr16 = add i32 r10 r15\nownwrite 0 1 r16\n",
    ),
    // a question goes down to its place as a read does
    (
        "layout A(i) { dense(i: 4); field x: i32; } layout B(i) { pointer(i: 4) cap 2; dense(i: 2); field y: i32; } kernel k { for i in A { if active(y[i - 1]) { x[i] = 1; } } }",
        "kernel k\nslice\ncode\nr0 = var 0\nr1 = const 1\nr2 = sub i32 r0 r1\nr3 = extract 2 4 r2\nr4 = extract 1 2 r2\np0 = root 1\np1 = check p0 0 8 r2\np2 = child p1 1 r3\np3 = child p2 2 r4\nr5 = active p3 r2\nif r5\n  ownwrite 0 0 r1\nelse\nend\n",
    ),
    // a question and a read of one place have one way to it
    (
        "layout A(i) { dense(i: 4); field x: i32; } layout B(i) { pointer(i: 4) cap 2; dense(i: 2); field y: i32; } kernel k { for i in A { if active(y[i - 1]) { x[i] = y[i - 1]; } } }",
        "kernel k\nslice\ncode\nr0 = var 0\nr1 = const 1\nr2 = sub i32 r0 r1\nr3 = extract 2 4 r2\nr4 = extract 1 2 r2\np0 = root 1\np1 = check p0 0 8 r2\np2 = child p1 1 r3\np3 = child p2 2 r4\nr5 = active p3 r2\nif r5\n  r6 = read p3 1 0 r2\n  ownwrite 0 0 r6\nelse\nend\n",
    ),
    // an index for each axis
    (
        "layout A(i, j) { dense(i: 4, j: 4); field x: i32; } layout B(i) { dense(i: 4); field y: i32; } kernel k { for i in B { if active(x[i, 1]) { y[i] = 1; } } }",
        "kernel k\nslice\ncode\nr0 = var 0\nr1 = const 1\nr2 = offset r0 4 r1\np0 = root 0\np1 = child p0 1 r2\nr3 = active p1 r0 r1\nif r3\n  ownwrite 1 0 r1\nelse\nend\n",
    ),
    // what each branch of an `if` computes stays its own
    (
        "layout A(i) { pointer(i: 4) cap 2; bitmasked(i: 4); field x: i32; } kernel k { for i in A { if x[i] != 0 { x[i] = x[i] / 2; } else { x[i] = x[i] + 1; } } }",
        "kernel k\nslice\ncode\nr0 = ownread 0 0\nr1 = const 0\nr2 = ne i32 r0 r1\nif r2\n  r3 = ownread 0 0\n  r4 = const 2\n  r5 = div i32 r3 r4\n  ownwrite 0 0 r5\nelse\n  r6 = ownread 0 0\n  r7 = const 1\n  r8 = add i32 r6 r7\n  ownwrite 0 0 r8\nend\n",
    ),
    // one step down at a node of each kind
    (
        "layout H(i, j, k) { hash(i: 4, j: 4) cap 4; pointer(k: 4) cap 8; bitmasked(i: 2, j: 2); field h: u32; } layout D(i) { dynamic(i: 8) chunk 4 cap 2; field d: i32; } kernel k { for p in 0..8 { h[d[p] & 7, p, p >> 1] += u32(d[p]); } }",
        "kernel k\nslice\nr0 = var 0\np0 = root 1\np1 = dyncell p0 1 r0\nr1 = read p1 1 0 r0\nr2 = const 7\nr3 = and i32 r1 r2\nr4 = const 1\nr5 = shr i32 r0 r4\nwant 0 r3 r0 r5\ncode\nr0 = var 0\np0 = root 1\np1 = dyncell p0 1 r0\nr1 = read p1 1 0 r0\nr2 = const 7\nr3 = and i32 r1 r2\nr4 = const 1\nr5 = shr i32 r0 r4\nr6 = extract 2 4 r3\nr7 = extract 2 4 r0\nr8 = offset r6 4 r7\nr10 = extract 1 4 r5\nr11 = extract 1 2 r3\nr12 = extract 1 2 r0\nr13 = offset r11 2 r12\np2 = root 0\np3 = check p2 0 8 r3\np4 = check p3 2 4 r5\np5 = hashchild p4 1 r8\np6 = child p5 2 r10\np7 = maskbit p6 3 r13\nacc add 0 0 p7 r1 r3 r0 r5\n",
    ),
];

#[test]
fn code_of_programs(rt: HostRuntime) -> Result<(), Fail> {
    for (source, text) in CODES {
        let setting = Setting {
            words: &["--mode", "lower", "p.sg"],
            ..Setting::of(source)
        };
        setting.ends(&rt, rt.alloc(), 0, text)?;
    }
    Ok(())
}
