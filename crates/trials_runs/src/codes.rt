//! Access code: its text as it is run, shared and with the checks that it needs; and whether it is well typed.

use crate::setting::has_codes;
use sg_ir::{Code, Inst, well_typed};
use sg_layout::Layouts;
use sg_words::{Items, Memory, Ty};
use std::alloc::Global;
use std::test::Fail;

/// A file of five kernels: every form of expression; statements, own reads and reads of another layout; contributions; a slice; the
/// operators that the others don't have.
static FILE: &str =
    "const c = 5;\nlayout D(i, j) { dense(i: 4, j: 2); field x: i32; field y: u32; field s: i32; }\nlayout P(i, j) { pointer(i: 4) cap 4; dense(i: 2, j: 2); bitmasked(j: 2); field p: i32; field q: u32; }\nlayout E(i) { dense(i: 8); field e: i32; field low: i32; field high: u32; }\nkernel expressions {\n  for i, j in 0..4, 0..2 {\n    let t = true;\n    let n = -(i + c);\n    let m = ~j;\n    let a = mulq(i, n, 8);\n    let u = u32(i);\n    let w = i32(u >> 1u);\n    let z = min(i, j) - max(w, a);\n    let b = !(t && i < j) || u != 7u;\n    if b {\n      y[i, j] = u;\n    } else {\n    }\n    x[i, j] = n * m / 3 % 4 + z;\n  }\n}\nkernel statements {\n  for i, j in D {\n    let n = x[i, j];\n    if x[i, j] > 2 {\n      n = n + 1;\n    } else {\n      n = 0;\n    }\n    for d in -1..2 {\n      n = n + p[i + d, j];\n    }\n    x[i, j] = n;\n    y[i, j] = y[i, j] + q[j, i];\n  }\n}\nkernel sums {\n  for i, j in D {\n    e[i] += x[i, j];\n    low[j] min= x[i, j];\n    high[i] max= y[i, j];\n    p[i, j * 2] += s[i - 1, j];\n  }\n}\nkernel slices {\n  for i in 0..8 {\n    let k = i - 1;\n    let v = e[i];\n    v = v + 1;\n    if k > 0 {\n      q[k, 0] += 3u;\n    } else {\n    }\n    for d in 0..2 {\n      let g = d + k;\n      p[g, 1] += v;\n      v = v + d;\n    }\n    e[i] = v;\n  }\n}\nkernel signs {\n  for i in 0..4 {\n    let a = (i & 6) | (i ^ 1);\n    let b = i << 2;\n    let f = i == a;\n    let g = a <= b;\n    let h = a >= b;\n    if f || (g && h) {\n      e[i] = b;\n    } else {\n    }\n  }\n}\n";

/// The slice and the code of each.
static CODES: &str =
    "kernel expressions\nslice\nr0 = const 1\nset 2 r0\nr1 = var 0\nr5 = var 1\nset 6 r1\nr10 = var 6\nr18 = var 2\nr19 = lt i32 r1 r5\nr20 = land bool r18 r19\nr21 = lnot bool r20\nr22 = const 7\nr23 = ne u32 r10 r22\nr24 = lor bool r21 r23\nset 9 r24\nr25 = var 9\nif r25\n  want 0 r1 r5\nelse\nend\nwant 0 r1 r5\ncode\nr0 = const 1\nset 2 r0\nr1 = var 0\nr2 = const 5\nr3 = add i32 r1 r2\nr4 = neg i32 r3\nset 3 r4\nr5 = var 1\nr6 = not i32 r5\nset 4 r6\nr7 = var 3\nr8 = const 8\nr9 = mulq r1 r7 r8\nset 5 r9\nset 6 r1\nr10 = var 6\nr11 = const 1\nr12 = shr u32 r10 r11\nset 7 r12\nr13 = min i32 r1 r5\nr14 = var 7\nr15 = var 5\nr16 = max i32 r14 r15\nr17 = sub i32 r13 r16\nset 8 r17\nr18 = var 2\nr19 = lt i32 r1 r5\nr20 = land bool r18 r19\nr21 = lnot bool r20\nr22 = const 7\nr23 = ne u32 r10 r22\nr24 = lor bool r21 r23\nset 9 r24\nr25 = var 9\nif r25\n  ownwrite 0 1 r10\nelse\nend\nr26 = var 4\nr27 = mul i32 r7 r26\nr28 = const 3\nr29 = div i32 r27 r28\nr30 = const 4\nr31 = rem i32 r29 r30\nr32 = var 8\nr33 = add i32 r31 r32\nownwrite 0 0 r33\nkernel statements\nslice\ncode\nr0 = ownread 0 0\nset 2 r0\nr1 = ownread 0 0\nr2 = const 2\nr3 = gt i32 r1 r2\nif r3\n  r4 = var 2\n  r5 = const 1\n  r6 = add i32 r4 r5\n  set 2 r6\nelse\n  r7 = const 0\n  set 2 r7\nend\nfor 3 -1 2\n  r8 = var 2\n  r9 = var 0\n  r10 = var 3\n  r11 = add i32 r9 r10\n  r12 = var 1\n  r13 = extract 2 4 r11\n  r15 = extract 1 2 r11\n  r16 = extract 2 2 r12\n  r17 = offset r15 2 r16\n  p0 = root 1\n  p1 = check p0 0 8 r11\n  p2 = child p1 1 r13\n  p3 = child p2 2 r17\n  p4 = maskbit p3 3 r12\n  r18 = read p4 1 0 r11 r12\n  r19 = add i32 r8 r18\n  set 2 r19\nend\nr20 = var 2\nownwrite 0 0 r20\nr21 = ownread 0 1\nr22 = var 1\nr23 = var 0\nr24 = extract 2 4 r22\nr26 = extract 2 2 r23\nr27 = offset r22 2 r26\nr28 = extract 1 2 r23\np5 = root 1\np6 = child p5 1 r24\np7 = child p6 2 r27\np8 = maskbit p7 3 r28\nr29 = read p8 1 1 r22 r23\nr30 = add u32 r21 r29\nownwrite 0 1 r30\nkernel sums\nslice\nr0 = var 0\nwant 2 r0\nr1 = var 1\nwant 2 r1\nwant 2 r0\nr2 = const 2\nr3 = mul i32 r1 r2\nwant 1 r0 r3\ncode\nr0 = var 0\nr1 = var 1\nr2 = offset r0 2 r1\np0 = root 0\np1 = child p0 1 r2\nr3 = read p1 0 0 r0 r1\np2 = root 2\np3 = child p2 1 r0\nacc add 2 0 p3 r3 r0\np4 = child p2 1 r1\nacc min 2 1 p4 r3 r1\nr4 = read p1 0 1 r0 r1\nacc max 2 2 p3 r4 r0\nr5 = const 1\nr6 = sub i32 r0 r5\nr7 = extract 1 4 r6\nr8 = offset r7 2 r1\np5 = check p0 0 4 r6\np6 = child p5 1 r8\nr9 = read p6 0 2 r6 r1\nr10 = const 2\nr11 = mul i32 r1 r10\nr12 = extract 2 4 r0\nr14 = extract 1 2 r0\nr15 = extract 2 2 r11\nr16 = offset r14 2 r15\nr17 = extract 1 2 r11\np7 = root 1\np8 = child p7 1 r12\np9 = child p8 2 r16\np10 = maskbit p9 3 r17\nacc add 1 0 p10 r9 r0 r11\nkernel slices\nslice\nr0 = var 0\nr1 = const 1\nr2 = sub i32 r0 r1\nset 1 r2\nr3 = var 1\nr4 = const 0\nr5 = gt i32 r3 r4\nif r5\n  want 1 r3 r4\nelse\nend\nfor 3 0 2\n  r6 = var 3\n  r7 = add i32 r6 r3\n  set 4 r7\n  r8 = var 4\n  want 1 r8 r1\nend\nwant 2 r0\ncode\nr0 = var 0\nr1 = const 1\nr2 = sub i32 r0 r1\nset 1 r2\nr3 = ownread 2 0\nset 2 r3\nr4 = var 2\nr5 = add i32 r4 r1\nset 2 r5\nr6 = var 1\nr7 = const 0\nr8 = gt i32 r6 r7\nif r8\n  r9 = const 3\n  r10 = extract 2 4 r6\n  r11 = extract 1 2 r6\n  r12 = extract 2 2 r7\n  r13 = offset r11 2 r12\n  p0 = root 1\n  p1 = check p0 0 8 r6\n  p2 = child p1 1 r10\n  p3 = child p2 2 r13\n  p4 = maskbit p3 3 r7\n  acc add 1 1 p4 r9 r6 r7\nelse\nend\nfor 3 0 2\n  r14 = var 3\n  r15 = add i32 r14 r6\n  set 4 r15\n  r16 = var 2\n  r17 = var 4\n  r18 = extract 2 4 r17\n  r19 = extract 1 2 r17\n  r20 = extract 2 2 r1\n  r21 = offset r19 2 r20\n  p5 = root 1\n  p6 = check p5 0 8 r17\n  p7 = child p6 1 r18\n  p8 = child p7 2 r21\n  p9 = maskbit p8 3 r1\n  acc add 1 0 p9 r16 r17 r1\n  r22 = var 2\n  r23 = add i32 r22 r14\n  set 2 r23\nend\nr24 = var 2\nownwrite 2 0 r24\nkernel signs\nslice\nr0 = var 0\nr1 = const 6\nr2 = and i32 r0 r1\nr3 = const 1\nr4 = xor i32 r0 r3\nr5 = or i32 r2 r4\nset 1 r5\nr6 = const 2\nr7 = shl i32 r0 r6\nset 2 r7\nr8 = var 1\nr9 = eq i32 r0 r8\nset 3 r9\nr10 = var 2\nr11 = le i32 r8 r10\nset 4 r11\nr12 = ge i32 r8 r10\nset 5 r12\nr13 = var 3\nr14 = var 4\nr15 = var 5\nr16 = land bool r14 r15\nr17 = lor bool r13 r16\nif r17\n  want 2 r0\nelse\nend\ncode\nr0 = var 0\nr1 = const 6\nr2 = and i32 r0 r1\nr3 = const 1\nr4 = xor i32 r0 r3\nr5 = or i32 r2 r4\nset 1 r5\nr6 = const 2\nr7 = shl i32 r0 r6\nset 2 r7\nr8 = var 1\nr9 = eq i32 r0 r8\nset 3 r9\nr10 = var 2\nr11 = le i32 r8 r10\nset 4 r11\nr12 = ge i32 r8 r10\nset 5 r12\nr13 = var 3\nr14 = var 4\nr15 = var 5\nr16 = land bool r14 r15\nr17 = lor bool r13 r16\nif r17\n  ownwrite 2 0 r10\nelse\nend\n";

/// A kernel whose loop moves what it computes from one variable to the next: its slice needs nothing of that.
static TURNS: &str =
    "layout A(i) { dense(i: 4); field x: i32; } kernel turns { for i in 0..4 { let a = i; let b = 1; let c = 0; for d in 0..3 { c = b; b = a; a = c + d; } x[i] = a; } }";

/// Its slice without a loop, and its code with all of it.
static TURNS_CODES: &str =
    "kernel turns\nslice\nr0 = var 0\nwant 0 r0\ncode\nr0 = var 0\nset 1 r0\nr1 = const 1\nset 2 r1\nr2 = const 0\nset 3 r2\nfor 4 0 3\n  r3 = var 2\n  set 3 r3\n  r4 = var 1\n  set 2 r4\n  r5 = var 3\n  r6 = var 4\n  r7 = add i32 r5 r6\n  set 1 r7\nend\nr8 = var 1\nownwrite 0 0 r8\n";

/// A loop inside a loop, an `if` and a branch, of which nothing is needed, beside those that are.
static NESTED: &str =
    "layout A(i) { dense(i: 4); field x: i32; } kernel nested { for i in 0..4 { let a = 0; for d in 0..2 { for e in 0..3 { let g = d + e; } if d > 0 { let h = d; } else { } for e in 0..3 { a = a + e; } } if a > 2 { x[i] = a; } else { let k = a; } } }";

/// Its slice and its code, with the loops that decide whether it writes.
static NESTED_CODES: &str =
    "kernel nested\nslice\nr0 = const 0\nset 1 r0\nfor 2 0 2\n  for 6 0 3\n    r6 = var 1\n    r7 = var 6\n    r8 = add i32 r6 r7\n    set 1 r8\n  end\nend\nr9 = var 1\nr10 = const 2\nr11 = gt i32 r9 r10\nif r11\n  r12 = var 0\n  want 0 r12\nelse\nend\ncode\nr0 = const 0\nset 1 r0\nfor 2 0 2\n  for 6 0 3\n    r6 = var 1\n    r7 = var 6\n    r8 = add i32 r6 r7\n    set 1 r8\n  end\nend\nr9 = var 1\nr10 = const 2\nr11 = gt i32 r9 r10\nif r11\n  r12 = var 1\n  ownwrite 0 0 r12\nelse\nend\n";

#[test]
fn kernels_are_lowered(rt: HostRuntime) -> Result<(), Fail> {
    assert!(rt; has_codes(rt.alloc(), FILE, CODES)?);
    assert!(rt; has_codes(rt.alloc(), TURNS, TURNS_CODES)?);
    assert!(rt; has_codes(rt.alloc(), NESTED, NESTED_CODES)?);
    Ok(())
}

/// A register that is set in one branch of an `if`, and used after the `if`, or in the branch.
fn branching(alloc: Global, behind: bool) -> Result<Code, Memory> {
    let mut yes = Items::new(alloc);
    yes.push(Inst::Const { to: 1, word: 5 })?;
    let mut body = Items::new(alloc);
    body.push(Inst::Const { to: 0, word: 1 })?;
    let used = Inst::Set { var: 0, from: 1 };
    if behind {
        push_branches(alloc, &mut body, yes)?;
        body.push(used)?;
    } else {
        yes.push(used)?;
        push_branches(alloc, &mut body, yes)?;
    }
    Ok(Code {
        regs: Items::from_slice(alloc, &[Ty::Bool, Ty::I32])?,
        places: 0,
        vars: Items::from_slice(alloc, &[Ty::I32])?,
        body,
    })
}

fn push_branches(alloc: Global, body: &mut Items<Inst>, yes: Items<Inst>) -> Result<(), Memory> {
    body.push(Inst::If {
        cond: 0,
        yes,
        no: Items::new(alloc),
    })?;
    Ok(())
}

fn is_good(alloc: Global, behind: bool) -> Result<bool, Memory> {
    let code = branching(alloc, behind)?;
    let layouts = Layouts {
        list: Items::new(alloc),
    };
    Ok(well_typed(&code, &layouts))
}

#[test]
fn a_register_of_one_branch_is_none_behind_it(rt: HostRuntime) -> Result<(), Fail> {
    let alloc = rt.alloc();
    assert!(rt; is_good(alloc, false)?);
    assert!(rt; !is_good(alloc, true)?);
    Ok(())
}
