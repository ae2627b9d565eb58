//! Texts, and the trees that they spell.

use super::setting::{program_of, shortened};
use std::alloc::Global;
use std::process::Abort;
use std::test::Fail;

// Each text between the two others, with the printed form of its tree between the two of those.
fn compare(
    rt: &impl Abort,
    alloc: Global,
    rows: &[(&str, &str)],
    around: (&str, &str),
    frame: (&str, &str),
) -> Result<(), Fail> {
    let (before, after) = around;
    let (front, back) = frame;
    for (text, tree) in rows {
        let whole = format!(in alloc; "{before}{text}{after}")?;
        let wanted = format!(in alloc; "Program{{items:[{front}{tree}{back}")?;
        assert_eq!(rt;
            shortened(alloc, program_of(alloc, whole.as_str())?)?.as_str(),
            wanted.as_str(),
            "{text}"
        );
    }
    Ok(())
}

static EXPRESSIONS: [(&str, &str); 40] = [
    ("7", "7"),
    ("4294967295u", "4294967295u"),
    ("2147483648", "2147483648"),
    ("true", "Truth(true)"),
    ("false", "Truth(false)"),
    ("y", "Name(y)"),
    ("F [ i ]", "Read{field:F, index:[Name(i)]}"),
    (
        "F [ i , j + 1 , 0 ]",
        "Read{field:F, index:[Name(i), Bin{Add {Name(j)} {1}}, 0]}",
    ),
    ("( y )", "Paren({Name(y)})"),
    ("- y", "Un{Neg {Name(y)}}"),
    ("~ y", "Un{Not {Name(y)}}"),
    ("! y", "Un{LNot {Name(y)}}"),
    ("- ~ 1", "Un{Neg {Un{Not {1}}}}"),
    ("min ( y , 1 )", "Call{callee:Min, args:[Name(y), 1]}"),
    ("max ( y , 1 )", "Call{callee:Max, args:[Name(y), 1]}"),
    ("mulq ( 1 , 2 , 3 )", "Call{callee:Mulq, args:[1, 2, 3]}"),
    ("i32 ( 1u )", "Call{callee:I32, args:[1u]}"),
    ("u32 ( y )", "Call{callee:U32, args:[Name(y)]}"),
    ("1 || 2 && 3", "Bin{LOr {1} {Bin{LAnd {2} {3}}}}"),
    ("1 && 2 == 3", "Bin{LAnd {1} {Bin{Eq {2} {3}}}}"),
    ("1 != 2 | 3", "Bin{Ne {1} {Bin{Or {2} {3}}}}"),
    ("1 < 2 ^ 3", "Bin{Lt {1} {Bin{Xor {2} {3}}}}"),
    ("1 <= 2 & 3", "Bin{Le {1} {Bin{And {2} {3}}}}"),
    ("1 > 2 << 3", "Bin{Gt {1} {Bin{Shl {2} {3}}}}"),
    ("1 >= 2 >> 3", "Bin{Ge {1} {Bin{Shr {2} {3}}}}"),
    ("1 | 2 ^ 3", "Bin{Or {1} {Bin{Xor {2} {3}}}}"),
    ("1 ^ 2 & 3", "Bin{Xor {1} {Bin{And {2} {3}}}}"),
    ("1 & 2 << 3", "Bin{And {1} {Bin{Shl {2} {3}}}}"),
    ("1 << 2 + 3", "Bin{Shl {1} {Bin{Add {2} {3}}}}"),
    ("1 + 2 * 3", "Bin{Add {1} {Bin{Mul {2} {3}}}}"),
    ("1 * 2 + 3", "Bin{Add {Bin{Mul {1} {2}}} {3}}"),
    ("1 && 2 || 3", "Bin{LOr {Bin{LAnd {1} {2}}} {3}}"),
    ("1 - 2 - 3", "Bin{Sub {Bin{Sub {1} {2}}} {3}}"),
    ("1 / 2 % 3", "Bin{Rem {Bin{Div {1} {2}}} {3}}"),
    ("1 - ( 2 - 3 )", "Bin{Sub {1} {Paren({Bin{Sub {2} {3}}})}}"),
    ("( 1 + 2 ) * 3", "Bin{Mul {Paren({Bin{Add {1} {2}}})} {3}}"),
    ("( 1 == 2 ) == 3", "Bin{Eq {Paren({Bin{Eq {1} {2}}})} {3}}"),
    ("- 1 * 2", "Bin{Mul {Un{Neg {1}}} {2}}"),
    ("1 * - 2", "Bin{Mul {1} {Un{Neg {2}}}}"),
    (
        "! F [ 0 ] == 1",
        "Bin{Eq {Un{LNot {Read{field:F, index:[0]}}}} {1}}",
    ),
];

#[test]
fn expressions_have_their_trees(rt: HostRuntime) -> Result<(), Fail> {
    let frame = (
        "Kernel(KernelDecl{name:K, vars:[i], domain:Layout(L), body:[Assign{name:x, value:",
        "}]})], lines:[1]}",
    );
    compare(
        &rt,
        rt.alloc(),
        &EXPRESSIONS,
        ("kernel K { for i in L { x = ", " ; } }"),
        frame,
    )
}

static STATEMENTS: [(&str, &str); 16] = [
    ("", ""),
    ("let x = 1 ;", "Let{name:x, value:1}"),
    ("x = 1 ;", "Assign{name:x, value:1}"),
    (
        "F [ i ] = 1 ;",
        "Write{field:F, index:[Name(i)], way:Own, value:1}",
    ),
    (
        "F [ i , j ] += 1 ;",
        "Write{field:F, index:[Name(i), Name(j)], way:Acc(Add), value:1}",
    ),
    (
        "F [ i ] min = 1 ;",
        "Write{field:F, index:[Name(i)], way:Acc(Min), value:1}",
    ),
    (
        "F [ i ] max = 1 ;",
        "Write{field:F, index:[Name(i)], way:Acc(Max), value:1}",
    ),
    (
        "F [ i ] |= 1 ;",
        "Write{field:F, index:[Name(i)], way:Acc(Or), value:1}",
    ),
    (
        "F [ i ] &= 1 ;",
        "Write{field:F, index:[Name(i)], way:Acc(And), value:1}",
    ),
    (
        "F [ i ] ^= 1 ;",
        "Write{field:F, index:[Name(i)], way:Acc(Xor), value:1}",
    ),
    ("if x { }", "If{cond:Name(x), yes:[], no:None}"),
    ("if x { } else { }", "If{cond:Name(x), yes:[], no:Some([])}"),
    (
        "if x { x = 1 ; } else { y = 2 ; } y = 3 ;",
        "If{cond:Name(x), yes:[Assign{name:x, value:1}], no:Some([Assign{name:y, value:2}])}, Assign{name:y, \
         value:3}",
    ),
    (
        "if x { if y { } else { x = 1 ; } }",
        "If{cond:Name(x), yes:[If{cond:Name(y), yes:[], no:Some([Assign{name:x, value:1}])}], no:None}",
    ),
    (
        "for j in 0 .. 4 { }",
        "For{name:j, range:RangeDecl{lo:0, hi:4}, body:[]}",
    ),
    (
        "for j in - 1 .. 1 + 1 { x = j ; y = 1 ; }",
        "For{name:j, range:RangeDecl{lo:Un{Neg {1}}, hi:Bin{Add {1} {1}}}, body:[Assign{name:x, \
         value:Name(j)}, Assign{name:y, value:1}]}",
    ),
];

#[test]
fn statements_have_their_trees(rt: HostRuntime) -> Result<(), Fail> {
    let frame = (
        "Kernel(KernelDecl{name:K, vars:[i], domain:Layout(L), body:[",
        "]})], lines:[1]}",
    );
    compare(
        &rt,
        rt.alloc(),
        &STATEMENTS,
        ("kernel K { for i in L { ", " } }"),
        frame,
    )
}

static ITEMS: [(&str, &str); 24] = [
    ("", "], lines:[]}"),
    (
        "const N = 3 ;",
        "Const(name:N, minus:false, value:3)], lines:[1]}",
    ),
    (
        "const N = - 3 ;",
        "Const(name:N, minus:true, value:3)], lines:[1]}",
    ),
    (
        "const N = 4294967295u ;",
        "Const(name:N, minus:false, value:4294967295u)], lines:[1]}",
    ),
    (
        "layout L ( i ) { dense ( i : 4 ) ; field F : i32 ; }",
        "Layout(LayoutDecl{name:L, axes:[i], nodes:[NodeDecl{kind:Dense, axes:[AxisDecl{name:i, \
         size:Number(4)}], chunk:None, cap:None}], fields:[FieldDecl{name:F, ty:I32}]})], lines:[1]}",
    ),
    (
        "layout L ( i , j ) { bitmasked ( i : N , \
         j : 2 ) ; pointer ( i : 4 ) cap 5 ; field F : i32 ; field G : u32 ; }",
        "Layout(LayoutDecl{name:L, axes:[i, j], nodes:[NodeDecl{kind:Bitmasked, axes:[AxisDecl{name:i, \
         size:Name(N)}, AxisDecl{name:j, size:Number(2)}], chunk:None, cap:None}, NodeDecl{kind:Pointer, \
         axes:[AxisDecl{name:i, size:Number(4)}], chunk:None, cap:Some(Number(5))}], \
         fields:[FieldDecl{name:F, ty:I32}, FieldDecl{name:G, ty:U32}]})], lines:[1]}",
    ),
    (
        "layout L ( i ) { hash ( i : 4 ) cap N ; dynamic ( i : 4 ) chunk 2 cap 3 ; field F : u32 ; }",
        "Layout(LayoutDecl{name:L, axes:[i], nodes:[NodeDecl{kind:Hash, axes:[AxisDecl{name:i, \
         size:Number(4)}], chunk:None, cap:Some(Name(N))}, NodeDecl{kind:Dynamic, axes:[AxisDecl{name:i, \
         size:Number(4)}], chunk:Some(Number(2)), cap:Some(Number(3))}], fields:[FieldDecl{name:F, \
         ty:U32}]})], lines:[1]}",
    ),
    (
        "kernel K { for i in L { } }",
        "Kernel(KernelDecl{name:K, vars:[i], domain:Layout(L), body:[]})], lines:[1]}",
    ),
    (
        "kernel K { for i , j in 0 .. 4 , 1 .. N { } }",
        "Kernel(KernelDecl{name:K, vars:[i, j], domain:Ranges([RangeDecl{lo:0, hi:4}, RangeDecl{lo:1, \
         hi:Name(N)}]), body:[]})], lines:[1]}",
    ),
    (
        "kernel K { for i in L .. N { } }",
        "Kernel(KernelDecl{name:K, vars:[i], domain:Ranges([RangeDecl{lo:Name(L), hi:Name(N)}]), body:[]})], \
         lines:[1]}",
    ),
    ("load F ;", "Command(Load(F))], lines:[1]}"),
    ("run K ;", "Command(Run(K))], lines:[1]}"),
    ("dump F ;", "Command(Dump(F))], lines:[1]}"),
    (
        "image F 0 255 ;",
        "Command(Image{field:F, lo:0, hi:255})], lines:[1]}",
    ),
    (
        "image F - 1 4294967295u ;",
        "Command(Image{field:F, lo:-1, hi:4294967295})], lines:[1]}",
    ),
    (
        "image F - 4294967295u - 2147483648 ;",
        "Command(Image{field:F, lo:-4294967295, hi:-2147483648})], lines:[1]}",
    ),
    ("stats L ;", "Command(Stats(L))], lines:[1]}"),
    ("prune L ;", "Command(Prune(L))], lines:[1]}"),
    ("clear L ;", "Command(Clear(L))], lines:[1]}"),
    (
        "times 3 { run K ; }",
        "Command(Times{number:3, body:[Run(K)]})], lines:[1]}",
    ),
    (
        "times 0 { load F ; dump F ; }",
        "Command(Times{number:0, body:[Load(F), Dump(F)]})], lines:[1]}",
    ),
    (
        "run K ; dump F ;",
        "Command(Run(K)), Command(Dump(F))], lines:[1, 1]}",
    ),
    (
        "run K ;\n\nrun\nK ; dump F ;",
        "Command(Run(K)), Command(Run(K)), Command(Dump(F))], lines:[1, 3, 4]}",
    ),
    (
        "const N = 1 ; kernel K { for i in L { } } clear L ;",
        "Const(name:N, minus:false, value:1), Kernel(KernelDecl{name:K, vars:[i], domain:Layout(L), \
         body:[]}), Command(Clear(L))], lines:[1, 1, 1]}",
    ),
];

#[test]
fn items_have_their_trees(rt: HostRuntime) -> Result<(), Fail> {
    compare(&rt, rt.alloc(), &ITEMS, ("", ""), ("", ""))
}
