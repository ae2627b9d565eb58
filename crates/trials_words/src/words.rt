use sg_words::{
    AccOp, BinOp, Ty, UnOp, apply, apply_un, fold, mulq, number, rank, unrank, word_of,
};

#[test]
fn gives_the_words_of_the_table(rt: HostRuntime) {
    for (op, ty, a, b, want) in [
        (BinOp::Div, Ty::I32, 2147483648, 4294967295, 2147483648),
        (BinOp::Rem, Ty::I32, 2147483648, 4294967295, 0),
        (BinOp::Div, Ty::I32, 4294967289, 2, 4294967293),
        (BinOp::Rem, Ty::I32, 4294967289, 2, 4294967295),
        (BinOp::Div, Ty::U32, 7, 0, 0),
        (BinOp::Rem, Ty::U32, 7, 0, 7),
        (BinOp::Shr, Ty::I32, 2147483648, 31, 4294967295),
        (BinOp::Shr, Ty::U32, 2147483648, 31, 1),
        (BinOp::Shl, Ty::I32, 1, 33, 2),
    ] {
        assert_eq!(rt; apply(op, ty, a, b), want, "{op:?} {ty:?} {a} {b}");
    }
    for (a, b, s, want) in [
        (65536, 65536, 16, 65536),
        (2147483647, 2, 0, 4294967294),
        (4294967293, 1, 1, 4294967294),
        (2147483648, 2147483648, 31, 2147483648),
        (4294967295, 4294967295, 32, 1),
    ] {
        assert_eq!(rt; mulq(a, b, s), want, "{a} {b} {s}");
    }
}

#[test]
fn words_are_folded_and_ranked(rt: HostRuntime) {
    assert_eq!(rt; apply_un(UnOp::Neg, 5), 4294967291);
    assert_eq!(rt; fold(AccOp::Min, Ty::I32, 5, 4294967293), 4294967293);
    assert_eq!(rt; fold(AccOp::Max, Ty::U32, 5, 4294967293), 4294967293);
    assert_eq!(rt; fold(AccOp::Or, Ty::I32, 2147483660, 10), 2147483662);
    assert_eq!(rt; fold(AccOp::And, Ty::I32, 2147483660, 10), 8);
    assert_eq!(rt; fold(AccOp::Xor, Ty::I32, 2147483660, 10), 2147483654);
    assert_eq!(rt;
        [rank(Ty::I32, 5), rank(Ty::I32, 4294967293)],
        [2147483653, 2147483645]
    );
    assert_eq!(rt; unrank(Ty::I32, 2147483645), 4294967293);
    assert_eq!(rt; word_of(number(Ty::I32, 4294967293)), 4294967293);
}
