use sg_coord::{Coord, Extents, coord_at, inside, rises, row, slice_of};

#[test]
fn points_have_row_numbers(rt: HostRuntime) {
    let block = Extents {
        n: 3,
        a: 2,
        b: 3,
        c: 5,
    };
    let at = Coord {
        n: 3,
        a: 1,
        b: 2,
        c: 3,
    };
    assert_eq!(rt; block.volume(), 30);
    assert!(rt; inside(&block, at));
    assert_eq!(rt; row(&block, at), 28);
    assert_eq!(rt; coord_at(&block, 28), at);
    assert!(rt; rises(coord_at(&block, 27), at));
    assert_eq!(rt; slice_of(10, 4, 2), (6, 8));
}
