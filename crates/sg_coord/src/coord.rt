ghost use Rattle.std.specs.Prelude.{◌≡◌, ◌↔◌, ◌<◌, ◌^◌, IsTrue, pos, ◌≤ℤ◌};
ghost use Rattle.sg_coord.specs.Coord.{ComesBefore, comes_before, count_of};

/// A coordinate of `n` axes, 1 to 3. The parts that it does not use are 0. Parts may be negative.
#[derive(Clone, Copy, Debug, PartialEq, Eq)]
pub struct Coord {
    pub n: u32,
    pub a: i32,
    pub b: i32,
    pub c: i32,
}

/// Whether `x` is before `y` in row order, which compares the first axis first.
pub fn rises(x: Coord, y: Coord) -> bool
    ensures value { result ≡ comes_before x y }
    ensures before { IsTrue result ↔ ComesBefore x y }
{
    x.a < y.a || (x.a == y.a && (x.b < y.b || (x.b == y.b && x.c < y.c)))
}

/// A number that is at least 0, as a part of a coordinate inside is, as a count.
pub fn count(part: i32) -> u32
    requires { pos 0 ≤ℤ part }
    ensures value { result ≡ count_of part }
    ensures part { part ≡ pos result }
{
    part as u32
}

/// The coordinate with these parts.
pub fn coord_of(n: u32, a: u32, b: u32, c: u32) -> Coord
    requires a { a < 2 ^ 31 }
    requires b { b < 2 ^ 31 }
    requires c { c < 2 ^ 31 }
    ensures { result ≡ record { n = n; a = pos a; b = pos b; c = pos c } }
{
    Coord {
        n,
        a: a as i32,
        b: b as i32,
        c: c as i32,
    }
}
