ghost use Rattle.std.specs.Prelude.{◌≡◌, ◌*◌, ◌<◌, ◌≤◌};
ghost use Rattle.sg_coord.specs.Limits.{most_axes, most_extent, most_points};

/// How many points each of `n` axes has: 1 to 3 axes of 1 to 2^15 points, and at most 2^30 points
/// in all. An axis that is not used has 1 point.
#[derive(Clone, Copy, Debug, PartialEq, Eq)]
pub struct Extents {
    pub n: u32,
    pub a: u32,
    pub b: u32,
    pub c: u32,
    pub ghost some_axis: { 1 ≤ n },
    pub ghost three_axes: { n ≤ most_axes },
    pub ghost a_some: { 1 ≤ a },
    pub ghost a_most: { a ≤ most_extent },
    pub ghost b_some: { 1 ≤ b },
    pub ghost b_most: { b ≤ most_extent },
    pub ghost b_unused: { n < 2 → b ≡ 1 },
    pub ghost c_some: { 1 ≤ c },
    pub ghost c_most: { c ≤ most_extent },
    pub ghost c_unused: { n < 3 → c ≡ 1 },
    pub ghost volume_most: { a * b * c ≤ most_points },
}

impl Extents {
    ghost use Rattle.sg_coord.specs.Bounds.{IsBounds, bounds_of, volume};

    /// How many points there are.
    pub fn volume(&self) -> u32
        ensures value { result ≡ volume (bounds_of self.now) }
        ensures bounds { IsBounds (bounds_of self.now) }
    {
        self.a * self.b * self.c
    }
}
