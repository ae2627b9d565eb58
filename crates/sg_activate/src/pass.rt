ghost use Rattle.std.specs.Prelude.{◌≡◌, ℕ, ◌+◌, ◌-◌, ◌/◌, ◌≤◌, List, Contains};
ghost use Rattle.sg_coord.specs.declared.coord.Coord.{Coord};
ghost use Rattle.sg_coord.specs.Coord.{Inside};
ghost use Rattle.sg_coord.specs.Bounds.{Bounds};

use sg_coord::Coord;

/// What workers do side by side with coordinates, each through a seat of its own: they ask for them, one after the
/// other. `IsMet` tells that a seat has met what a coordinate wants, and `IsMadeFor` that whatever it made is for some
/// of these coordinates.
pub(crate) trait Pass {
    type Seat: Drop;

    ghost bounds: { Self → Bounds };

    ghost IsSeatOf: { Self → Self.Seat → Type 0 };

    ghost share: { Self.Seat → ℕ };

    ghost weight: { Self.Seat → ℕ };

    ghost IsMet: { Self → Coord → Self.Seat → Type 0 };

    ghost IsMadeFor: { Self → List Coord → Self.Seat → Type 0 };

    /// Asks for a coordinate.
    fn ask(&self, seat: &mut Self::Seat, at: Coord)
        requires own { IsSeatOf self.now seat.old }
        requires inside { Inside (bounds self.now) at }
        ensures own { IsSeatOf self.now seat.new }
        ensures share { share seat.new ≡ share seat.old }
        ensures weight { weight seat.new ≡ weight seat.old }
        ensures met { IsMet self.now at seat.new }
        ensures stays { (other : Coord) → IsMet self.now other seat.old → IsMet self.now other seat.new }
        ensures made { (wanted : List Coord) → Contains wanted at → IsMadeFor self.now wanted seat.old →
            IsMadeFor self.now wanted seat.new };

    /// A new seat with half of the share, rounded down.
    fn split(&self, seat: &mut Self::Seat) -> Self::Seat
        requires own { IsSeatOf self.now seat.old }
        requires share { 2 ≤ share seat.old }
        ensures own { IsSeatOf self.now seat.new }
        ensures other { IsSeatOf self.now result }
        ensures share { share seat.new ≡ share seat.old - share seat.old / 2 }
        ensures other_share { share result ≡ share seat.old / 2 }
        ensures weight { weight seat.new + weight result ≡ weight seat.old }
        ensures made { (wanted : List Coord) → IsMadeFor self.now wanted seat.old →
            IsMadeFor self.now wanted seat.new }
        ensures none { (wanted : List Coord) → IsMadeFor self.now wanted result };

    /// Joins another seat into this one.
    fn join(&self, seat: &mut Self::Seat, other: Self::Seat)
        requires own { IsSeatOf self.now seat.old }
        requires other { IsSeatOf self.now other }
        ensures own { IsSeatOf self.now seat.new }
        ensures weight { weight seat.new ≡ weight seat.old + weight other }
        ensures stays { (at : Coord) → IsMet self.now at seat.old → IsMet self.now at seat.new }
        ensures others { (at : Coord) → IsMet self.now at other → IsMet self.now at seat.new }
        ensures made { (wanted : List Coord) → IsMadeFor self.now wanted seat.old → IsMadeFor self.now wanted other →
            IsMadeFor self.now wanted seat.new };
}
