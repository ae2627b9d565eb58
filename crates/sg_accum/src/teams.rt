//! A seat's seats in the parts: all are split at once, and all are joined at once.
ghost use Rattle.std.specs.Prelude.{◌≡◌, ◌≤◌, [], map, length};
ghost use Rattle.std.specs.List.{All};
ghost use Rattle.std.specs.Vec.{vec_capacity};
ghost use Rattle.sg_words.specs.declared.race.Worker.{Worker};
ghost use Rattle.sg_words.specs.RaceMachine.{after_split, other_half};
ghost use Rattle.sg_accum.specs.Parts.{part_tables, seat_tables, seat_workers};
ghost use Rattle.sg_accum.specs.steps.Teams.{joined_each};

use crate::part::{Part, PartSeat};

/// Splits the seat in each part, and puts the new seats into a list with room for them.
pub(crate) fn split_each(parts: &[Part], seats: &mut Vec<PartSeat>, others: &mut Vec<PartSeat>)
    requires own { seat_tables seats.old.items ≡ part_tables parts.now }
    requires none { others.old.items ≡ [] }
    requires room { length parts.now ≤ vec_capacity others.old }
    requires share { All (λ (v : Worker). 2 ≤ v.share) (seat_workers seats.old.items) }
    ensures own { seat_tables seats.new.items ≡ part_tables parts.now }
    ensures other { seat_tables others.new.items ≡ part_tables parts.now }
    ensures left { seat_workers seats.new.items ≡ map after_split (seat_workers seats.old.items) }
    ensures right { seat_workers others.new.items ≡ map other_half (seat_workers seats.old.items) }
{
    for place in 0..parts.len() {
        others.push_reserved(parts[place].split(&mut seats[place]));
    }
}

/// Joins the other seat of each part into the seat there.
pub(crate) fn join_each(parts: &[Part], seats: &mut Vec<PartSeat>, mut others: Vec<PartSeat>)
    requires own { seat_tables seats.old.items ≡ part_tables parts.now }
    requires other { seat_tables others.items ≡ part_tables parts.now }
    ensures own { seat_tables seats.new.items ≡ part_tables parts.now }
    ensures both { seat_workers seats.new.items ≡ joined_each (seat_workers seats.old.items) (seat_workers others.items) }
{
    while let Some(other) = others.pop() {
        let place = others.len();
        parts[place].join(&mut seats[place], other);
    }
}
