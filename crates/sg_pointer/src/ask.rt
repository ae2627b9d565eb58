//! The calls of a seat: start, ask, split and join.
ghost use Rattle.std.specs.Prelude.{◌≡◌, ℕ, ◌+◌, ◌-◌, ◌^◌, ◌<◌, ◌≤◌, ◌≢◌, true, false, ◌||◌, [], ◌∷◌, length, IfOk, MatchOption, slice_index};
ghost use Rattle.sg_words.specs.Asking.{Answered};
ghost use Rattle.sg_words.specs.declared.asking.Ask.TheVariants as ask;
ghost use Rattle.sg_words.specs.Counts.{pairs};
ghost use Rattle.sg_words.specs.RaceMachine.{newcomer, after_split, other_half, after_join, after_draw};
ghost use Rattle.sg_words.specs.steps.RaceSteps.{after_look, after_try};
ghost use Rattle.sg_words.specs.Stocks.{AreLinks, IsFreshStock, SameTeam, is_dry};
ghost use Rattle.sg_words.specs.steps.SlotSteps.{Provided};
ghost use Rattle.sg_pointer.specs.Seats.{old_links, stock_of, worker_of, IsSeatOf};

use crate::rule::{Draw, Half, Link, Look, Start};
use crate::seat::{AskSeat, PointerPass};
use atomic_table::Table;
use sg_words::{Ask, Items, Memory};
use std::alloc::Global;

impl PointerPass {
    /// A pass over these slot words, each 0 or one more than a number, that hands out the numbers of the stock; and its first seat.
    pub fn start(
        alloc: Global,
        links: Items<u64>,
        stock: Items<u32>,
    ) -> Result<(PointerPass, AskSeat), Memory>
        requires slots { 0 < length links }
        requires links { AreLinks links }
        requires fresh { IsFreshStock links stock }
        ensures seat { IfOk result (λ r. IsSeatOf r.0 r.1) }
        ensures given { IfOk result (λ r. (old_links r.0 ≡ links) × (stock_of r.0 ≡ stock)) }
        ensures worker { IfOk result (λ r. worker_of r.1 ≡ newcomer (length stock ∷ []) 16) }
    {
        let mut words = Items::from_slice(alloc, links.as_slice())?;
        words.push(0)?;
        are_numbers(stock.as_slice());
        let start = Start { links, stock };
        let (table, seat) = Table::of_words(alloc, words.as_slice(), &start)?;
        let pass = PointerPass { table, start };
        let seat = AskSeat {
            seat,
            spare: None,
            dry: false,
        };
        Ok((pass, seat))
    }

    /// The number that the slot holds, now and until the pass ends; an empty slot gets one of the stock. There is none if the stock is used up.
    /// No memory, and no waiting.
    pub fn ask(&self, seat: &mut AskSeat, slot: usize) -> Ask
        requires own { IsSeatOf self.now seat.old }
        requires inside { slot < length (old_links self.now) }
        ensures own { IsSeatOf self.now seat.new }
        ensures answer { Answered slot (worker_of seat.old) result (worker_of seat.new) }
        ensures team { SameTeam (worker_of seat.old) (worker_of seat.new) }
        ensures again { (n : ℕ) → 0 < pairs slot n (worker_of seat.old).seen → result ≡ ask.Node n }
        ensures stays_dry { is_dry (worker_of seat.old) ≡ true → is_dry (worker_of seat.new) ≡ true }
    {
        let word = self.look(seat, slot);
        if word != 0 {
            return Ask::Node((word - 1) as u32);
        }
        match self.provide(seat) {
            Some(ticket) => Ask::Node(self.place(seat, slot, ticket)),
            None => Ask::Dry,
        }
    }

    // The word of a slot.
    fn look(&self, seat: &mut AskSeat, slot: usize) -> u64
        requires own { IsSeatOf self.now seat.old }
        requires inside { slot < length (old_links self.now) }
        ensures own { IsSeatOf self.now seat.new }
        ensures event { worker_of seat.new ≡ after_look slot result (worker_of seat.old) }
        ensures small { result ≤ 2 ^ 32 }
        ensures again { (n : ℕ) → 0 < pairs slot n (worker_of seat.old).seen → result ≡ n + 1 }
    {
        self.table.shared.load::<Look>(&mut seat.seat, slot)
    }

    // The seat's spare, which it draws if it has none and may.
    fn provide(&self, seat: &mut AskSeat) -> Option<u64>
        requires own { IsSeatOf self.now seat.old }
        ensures own { IsSeatOf self.now seat.new }
        ensures event { Provided (worker_of seat.old) (worker_of seat.new) }
        ensures spare { MatchOption result (is_dry (worker_of seat.new) ≡ true) (λ t. ((worker_of seat.new).spare ≡ (0, t) ∷ []) × (t < length (stock_of self.now))) }
    {
        if let Some(ticket) = seat.spare {
            return Some(ticket);
        }
        if seat.dry {
            return None;
        }
        self.draw(seat)
    }

    // A new ticket, if it is of the stock.
    fn draw(&self, seat: &mut AskSeat) -> Option<u64>
        requires own { IsSeatOf self.now seat.old }
        requires none { (worker_of seat.old).spare ≡ [] }
        requires not_dry { is_dry (worker_of seat.old) ≡ false }
        ensures own { IsSeatOf self.now seat.new }
        ensures event { (n : ℕ) × (worker_of seat.new ≡ after_draw 0 (slice_index (worker_of seat.old).told 0) n (worker_of seat.old)) }
        ensures spare { MatchOption result (is_dry (worker_of seat.new) ≡ true) (λ t. ((worker_of seat.new).spare ≡ (0, t) ∷ []) × (t < length (stock_of self.now))) }
    {
        let ticket = self
            .table
            .shared
            .fetch_add::<Draw>(&mut seat.seat, self.start.links.len(), 1);
        if ticket < self.start.stock.len() as u64 {
            seat.spare = Some(ticket);
            Some(ticket)
        } else {
            seat.dry = true;
            None
        }
    }

    // The number that the slot holds after an exchange of 0 for the number of the seat's spare.
    fn place(&self, seat: &mut AskSeat, slot: usize, ticket: u64) -> u32
        requires own { IsSeatOf self.now seat.old }
        requires inside { slot < length (old_links self.now) }
        requires spare { (worker_of seat.old).spare ≡ (0, ticket) ∷ [] }
        requires ticket { ticket < length (stock_of self.now) }
        ensures own { IsSeatOf self.now seat.new }
        ensures event { (word : ℕ) × (worker_of seat.new ≡ after_try 0 slot ticket (slice_index (stock_of self.now) ticket) word (worker_of seat.old)) × (word ≡ 0 → result ≡ slice_index (stock_of self.now) ticket) × (word ≢ 0 → word ≡ result + 1) }
    {
        let number = self.start.stock.as_slice()[ticket as usize];
        let link = number as u64 + 1;
        let found = self
            .table
            .shared
            .compare_exchange::<Link>(&mut seat.seat, slot, 0, link);
        if found == 0 {
            seat.spare = None;
            number
        } else {
            (found - 1) as u32
        }
    }

    /// A new seat, which takes half of the share, rounded down.
    pub fn split(&self, seat: &mut AskSeat) -> AskSeat
        requires own { IsSeatOf self.now seat.old }
        requires share { 2 ≤ (worker_of seat.old).share }
        ensures own { IsSeatOf self.now seat.new }
        ensures other { IsSeatOf self.now result }
        ensures worker { worker_of seat.new ≡ after_split (worker_of seat.old) }
        ensures new_worker { worker_of result ≡ other_half (worker_of seat.old) }
    {
        let other = self.table.shared.split_seat::<Half>(&mut seat.seat);
        AskSeat {
            seat: other,
            spare: None,
            dry: false,
        }
    }

    /// Joins another seat into this one: what it has done and seen, its share and what came back to it.
    pub fn join(&self, seat: &mut AskSeat, other: AskSeat)
        requires own { IsSeatOf self.now seat.old }
        requires other { IsSeatOf self.now other }
        ensures own { IsSeatOf self.now seat.new }
        ensures worker { worker_of seat.new ≡ after_join (worker_of seat.old) (worker_of other) }
    {
        let AskSeat {
            seat: joined,
            spare: _,
            dry,
        } = other;
        self.table.shared.join_seat::<Half>(&mut seat.seat, joined);
        seat.dry = either(seat.dry, dry);
    }
}

// Numbers of 32 bits are below 2^32.
fn are_numbers(stock: &[u32])
    ensures numbers { (t : ℕ) → slice_index stock.now t < 2 ^ 32 }
    ensures room { length stock.now < 2 ^ 63 }
{
    let _count = stock.len();
}

fn either(one: bool, other: bool) -> bool
    ensures { result ≡ (one || other) }
{
    one || other
}
