//! The calls of a seat: start, ask, split and join. A key is searched from its first place on; the slot beside it is then asked for.
ghost use Rattle.std.specs.Prelude.{◌≡◌, ℕ, ◌+◌, ◌-◌, ◌^◌, ◌<◌, ◌≤◌, ◌≢◌, true, false, ◌||◌, [], ◌∷◌, length, IfOk, MatchOption, slice_index};
ghost use Rattle.sg_words.specs.Asking.{Answered};
ghost use Rattle.sg_words.specs.declared.asking.Ask.TheVariants as ask;
ghost use Rattle.sg_words.specs.Counts.{pairs};
ghost use Rattle.sg_words.specs.RaceMachine.{MayPut, newcomer, after_split, other_half, after_join, after_draw, after_key_word, key_word};
ghost use Rattle.sg_words.specs.steps.RaceSteps.{after_look, after_try};
ghost use Rattle.sg_words.specs.Stocks.{AreLinks, IsFreshStock, SameTeam, is_dry};
ghost use Rattle.sg_words.specs.steps.SlotSteps.{Provided};
ghost use Rattle.sg_hash.specs.Asking.{AnsweredKey, HasPut};
ghost use Rattle.sg_hash.specs.Seats.{old_keys, old_links, stock_of, worker_of, is_full, IsSeatAt, IsSeatOf};
ghost use Rattle.sg_hash.specs.Tables.{IsTable};
ghost use Rattle.sg_hash.specs.KeySteps.{after_look_key, TellKeys};
ghost use Rattle.sg_hash.specs.steps.Searching.{SameKeys, Searched, PutAt, SearchFound};

use crate::rule::{Draw, Half, Link, Look, LookKey, PutKey, Start};
use crate::seat::{HashPass, HashSeat};
use crate::table::{first_place, following};
use atomic_table::Table;
use sg_words::{Ask, Items, Memory};
use std::alloc::Global;

impl HashPass {
    /// A pass over these key words and the slot words beside them, each 0 or one more than a key or a number, that hands out the numbers of
    /// the stock; and its first seat.
    pub fn start(
        alloc: Global,
        keys: Items<u64>,
        links: Items<u64>,
        stock: Items<u32>,
    ) -> Result<(HashPass, HashSeat), Memory>
        requires slots { 0 < length links }
        requires many { length keys ≡ length links }
        requires table { IsTable keys }
        requires links { AreLinks links }
        requires fresh { IsFreshStock links stock }
        ensures seat { IfOk result (λ r. IsSeatOf r.0 r.1) }
        ensures given { IfOk result (λ r. (old_keys r.0 ≡ keys) × (old_links r.0 ≡ links) × (stock_of r.0 ≡ stock)) }
        ensures worker { IfOk result (λ r. worker_of r.1 ≡ newcomer (length stock ∷ length links ∷ []) 16) }
    {
        let mut words = Items::from_slice(alloc, links.as_slice())?;
        for i in 0..keys.len() {
            words.push(keys.as_slice()[i])?;
        }
        words.push(0)?;
        are_numbers(stock.as_slice());
        are_few(links.as_slice());
        let start = Start { keys, links, stock };
        let (table, seat) = Table::of_words(alloc, words.as_slice(), &start)?;
        let pass = HashPass { table, start };
        let seat = HashSeat {
            seat,
            spare: None,
            dry: false,
            full: false,
        };
        Ok((pass, seat))
    }

    /// The number in the slot beside the key, now and until the pass ends; a key that stands nowhere gets a place, and an empty slot one of
    /// the stock. There is none if the stock is used up, or every place holds another key. No memory, and no waiting.
    pub fn ask(&self, seat: &mut HashSeat, key: u32) -> Ask
        requires own { IsSeatOf self.now seat.old }
        ensures own { IsSeatOf self.now seat.new }
        ensures answer { AnsweredKey (length (old_links self.now)) key (worker_of seat.old) (is_full seat.old) result (worker_of seat.new) (is_full seat.new) }
        ensures put { HasPut key (worker_of seat.old) (worker_of seat.new) }
        ensures keys { (p k : ℕ) → 0 < pairs p k (worker_of seat.old).keys → 0 < pairs p k (worker_of seat.new).keys }
        ensures team { SameTeam (worker_of seat.old) (worker_of seat.new) }
        ensures again { (p n : ℕ) → 0 < pairs p key (worker_of seat.old).keys → 0 < pairs p n (worker_of seat.old).seen → result ≡ ask.Node n }
        ensures stays_dry { is_dry (worker_of seat.old) ≡ true → is_dry (worker_of seat.new) ≡ true }
    {
        match self.search(seat, key) {
            Some(place) => self.ask_slot(seat, place),
            None => {
                seat.full = true;
                Ask::Dry
            }
        }
    }

    // The place where the key stands, which it gets if it stands nowhere. None if every place holds another key.
    fn search(&self, seat: &mut HashSeat, key: u32) -> Option<usize>
        requires own { IsSeatAt self.now seat.old }
        ensures own { IsSeatAt self.now seat.new }
        ensures full { is_full seat.new ≡ is_full seat.old }
        ensures searched { Searched (worker_of seat.old) (worker_of seat.new) }
        ensures put { HasPut key (worker_of seat.old) (worker_of seat.new) }
        ensures found { SearchFound (length (old_links self.now)) key (worker_of seat.old) (worker_of seat.new) result }
    {
        let places = self.start.links.len();
        let wanted = key as u64 + 1;
        let first = first_place(places, key);
        let mut at = first;
        for _turn in 0..places {
            let word = self.probe(seat, at, key);
            if word == wanted {
                return Some(at);
            }
            at = following(at, places);
        }
        None
    }

    // The key word that stands at a place after this probe, which puts the key if none stood.
    fn probe(&self, seat: &mut HashSeat, place: usize, key: u32) -> u64
        requires own { IsSeatAt self.now seat.old }
        requires may { MayPut (length (old_links self.now)) place key (worker_of seat.old) }
        requires inside { place < length (old_links self.now) }
        ensures own { IsSeatAt self.now seat.new }
        ensures full { is_full seat.new ≡ is_full seat.old }
        ensures searched { Searched (worker_of seat.old) (worker_of seat.new) }
        ensures put { PutAt key result (worker_of seat.old) (worker_of seat.new) }
        ensures found { (k : ℕ) × (result ≡ k + 1) × (0 < pairs place k (worker_of seat.new).keys) }
        ensures tells { TellKeys (length (old_links self.now)) place result (worker_of seat.new) }
    {
        let word = self.look_key(seat, place);
        if word != 0 {
            return word;
        }
        self.put_key(seat, place, key)
    }

    // The key word at a place.
    fn look_key(&self, seat: &mut HashSeat, place: usize) -> u64
        requires own { IsSeatAt self.now seat.old }
        requires inside { place < length (old_links self.now) }
        ensures own { IsSeatAt self.now seat.new }
        ensures full { is_full seat.new ≡ is_full seat.old }
        ensures event { worker_of seat.new ≡ after_look_key place result (worker_of seat.old) }
        ensures tells { TellKeys (length (old_links self.now)) place result (worker_of seat.new) }
    {
        self.table
            .shared
            .load::<LookKey>(&mut seat.seat, self.word_at(place))
    }

    // The key word at a place after an exchange of 0 for the key.
    fn put_key(&self, seat: &mut HashSeat, place: usize, key: u32) -> u64
        requires own { IsSeatAt self.now seat.old }
        requires may { MayPut (length (old_links self.now)) place key (worker_of seat.old) }
        requires inside { place < length (old_links self.now) }
        ensures own { IsSeatAt self.now seat.new }
        ensures full { is_full seat.new ≡ is_full seat.old }
        ensures event { (word : ℕ) × (result ≡ key_word key word) × (worker_of seat.new ≡ after_key_word place key word (worker_of seat.old)) }
        ensures tells { TellKeys (length (old_links self.now)) place result (worker_of seat.new) }
    {
        let wanted = key as u64 + 1;
        let at = self.word_at(place);
        let found = self
            .table
            .shared
            .compare_exchange::<PutKey>(&mut seat.seat, at, 0, wanted);
        if found == 0 { wanted } else { found }
    }

    // The number that the slot holds, now and until the pass ends; an empty slot gets one of the stock.
    fn ask_slot(&self, seat: &mut HashSeat, slot: usize) -> Ask
        requires own { IsSeatAt self.now seat.old }
        requires inside { slot < length (old_links self.now) }
        ensures own { IsSeatAt self.now seat.new }
        ensures full { is_full seat.new ≡ is_full seat.old }
        ensures keys { SameKeys (worker_of seat.old) (worker_of seat.new) }
        ensures answer { Answered slot (worker_of seat.old) result (worker_of seat.new) }
        ensures team { SameTeam (worker_of seat.old) (worker_of seat.new) }
        ensures again { (n : ℕ) → 0 < pairs slot n (worker_of seat.old).seen → result ≡ ask.Node n }
        ensures stays_dry { is_dry (worker_of seat.old) ≡ true → is_dry (worker_of seat.new) ≡ true }
    {
        let word = self.look(seat, slot);
        if word != 0 {
            return Ask::Node((word - 1) as u32);
        }
        match self.provide(seat) {
            Some(ticket) => Ask::Node(self.place(seat, slot, ticket)),
            None => Ask::Dry,
        }
    }

    // The word of a slot.
    fn look(&self, seat: &mut HashSeat, slot: usize) -> u64
        requires own { IsSeatAt self.now seat.old }
        requires inside { slot < length (old_links self.now) }
        ensures own { IsSeatAt self.now seat.new }
        ensures full { is_full seat.new ≡ is_full seat.old }
        ensures keys { SameKeys (worker_of seat.old) (worker_of seat.new) }
        ensures event { worker_of seat.new ≡ after_look slot result (worker_of seat.old) }
        ensures small { result ≤ 2 ^ 32 }
        ensures again { (n : ℕ) → 0 < pairs slot n (worker_of seat.old).seen → result ≡ n + 1 }
    {
        self.table.shared.load::<Look>(&mut seat.seat, slot)
    }

    // The seat's spare, which it draws if it has none and may.
    fn provide(&self, seat: &mut HashSeat) -> Option<u64>
        requires own { IsSeatAt self.now seat.old }
        ensures own { IsSeatAt self.now seat.new }
        ensures full { is_full seat.new ≡ is_full seat.old }
        ensures keys { SameKeys (worker_of seat.old) (worker_of seat.new) }
        ensures event { Provided (worker_of seat.old) (worker_of seat.new) }
        ensures spare { MatchOption result (is_dry (worker_of seat.new) ≡ true) (λ t. ((worker_of seat.new).spare ≡ (0, t) ∷ []) × (t < length (stock_of self.now))) }
    {
        if let Some(ticket) = seat.spare {
            return Some(ticket);
        }
        if seat.dry {
            return None;
        }
        self.draw(seat)
    }

    // A new ticket, if it is of the stock.
    fn draw(&self, seat: &mut HashSeat) -> Option<u64>
        requires own { IsSeatAt self.now seat.old }
        requires none { (worker_of seat.old).spare ≡ [] }
        requires not_dry { is_dry (worker_of seat.old) ≡ false }
        ensures own { IsSeatAt self.now seat.new }
        ensures full { is_full seat.new ≡ is_full seat.old }
        ensures keys { SameKeys (worker_of seat.old) (worker_of seat.new) }
        ensures event { (n : ℕ) × (worker_of seat.new ≡ after_draw 0 (slice_index (worker_of seat.old).told 0) n (worker_of seat.old)) }
        ensures spare { MatchOption result (is_dry (worker_of seat.new) ≡ true) (λ t. ((worker_of seat.new).spare ≡ (0, t) ∷ []) × (t < length (stock_of self.now))) }
    {
        let ticket = self
            .table
            .shared
            .fetch_add::<Draw>(&mut seat.seat, self.word_at(self.start.links.len()), 1);
        if ticket < self.start.stock.len() as u64 {
            seat.spare = Some(ticket);
            Some(ticket)
        } else {
            seat.dry = true;
            None
        }
    }

    // The number that the slot holds after an exchange of 0 for the number of the seat's spare.
    fn place(&self, seat: &mut HashSeat, slot: usize, ticket: u64) -> u32
        requires own { IsSeatAt self.now seat.old }
        requires inside { slot < length (old_links self.now) }
        requires spare { (worker_of seat.old).spare ≡ (0, ticket) ∷ [] }
        requires ticket { ticket < length (stock_of self.now) }
        ensures own { IsSeatAt self.now seat.new }
        ensures full { is_full seat.new ≡ is_full seat.old }
        ensures keys { SameKeys (worker_of seat.old) (worker_of seat.new) }
        ensures event { (word : ℕ) × (worker_of seat.new ≡ after_try 0 slot ticket (slice_index (stock_of self.now) ticket) word (worker_of seat.old)) × (word ≡ 0 → result ≡ slice_index (stock_of self.now) ticket) × (word ≢ 0 → word ≡ result + 1) }
    {
        let number = self.start.stock.as_slice()[ticket as usize];
        let link = number as u64 + 1;
        let found = self
            .table
            .shared
            .compare_exchange::<Link>(&mut seat.seat, slot, 0, link);
        if found == 0 {
            seat.spare = None;
            number
        } else {
            (found - 1) as u32
        }
    }

    // The number of a word after the slots.
    fn word_at(&self, place: usize) -> usize
        requires inside { place ≤ length (old_links self.now) }
        ensures { result ≡ length (old_links self.now) + place }
    {
        self.start.links.len() + place
    }

    /// A new seat, which takes half of the share, rounded down.
    pub fn split(&self, seat: &mut HashSeat) -> HashSeat
        requires own { IsSeatOf self.now seat.old }
        requires share { 2 ≤ (worker_of seat.old).share }
        ensures own { IsSeatOf self.now seat.new }
        ensures other { IsSeatOf self.now result }
        ensures worker { worker_of seat.new ≡ after_split (worker_of seat.old) }
        ensures full { is_full seat.new ≡ is_full seat.old }
        ensures not_full { is_full result ≡ false }
        ensures new_worker { worker_of result ≡ other_half (worker_of seat.old) }
    {
        let other = self.table.shared.split_seat::<Half>(&mut seat.seat);
        HashSeat {
            seat: other,
            spare: None,
            dry: false,
            full: false,
        }
    }

    /// Joins another seat into this one: what it has done and seen, its share and what came back to it.
    pub fn join(&self, seat: &mut HashSeat, other: HashSeat)
        requires own { IsSeatOf self.now seat.old }
        requires other { IsSeatOf self.now other }
        ensures own { IsSeatOf self.now seat.new }
        ensures full { is_full seat.new ≡ (is_full seat.old || is_full other) }
        ensures worker { worker_of seat.new ≡ after_join (worker_of seat.old) (worker_of other) }
    {
        let HashSeat {
            seat: joined,
            spare: _,
            dry,
            full,
        } = other;
        self.table.shared.join_seat::<Half>(&mut seat.seat, joined);
        seat.dry = either(seat.dry, dry);
        seat.full = either(seat.full, full);
    }
}

// Numbers of 32 bits are below 2^32.
fn are_numbers(stock: &[u32])
    ensures numbers { (t : ℕ) → slice_index stock.now t < 2 ^ 32 }
    ensures room { length stock.now < 2 ^ 63 }
{
    let _count = stock.len();
}

fn are_few(words: &[u64])
    ensures { length words.now < 2 ^ 63 }
{
    let _count = words.len();
}

pub(crate) fn either(one: bool, other: bool) -> bool
    ensures { result ≡ (one || other) }
{
    one || other
}
