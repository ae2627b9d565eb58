//! Tables whose words stand in rows that are kept by pages: the same searches as over lists.

ghost use Rattle.std.specs.Prelude.{◌≡◌, ℕ, ◌+◌, ◌<◌, false, true, ◌==◌, if◌then◌else◌, Some, None, MatchOption, ◌↔◌, length, slice_index};
ghost use Rattle.sg_hash.specs.Tables.{IsTable, AreBeside, beside, IsAbsent, IsFull};
ghost use Rattle.sg_hash.specs.steps.Probing.{IsProbe};

use crate::paged::PagedRow;
use crate::table::{first_place, following};

/// The number that stands beside the key. None if the key is absent. Constant time is expected while half of the places are empty.
pub fn find_in(keys: &PagedRow, links: &PagedRow, key: u32) -> Option<u32>
    requires some { 0 < length keys.now }
    requires table { IsTable keys.now }
    requires links { AreBeside keys.now links.now }
    ensures number { result ≡ beside keys.now links.now key }
    ensures absent { (result ≡ None) ↔ IsAbsent keys.now key }
{
    match place_in(keys, key) {
        Some(place) => Some((links.get(place) - 1) as u32),
        None => None,
    }
}

/// The place at which the key stands. None if the key is absent. Constant time is expected while half of the places are empty.
pub fn place_in(keys: &PagedRow, key: u32) -> Option<usize>
    requires some { 0 < length keys.now }
    requires table { IsTable keys.now }
    ensures { MatchOption result (IsAbsent keys.now key)
        (λ place. (place < length keys.now) × (slice_index keys.now place ≡ key + 1)) }
{
    match probe(keys, key) {
        Some(place) => {
            if keys.get(place) == 0 {
                None
            } else {
                Some(place)
            }
        }
        None => None,
    }
}

/// Puts a key that is absent, with the number beside it. False, with nothing changed, where every place holds another key.
pub fn put_in(keys: &mut PagedRow, links: &mut PagedRow, key: u32, number: u32) -> bool
    requires some { 0 < length keys.old }
    requires table { IsTable keys.old }
    requires links { AreBeside keys.old links.old }
    requires absent { IsAbsent keys.old key }
    ensures full { (result ≡ false) ↔ IsFull keys.old key }
    ensures many { length keys.new ≡ length keys.old }
    ensures stays { result ≡ false → keys.new ≡ keys.old }
    ensures links_stay { result ≡ false → links.new ≡ links.old }
    ensures table { IsTable keys.new }
    ensures links { AreBeside keys.new links.new }
    ensures put { result ≡ true → (k : ℕ) → beside keys.new links.new k ≡ (if k == key then Some number else beside keys.old links.old k) }
{
    match probe(keys, key) {
        Some(place) => {
            keys.set(place, u64::from(key) + 1);
            links.set(place, u64::from(number) + 1);
            true
        }
        None => false,
    }
}

/// The first place in the key's order that is empty or holds it. None if every place holds another key.
fn probe(keys: &PagedRow, key: u32) -> Option<usize>
    requires { 0 < length keys.now }
    ensures { IsProbe keys.now key result }
{
    let wanted = u64::from(key) + 1;
    let places = keys.len();
    let mut at = first_place(places, key);
    for _turn in 0..places {
        let word = keys.get(at);
        if word == 0 || word == wanted {
            return Some(at);
        }
        at = following(at, places);
    }
    None
}
