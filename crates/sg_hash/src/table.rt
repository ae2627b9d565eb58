ghost use Rattle.std.specs.Prelude.{◌≡◌, ℕ, ◌+◌, ◌<◌, ◌%◌, false, true, ◌==◌, if◌then◌else◌, Some, None, MatchOption, ◌↔◌, length, slice_index};
ghost use Rattle.sg_words.specs.RaceMachine.{home};
ghost use Rattle.sg_hash.specs.Tables.{IsTable, AreBeside, beside, IsAbsent, IsFull};
ghost use Rattle.sg_hash.specs.steps.Probing.{IsProbe};

/// The number that stands beside the key. None if the key is absent. Constant time is expected while half of the
/// places are empty.
pub fn find(keys: &[u64], links: &[u64], key: u32) -> Option<u32>
    requires some { 0 < length keys.now }
    requires table { IsTable keys.now }
    requires links { AreBeside keys.now links.now }
    ensures number { result ≡ beside keys.now links.now key }
    ensures absent { (result ≡ None) ↔ IsAbsent keys.now key }
{
    match place_of(keys, key) {
        Some(place) => Some((links[place] - 1) as u32),
        None => None,
    }
}

/// The place at which the key stands. None if the key is absent. Constant time is expected while half of the places are
/// empty.
pub fn place_of(keys: &[u64], key: u32) -> Option<usize>
    requires some { 0 < length keys.now }
    requires table { IsTable keys.now }
    ensures { MatchOption result (IsAbsent keys.now key)
        (λ place. (place < length keys.now) × (slice_index keys.now place ≡ key + 1)) }
{
    match probe(keys, key) {
        Some(place) => { if keys[place] == 0 { None } else { Some(place) } }
        None => None,
    }
}

/// Puts a key that is absent, with the number beside it. False, with nothing changed, where every place holds another
/// key.
pub fn put(keys: &mut [u64], links: &mut [u64], key: u32, number: u32) -> bool
    requires some { 0 < length keys.old }
    requires table { IsTable keys.old }
    requires links { AreBeside keys.old links.old }
    requires absent { IsAbsent keys.old key }
    ensures full { (result ≡ false) ↔ IsFull keys.old key }
    ensures stays { result ≡ false → keys.new ≡ keys.old }
    ensures links_stay { result ≡ false → links.new ≡ links.old }
    ensures table { IsTable keys.new }
    ensures links { AreBeside keys.new links.new }
    ensures put { result ≡ true → (k : ℕ) → beside keys.new links.new k ≡ (if k == key then Some number else beside keys.old links.old k) }
{
    match probe(keys, key) {
        Some(place) => {
            keys[place] = u64::from(key) + 1;
            links[place] = u64::from(number) + 1;
            true
        }
        None => false,
    }
}

/// The first place in the key's order that is empty or holds it. None if every place holds another key.
fn probe(keys: &[u64], key: u32) -> Option<usize>
    requires { 0 < length keys.now }
    ensures { IsProbe keys.now key result }
{
    let wanted = u64::from(key) + 1;
    let first = first_place(keys.len(), key);
    let mut at = first;
    for _turn in 0..keys.len() {
        let word = keys[at];
        if word == 0 || word == wanted {
            return Some(at);
        }
        at = following(at, keys.len());
    }
    None
}

/// The first place of a key among so many.
#[tactic(auto, unfolding(sg_words::specs::RaceMachine::home))]
pub(crate) fn first_place(places: usize, key: u32) -> usize
    requires { 0 < places }
    ensures { result ≡ home places key }
{
    let mixed = key.wrapping_mul(2654435769);
    (u128::from(mixed) * places as u128 >> 32) as usize
}

pub(crate) fn following(at: usize, places: usize) -> usize
    requires { at < places }
    ensures { result ≡ (at + 1) % places }
{
    if at + 1 == places { 0 } else { at + 1 }
}
