// A row of entries: looking a reference up in it, and finding its place.
ghost use Rattle.std.specs.Prelude.{◌≡◌, is_some};
ghost use Rattle.register.specs.Pairs.{look};
ghost use Rattle.register.specs.Places.{Placed, Sought, Compared};
ghost use Rattle.register.specs.Spelling.{spelling};

use crate::entry::Entry;
use crate::reference::Reference;
use std::cmp::Ordering;

// What stands beside `reference` among `entries`, if anything.
pub fn look_in<V: Copy>(entries: &[Entry<V>], reference: &Reference) -> Option<V>
    ensures { result ≡ look entries.now (spelling reference.now) }
{
    let entry = entries.iter().find(|e| e.reference == *reference)?;
    Some(entry.value)
}

// Where `reference` stands among `entries`.
pub fn place_in<V>(entries: &[Entry<V>], reference: &Reference) -> Option<usize>
    ensures placed { Placed entries.now (spelling reference.now) result }
    ensures there { is_some (look entries.now (spelling reference.now)) ≡ is_some result }
{
    entries.iter().position(|e| e.reference == *reference)
}

// What a search by halving found, and how many entries it compared with what it sought.
#[derive(Drop)]
pub struct Search {
    pub place: Result<usize, usize>,
    pub compared: usize,
}

// Where `reference` stands among ascending `entries`, or where it would.
pub fn search_in<V>(entries: &[Entry<V>], reference: &Reference) -> Search
    ensures sought { Sought entries.now (spelling reference.now) result.place }
    ensures compared { Compared entries.now (spelling reference.now) result.compared }
{
    // Stays a loop: it counts, and the library's `binary_search_by` does not say how often it compares.
    let mut low = 0;
    let mut high = entries.len();
    let mut compared = 0;
    while low < high {
        let mid = low + (high - low) / 2;
        compared += 1;
        match entries[mid].reference.cmp(reference) {
            Ordering::Less => low = mid + 1,
            Ordering::Equal => return Search {
                place: Ok(mid),
                compared,
            },
            Ordering::Greater => high = mid,
        }
    }
    Search {
        place: Err(low),
        compared,
    }
}
