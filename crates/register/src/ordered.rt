// A list that keeps its pairs ascending by the bytes of their references, and finds by halving.
ghost use Rattle.std.specs.Prelude.{◌≡◌, ◌<◌, [], length, is_some, is_ok, Some, None, IfSome};
ghost use Rattle.std.specs.List.{HoldsAt, remove};
ghost use Rattle.register.specs.Laws.{held_within, room_bounded};
ghost use Rattle.register.specs.Lists.{relisted, ranked};
ghost use Rattle.register.specs.Pairs.{look, forgotten};
ghost use Rattle.register.specs.Places.{Ascending, Placed, Sought, Compared};
ghost use Rattle.register.specs.Rising.{distinct_from_ascending};
ghost use Rattle.register.specs.Slots.{held, room_in};
ghost use Rattle.register.specs.Spelling.{spelling};

use crate::call::EnterRefusal;
use crate::entry::{Entry, Pair};
use crate::interface::Register;
use crate::reference::Reference;
use crate::row::search_in;
use crate::slots::Slots;

// Stays beside the other list: they differ in where a pair goes and how it is found, and so in the law that each of them keeps.
#[derive(Drop)]
pub struct OrderedList<'a> {
    slots: Slots<'a>,
}

impl<'a> OrderedList<'a> {
    // An empty list over `slots`, whatever they hold.
    pub fn new(slots: &'a mut [Pair]) -> OrderedList<'a>
        ensures slots { result.slots.slots.now ≡ slots.old }
        ensures used { result.slots.used ≡ 0 }
        ensures ordered { Ascending (held result.slots) }
        ensures empty { held result.slots ≡ [] }
    {
        OrderedList {
            slots: Slots::new(slots),
        }
    }
}

impl OrderedList<'_> {
    // How many pairs a find of `reference` compares with it: the very search that a find makes, counted.
    pub fn comparisons(&self, reference: &Reference) -> usize
        ensures { Compared (held self.now.slots) (spelling reference.now) result }
    {
        search_in(self.slots.held(), reference).compared
    }

    // Where `reference` stands among the pairs, or where it would.
    fn search(&self, reference: &Reference) -> Result<usize, usize>
        ensures sought { Sought (held self.now.slots) (spelling reference.now) result }
        ensures there { Ascending (held self.now.slots) → is_some (look (held self.now.slots) (spelling reference.now)) ≡ is_ok result }
    {
        search_in(self.slots.held(), reference).place
    }

    fn place(&self, reference: &Reference) -> Option<usize>
        ensures within { IfSome result (λ i. i < length (held self.now.slots)) }
        ensures placed { Ascending (held self.now.slots) → Placed (held self.now.slots) (spelling reference.now) result }
        ensures beside { Ascending (held self.now.slots) → IfSome result (λ i. HoldsAt (λ p. look (held self.now.slots) (spelling reference.now) ≡ Some p.value) (held self.now.slots) i) }
        ensures rest { Ascending (held self.now.slots) → IfSome result (λ i. remove (held self.now.slots) i ≡ forgotten (held self.now.slots) (spelling reference.now)) }
    {
        self.search(reference).ok()
    }
}

impl Register for OrderedList<'_> {
    ghost pairs = { λ s. held s.slots };

    ghost room = { λ s. room_in s.slots };

    ghost ordered = { λ s. Ascending (held s.slots) };

    // The pairs ascending, each behind those below it.
    ghost rule = { λ s c a t. Ascending (held s.slots) → held t.slots ≡ relisted ranked (held s.slots) c a };

    ghost lawful = { record { apart = λ s o. distinct_from_ascending (held s.slots) o; within = λ s _. held_within s.slots; bounded = λ s. room_bounded s.slots } };

    ghost asks = { λ _ _. None };

    fn capacity(&self) -> usize {
        self.slots.capacity()
    }

    fn asked_at(&self, _depth: usize) -> Option<u64> {
        None
    }

    fn find(&mut self, reference: &Reference) -> Option<usize> {
        let i = self.place(reference)?;
        Some(self.slots.held()[i].value)
    }

    fn enter(&mut self, reference: Reference, number: usize) -> Result<(), EnterRefusal> {
        match self.search(&reference) {
            Ok(_) => Err(EnterRefusal::AlreadyThere),
            Err(at) => {
                let pair = Entry {
                    reference,
                    value: number,
                };
                self.slots.insert(at, pair)
            }
        }
    }

    #[tactic(auto, using(crate::proofs::Forgetting::look_forgotten, crate::proofs::Edits::removed_size))]
    fn strike(&mut self, reference: &Reference) -> Option<usize> {
        let i = self.place(reference)?;
        let pair = self.slots.remove(i);
        Some(pair.value)
    }

    fn clear(&mut self) {
        self.slots.clear();
    }
}
