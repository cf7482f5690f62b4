// A list that keeps its pairs as they came.
ghost use Rattle.std.specs.Prelude.{◌≡◌, [], is_some, Some, None, IfSome};
ghost use Rattle.std.specs.List.{HoldsAt, remove};
ghost use Rattle.register.specs.Laws.{held_within, room_bounded};
ghost use Rattle.register.specs.Lists.{relisted, behind};
ghost use Rattle.register.specs.Pairs.{look, Distinct, forgotten};
ghost use Rattle.register.specs.Places.{Placed};
ghost use Rattle.register.specs.Slots.{held, room_in};
ghost use Rattle.register.specs.Spelling.{spelling};

use crate::call::EnterRefusal;
use crate::entry::{Entry, Pair};
use crate::interface::Register;
use crate::reference::Reference;
use crate::row::{look_in, place_in};
use crate::slots::Slots;

#[derive(Drop)]
pub struct ArrivalList<'a> {
    slots: Slots<'a>,
}

impl<'a> ArrivalList<'a> {
    // An empty list over `slots`, whatever they hold.
    pub fn new(slots: &'a mut [Pair]) -> ArrivalList<'a>
        ensures slots { result.slots.slots.now ≡ slots.old }
        ensures used { result.slots.used ≡ 0 }
        ensures ordered { Distinct (held result.slots) }
        ensures empty { held result.slots ≡ [] }
    {
        ArrivalList {
            slots: Slots::new(slots),
        }
    }
}

impl ArrivalList<'_> {
    // Where `reference` stands among the pairs.
    fn place(&self, reference: &Reference) -> Option<usize>
        ensures placed { Placed (held self.now.slots) (spelling reference.now) result }
        ensures beside { Distinct (held self.now.slots) → IfSome result (λ i. HoldsAt (λ p. look (held self.now.slots) (spelling reference.now) ≡ Some p.value) (held self.now.slots) i) }
        ensures rest { Distinct (held self.now.slots) → IfSome result (λ i. remove (held self.now.slots) i ≡ forgotten (held self.now.slots) (spelling reference.now)) }
        ensures there { is_some (look (held self.now.slots) (spelling reference.now)) ≡ is_some result }
    {
        place_in(self.slots.held(), reference)
    }
}

impl Register for ArrivalList<'_> {
    ghost pairs = { λ s. held s.slots };

    ghost room = { λ s. room_in s.slots };

    ghost ordered = { λ s. Distinct (held s.slots) };

    // The pairs as they came, the newest last.
    ghost rule = { λ s c a t. Distinct (held s.slots) → held t.slots ≡ relisted behind (held s.slots) c a };

    ghost lawful = { record { apart = λ s o. o; within = λ s _. held_within s.slots; bounded = λ s. room_bounded s.slots } };

    ghost asks = { λ _ _. None };

    fn capacity(&self) -> usize {
        self.slots.capacity()
    }

    fn asked_at(&self, _depth: usize) -> Option<u64> {
        None
    }

    fn find(&mut self, reference: &Reference) -> Option<usize> {
        look_in(self.slots.held(), reference)
    }

    fn enter(&mut self, reference: Reference, number: usize) -> Result<(), EnterRefusal> {
        match self.place(&reference) {
            Some(_) => Err(EnterRefusal::AlreadyThere),
            None => self.slots.push(Entry {
                reference,
                value: number,
            }),
        }
    }

    #[tactic(auto, using(crate::proofs::Forgetting::look_forgotten, crate::proofs::Edits::removed_size))]
    fn strike(&mut self, reference: &Reference) -> Option<usize> {
        let i = self.place(reference)?;
        let pair = self.slots.remove(i);
        Some(pair.value)
    }

    fn clear(&mut self) {
        self.slots.clear();
    }
}
