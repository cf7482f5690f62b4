// Slots that a caller lends: the first of them hold pairs, as many as are used.
// Stays a slice with a number beside it: the library has no list over lent memory.
ghost use Rattle.std.specs.Prelude.{◌≡◌, ◌≤◌, min, length};

use crate::call::EnterRefusal;
use crate::entry::Pair;

#[derive(Drop)]
pub struct Slots<'a> {
    slots: &'a mut [Pair],
    used: usize,
    ghost within: { used ≤ min (length slots.now) 1024 },
}

impl<'a> Slots<'a> {
    // None used, whatever they hold.
    pub fn new(slots: &'a mut [Pair]) -> Slots<'a>
        ensures slots { result.slots.now ≡ slots.old }
        ensures used { result.used ≡ 0 }
    {
        Slots { slots, used: 0 }
    }
}

impl Slots<'_> {
    ghost use Rattle.std.specs.Prelude.{◌≡◌, ◌+◌, ◌-◌, ◌<◌, ◌≤◌, [], ◌∷◌, ◌++◌, length, is_ok, if◌then◌else◌, slice_index_or, nat_le, nat_lt};
    ghost use Rattle.register.specs.declared.call.EnterRefusal.TheVariants.{Full};
    ghost use Rattle.std.specs.List.{insert, remove};
    ghost use Rattle.register.specs.Slots.{held, room_in};

    // The pairs.
    pub fn held(&self) -> &[Pair]
        ensures { result.now ≡ held self.now }
    {
        &self.slots[..self.used]
    }

    pub fn capacity(&self) -> usize
        ensures { result ≡ room_in self.now }
    {
        self.slots.len().min(1024)
    }

    pub fn is_full(&self) -> bool
        ensures { result ≡ nat_le (room_in self.now) (length (held self.now)) }
    {
        self.used >= self.capacity()
    }

    // Puts a pair at the place `at`, and moves those from there on up by one.
    pub fn insert(&mut self, at: usize, pair: Pair) -> Result<(), EnterRefusal>
        requires { at ≤ length (held self.old) }
        ensures fixed { room_in self.new ≡ room_in self.old }
        ensures answer { result ≡ (if nat_lt (length (held self.old)) (room_in self.old) then Ok tt else Err Full) }
        ensures held { held self.new ≡ (if is_ok result then insert (held self.old) at pair else held self.old) }
    {
        if self.is_full() {
            return Err(EnterRefusal::Full);
        }
        self.slots.copy_within(at..self.used, at + 1);
        self.slots[at] = pair;
        self.used += 1;
        Ok(())
    }

    // Puts a pair behind the others.
    pub fn push(&mut self, pair: Pair) -> Result<(), EnterRefusal>
        ensures fixed { room_in self.new ≡ room_in self.old }
        ensures answer { result ≡ (if nat_lt (length (held self.old)) (room_in self.old) then Ok tt else Err Full) }
        ensures held { held self.new ≡ (if is_ok result then held self.old ++ pair ∷ [] else held self.old) }
    {
        self.insert(self.used, pair)
    }

    // Takes out the pair at the place `at`, and moves those behind it down by one.
    pub fn remove(&mut self, at: usize) -> Pair
        requires { at < length (held self.old) }
        ensures fixed { room_in self.new ≡ room_in self.old }
        ensures held { held self.new ≡ remove (held self.old) at }
        ensures taken { result ≡ slice_index_or (held self.old) at result }
    {
        let pair = self.slots[at];
        self.slots.copy_within(at + 1..self.used, at);
        self.used -= 1;
        pair
    }

    pub fn clear(&mut self)
        ensures fixed { room_in self.new ≡ room_in self.old }
        ensures held { held self.new ≡ [] }
    {
        self.used = 0;
    }
}
