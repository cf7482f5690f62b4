// A list of at most `N` items.
ghost use Rattle.std.specs.Prelude.{◌≡◌, ◌+◌, ◌<◌, ◌≤◌, ◌↔◌, [], ◌∷◌, ◌++◌, length, take, IsOk, MatchResult, OnOk, OnErr};
ghost use Rattle.std.specs.List.{remove};
ghost use Rattle.std.specs.Cmp.{on_per, on_equiv};
ghost use Rattle.std.specs.Cmp.Lexicographic.{pointwise, lists_per, lists_equiv};

use std::marker::Model;

// There is no room left for what was to be added.
#[derive(Clone, Copy, PartialEq, Eq, Debug)]
pub struct Full;

// The first `len` of the items.
#[derive(Clone, Copy)]
pub struct Short<T, const N: usize> {
    items: [T; N],
    len: usize,
}

impl<T, const N: usize> Model for Short<T, N> {
    ghost use Rattle.std.specs.Prelude.{◌≡◌, ◌≤◌, ◌++◌, length, take, drop};
    ghost use Rattle.std.proofs.Common.{arith, take-append-drop, length-take-le};
    ghost use Rattle.short.specs.Short.{Short as Listed};

    ghost Value = { Listed T };

    ghost view = { λ s. record { items = take s.len s.items; spare = drop s.len s.items } };

    ghost invariant = { λ s. (s.len ≤ N) × (length s.items ≡ N) };

    ghost inverse = { λ s. record { items = s.items ++ s.spare; len = length s.items } };

    ghost inverse_ok = { λ s h i. record {
      items = take-append-drop s.len s.items i;
      len = length-take-le s.len s.items (omega (arith, h.0, h.1)) i;
    } };
}

impl<T, const N: usize> Short<T, N> {
    pub fn as_slice(&self) -> &[T]
        ensures value { result.now ≡ self.now.items }
        ensures fits { length result.now ≤ N }
    {
        &self.items[..self.len]
    }

    // Makes the list empty.
    pub fn clear(&mut self)
        ensures { self.new.items ≡ [] }
    {
        self.len = 0;
    }
}

impl<T: Copy, const N: usize> Short<T, N> {
    // An empty list. Its unused room is filled with blanks, which no one sees.
    pub fn new(blank: T) -> Self
        ensures { result.items ≡ [] }
    {
        Short {
            items: [blank; N],
            len: 0,
        }
    }

    // A list of these items, where there are not too many.
    pub fn copied(blank: T, items: &[T]) -> Result<Self, Full>
        ensures { MatchResult result (λ s. s.items ≡ items.now) (λ _. N < length items.now) }
    {
        let mut list = Short::new(blank);
        list.append(items)?;
        Ok(list)
    }

    // Puts an item behind the others, if there is room.
    pub fn push(&mut self, item: T) -> Result<(), Full>
        ensures room { IsOk result ↔ (length self.old.items < N) }
        ensures ok { OnOk result (self.new.items ≡ self.old.items ++ item ∷ []) }
        ensures err { OnErr result (self.new ≡ self.old) }
    {
        if self.len == N {
            return Err(Full);
        }
        self.items[self.len] = item;
        self.len += 1;
        Ok(())
    }

    // Puts items behind the others, if there is room for all of them.
    pub fn append(&mut self, more: &[T]) -> Result<(), Full>
        ensures room { IsOk result ↔ (length self.old.items + length more.now ≤ N) }
        ensures ok { OnOk result (self.new.items ≡ self.old.items ++ more.now) }
        ensures err { OnErr result (self.new ≡ self.old) }
    {
        if more.len() > N - self.len {
            return Err(Full);
        }
        let end = self.len + more.len();
        let room = &mut self.items[..];
        room[self.len..end].copy_from_slice(more);
        self.len = end;
        Ok(())
    }

    // Puts an item before the others. Where the list is full, that puts out the last.
    #[tactic(auto, using(crate::proofs::Gaps::opened))]
    pub fn push_front(&mut self, item: T)
        ensures { self.new.items ≡ take N (item ∷ self.old.items) }
    {
        let kept = self.len.min(N.saturating_sub(1));
        if N > 0 {
            self.items.copy_within(0..kept, 1);
            self.items[0] = item;
            self.len = kept + 1;
        }
    }

    // Takes out the item at this place, from 0, if there is one.
    pub fn remove(&mut self, at: usize)
        ensures { self.new.items ≡ remove self.old.items at }
    {
        if at < self.len {
            self.items.copy_within(at + 1..self.len, at);
            self.len -= 1;
        }
    }
}

impl<T: PartialEq, const N: usize> PartialEq for Short<T, N> {
    ghost eq = { λ x y. pointwise T.eq x.items y.items };

    ghost laws = { on_per (λ x. x.items) (lists_per T.laws) };

    fn eq(&self, other: &Self) -> bool {
        self.as_slice() == other.as_slice()
    }
}

impl<T: Eq, const N: usize> Eq for Short<T, N> {
    ghost laws = { on_equiv (λ x. x.items) (lists_equiv T.Eq.laws) };
}
