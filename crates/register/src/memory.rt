// The sixteen references last learnt, each with its number or none.
ghost use Rattle.std.specs.Prelude.{◌≡◌, T, []};
ghost use Rattle.register.specs.Pairs.{look, forgotten};
ghost use Rattle.register.specs.Places.{Placed};
ghost use Rattle.register.specs.Memos.{learnt, single};
ghost use Rattle.register.specs.Spelling.{spelling};

use crate::entry::{Entry, Memo};
use crate::reference::Reference;
use crate::row::{look_in, place_in};
use short::short::Short;

#[derive(Drop)]
pub struct Memory {
    memos: Short<Memo, 16>,
    ghost once: { T (single memos.items) },
}

impl Memory {
    pub fn new() -> Memory
        ensures { result.memos.items ≡ [] }
    {
        let memo = Entry {
            reference: Reference::zero(),
            value: None,
        };
        Memory {
            memos: Short::new(memo),
        }
    }

    // What is remembered of `reference`, if anything.
    pub fn recall(&self, reference: &Reference) -> Option<Option<usize>>
        ensures { result ≡ look self.now.memos.items (spelling reference.now) }
    {
        look_in(self.memos.as_slice(), reference)
    }

    fn place(&self, reference: &Reference) -> Option<usize>
        ensures { Placed self.now.memos.items (spelling reference.now) result }
    {
        place_in(self.memos.as_slice(), reference)
    }

    pub fn forget(&mut self, reference: &Reference)
        ensures { self.new.memos.items ≡ forgotten self.old.memos.items (spelling reference.now) }
    {
        if let Some(i) = self.place(reference) {
            self.memos.remove(i);
        }
    }

    // A seventeenth puts out the oldest.
    pub fn learn(&mut self, reference: Reference, answer: Option<usize>)
        ensures { self.new.memos.items ≡ learnt self.old.memos.items reference answer }
    {
        self.forget(&reference);
        self.memos.push_front(Entry {
            reference,
            value: answer,
        });
    }

    pub fn clear(&mut self)
        ensures { self.new.memos.items ≡ [] }
    {
        self.memos.clear();
    }
}
