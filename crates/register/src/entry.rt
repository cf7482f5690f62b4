// A reference beside a value.
ghost use Rattle.std.specs.Prelude.{◌≡◌, [], ◌∷◌};
ghost use Rattle.register.specs.Spelling.{spelling};

use crate::reference::Reference;

// The value is the number of a record, or what is remembered of the reference.
#[derive(Clone, Copy)]
pub struct Entry<V> {
    pub reference: Reference,
    pub value: V,
}

// A reference beside the number of its record.
pub type Pair = Entry<usize>;

// A reference beside what a register answered for it: a number, or none.
pub type Memo = Entry<Option<usize>>;

// A slot that holds no pair yet: what it says is of no account.
pub fn unused_slot() -> Pair
    ensures { (spelling result.reference ≡ 48 ∷ []) × (result.value ≡ 0) }
{
    Entry {
        reference: Reference::zero(),
        value: 0,
    }
}
