// The number of pairs that finds compare. The list counts in the very search by which it finds.
ghost use Rattle.std.specs.Prelude.{◌≡◌, ℕ, Some, Option};
ghost use Rattle.register.specs.Fronts.{recalled};

use register::entry::unused_slot;
use register::front::Front;
use register::interface::Register;
use register::ordered::OrderedList;
use register::reference::Reference;
use std::fmt;

#[derive(Drop)]
pub struct Costs {
    // the most that any find of a reference in the list compares
    pub most: usize,
    // a find of one behind them all
    pub missing: usize,
    // the same find through a front, and again once it is remembered
    pub first: usize,
    pub again: usize,
}

// Its columns of the table.
impl fmt::Display for Costs {
    fn fmt<W: fmt::Write>(&self, f: &mut fmt::Formatter<W>) -> fmt::Result {
        let Costs {
            most,
            missing,
            first,
            again,
        } = self;
        write!(f, "{most:>16}  {missing:>17}  {first:>15}  {again:>5}")
    }
}

// The references R0000 to R9999.
pub fn numbered(i: usize) -> Option<Reference> {
    let digits = [
        b'R',
        b'0' + (i / 1000 % 10) as u8,
        b'0' + (i / 100 % 10) as u8,
        b'0' + (i / 10 % 10) as u8,
        b'0' + (i % 10) as u8,
    ];
    Reference::new(&digits)
}

// Enters the first `size` references, in a scattered order where that is a power of two.
fn fill<R: Register>(register: &mut R, size: usize) {
    for i in 0..size {
        if let Some(reference) = numbered(i.wrapping_mul(7) % size) {
            let _ = register.enter(reference, i);
        }
    }
}

fn most_compared(list: &OrderedList<'_>, size: usize) -> usize {
    (0..size)
        .filter_map(numbered)
        .map(|reference| list.comparisons(&reference))
        .max()
        .unwrap_or(0)
}

// How many pairs of the list are compared in a find through its front: none if that is answered from memory.
fn cost(front: &mut Front<OrderedList<'_>>, reference: &Reference) -> usize
    ensures { (n : Option ℕ) → recalled front.old reference.now ≡ Some n → result ≡ 0 }
{
    let asked = front.asked();
    let compared = front.below().comparisons(reference);
    let _ = front.find(reference);
    if front.asked() == asked { 0 } else { compared }
}

pub fn count_list(size: usize) -> Option<Costs> {
    let mut slots = [unused_slot(); 1024];
    let size = size.min(1024);
    let mut list = OrderedList::new(&mut slots[0..size]);
    fill(&mut list, size);
    let most = most_compared(&list, size);
    let last = numbered(9999)?;
    let missing = list.comparisons(&last);
    let mut front = Front::new(list);
    let first = cost(&mut front, &last);
    let again = cost(&mut front, &last);
    Some(Costs {
        most,
        missing,
        first,
        again,
    })
}
