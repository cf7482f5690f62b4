// What every register promises.
ghost use Rattle.std.specs.Prelude.{◌≡◌, ℕ, List, [], Option};
ghost use Rattle.register.specs.declared.call.Call.{Call};
ghost use Rattle.register.specs.declared.call.Call.TheVariants.{Find, Enter, Strike, Clear};
ghost use Rattle.register.specs.declared.call.Answer.{Answer};
ghost use Rattle.register.specs.declared.call.Answer.TheVariants.{Number, Verdict, Cleared};
ghost use Rattle.register.specs.Pairs.{Pair};
ghost use Rattle.register.specs.Sets.{Lawful, Found, Entered, Struck};
ghost use Rattle.register.specs.Spelling.{spelling};

use crate::call::EnterRefusal;
use crate::reference::Reference;

// A register means a set of pairs of a reference and the number of its record, no reference twice, and has a fixed capacity.
// Its calls promise what they do to the set where it is in order. Clearing puts it in order from any state; the other calls keep it so.
// No call asks anything of its caller: out of order it ends, and within its memory.
pub trait Register {
    // The pairs, in no order that a user may rely on.
    ghost pairs: { Self → List Pair };

    // How many pairs there may be.
    ghost room: { Self → ℕ };

    // Whether the register is in order.
    ghost ordered: { Self → Type 0 };

    // What this kind of register does beyond the set: from this state, this call has this answer and leaves that state.
    ghost rule: { Self → Call → Answer → Self → Type 0 };

    // What holds of every register in order.
    ghost lawful: { Lawful pairs room ordered };

    // How often the front at this depth has asked below, counted from the top of a pile; none where no front stands there.
    ghost asks: { Self → ℕ → Option ℕ };

    fn capacity(&self) -> usize
        ensures { result ≡ room self.now };

    fn asked_at(&self, depth: usize) -> Option<u64>
        ensures { result ≡ asks self.now depth };

    fn find(&mut self, reference: &Reference) -> Option<usize>
        ensures fixed { room self.new ≡ room self.old }
        ensures keeps { ordered self.old → ordered self.new }
        ensures finds { ordered self.old → Found (pairs self.old) (pairs self.new) (spelling reference.now) result }
        ensures ruled { rule self.old (Find reference.now) (Number result) self.new };

    fn enter(&mut self, reference: Reference, number: usize) -> Result<(), EnterRefusal>
        ensures fixed { room self.new ≡ room self.old }
        ensures keeps { ordered self.old → ordered self.new }
        ensures enters { ordered self.old → Entered (room self.old) (pairs self.old) (pairs self.new) (spelling reference) number result }
        ensures ruled { rule self.old (Enter reference number) (Verdict result) self.new };

    fn strike(&mut self, reference: &Reference) -> Option<usize>
        ensures fixed { room self.new ≡ room self.old }
        ensures keeps { ordered self.old → ordered self.new }
        ensures strikes { ordered self.old → Struck (pairs self.old) (pairs self.new) (spelling reference.now) result }
        ensures ruled { rule self.old (Strike reference.now) (Number result) self.new };

    fn clear(&mut self)
        ensures fixed { room self.new ≡ room self.old }
        ensures keeps { ordered self.new }
        ensures empties { pairs self.new ≡ [] }
        ensures ruled { rule self.old Clear Cleared self.new };
}
