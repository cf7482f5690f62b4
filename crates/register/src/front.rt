// A front: a register over any register, which remembers what it last learnt.
ghost use Rattle.std.specs.Prelude.{◌≡◌, [], None};
ghost use Rattle.register.specs.declared.call.Call.TheVariants.{Enter, Strike};
ghost use Rattle.register.specs.declared.call.Answer.TheVariants.{Number, Verdict};
ghost use Rattle.register.specs.Fronts.{remembered, recalled, InStep, Finding, FrontRule, asks_through};
ghost use Rattle.register.specs.Sets.{Found, Entered, Struck};
ghost use Rattle.register.specs.Spelling.{spelling};

use crate::call::EnterRefusal;
use crate::interface::Register;
use crate::memory::Memory;
use crate::reference::Reference;

// It means the set of the register below. It answers a find from memory if it can, and counts those for which it asked below.
#[derive(Drop)]
pub struct Front<R> {
    below: R,
    memory: Memory,
    count: u64,
}

impl<R> Front<R> {
    pub fn new(below: R) -> Front<R>
        ensures below { result.below ≡ below }
        ensures memory { remembered result.memory ≡ [] }
        ensures count { result.count ≡ 0 }
    {
        Front {
            below,
            memory: Memory::new(),
            count: 0,
        }
    }

    // How many finds have asked below since the front was made or cleared.
    pub fn asked(&self) -> u64
        ensures { result ≡ self.now.count }
    {
        self.count
    }

    // What the front remembers of `reference`, if anything: its number, or that it has none.
    pub fn remembers(&self, reference: &Reference) -> Option<Option<usize>>
        ensures { result ≡ recalled self.now reference.now }
    {
        self.memory.recall(reference)
    }

    // The register below.
    pub fn below(&self) -> &R
        ensures { result.now ≡ self.now.below }
    {
        &self.below
    }
}

// The front's own rule, whatever stands below, and what the register below then promises.
impl<R: Register> Front<R> {
    fn recall_or_ask(&mut self, reference: &Reference) -> Option<usize>
        ensures ruled { Finding R.Register.rule self.old reference.now (Number result) self.new }
        ensures fixed { R.Register.room self.new.below ≡ R.Register.room self.old.below }
        ensures keeps { R.Register.ordered self.old.below → R.Register.ordered self.new.below }
        ensures finds { recalled self.old reference.now ≡ None → R.Register.ordered self.old.below → Found (R.Register.pairs self.old.below) (R.Register.pairs self.new.below) (spelling reference.now) result }
    {
        if let Some(answer) = self.remembers(reference) {
            return answer;
        }
        let answer = self.below.find(reference);
        self.count = self.count.saturating_add(1);
        self.memory.learn(*reference, answer);
        answer
    }

    fn enter_and_learn(&mut self, reference: Reference, number: usize) -> Result<(), EnterRefusal>
        ensures ruled { FrontRule R.Register.rule self.old (Enter reference number) (Verdict result) self.new }
        ensures fixed { R.Register.room self.new.below ≡ R.Register.room self.old.below }
        ensures keeps { R.Register.ordered self.old.below → R.Register.ordered self.new.below }
        ensures enters { R.Register.ordered self.old.below → Entered (R.Register.room self.old.below) (R.Register.pairs self.old.below) (R.Register.pairs self.new.below) (spelling reference) number result }
    {
        let answer = self.below.enter(reference, number);
        if answer.is_ok() {
            self.memory.learn(reference, Some(number));
        }
        answer
    }

    fn strike_and_forget(&mut self, reference: &Reference) -> Option<usize>
        ensures ruled { FrontRule R.Register.rule self.old (Strike reference.now) (Number result) self.new }
        ensures fixed { R.Register.room self.new.below ≡ R.Register.room self.old.below }
        ensures keeps { R.Register.ordered self.old.below → R.Register.ordered self.new.below }
        ensures strikes { R.Register.ordered self.old.below → Struck (R.Register.pairs self.old.below) (R.Register.pairs self.new.below) (spelling reference.now) result }
    {
        let answer = self.below.strike(reference);
        self.memory.forget(reference);
        answer
    }
}

impl<R: Register> Register for Front<R> {
    ghost pairs = { λ s. R.Register.pairs s.below };

    ghost room = { λ s. R.Register.room s.below };

    ghost ordered = { λ s. InStep R.Register.pairs R.Register.ordered s };

    ghost rule = { λ s c a t. FrontRule R.Register.rule s c a t };

    ghost lawful = { record { apart = λ s o. R.Register.lawful.apart s.below o.0; within = λ s o. R.Register.lawful.within s.below o.0; bounded = λ s. R.Register.lawful.bounded s.below } };

    ghost asks = { asks_through R.Register.asks };

    fn capacity(&self) -> usize {
        self.below.capacity()
    }

    fn asked_at(&self, depth: usize) -> Option<u64> {
        if depth == 0 {
            Some(self.asked())
        } else {
            self.below.asked_at(depth - 1)
        }
    }

    fn find(&mut self, reference: &Reference) -> Option<usize> {
        self.recall_or_ask(reference)
    }

    fn enter(&mut self, reference: Reference, number: usize) -> Result<(), EnterRefusal> {
        self.enter_and_learn(reference, number)
    }

    fn strike(&mut self, reference: &Reference) -> Option<usize> {
        self.strike_and_forget(reference)
    }

    fn clear(&mut self) {
        self.below.clear();
        self.memory.clear();
        self.count = 0;
    }
}
