// Carrying out lists of calls: any register answers them as the plain set of its pairs would, and so does a front.
ghost use Rattle.std.specs.Prelude.{◌≡◌, min, length};
ghost use Rattle.register.specs.Fronts.{InStep, FrontRule, through_front};
ghost use Rattle.register.specs.Runs.{Answered, Carried};
ghost use Rattle.register.specs.Transparent.{FrontTransparent};

use crate::call::{Answer, Call};
use crate::front::Front;
use crate::interface::Register;

// Puts one call to the register.
pub fn answer<R: Register>(register: &mut R, call: Call) -> Answer
    ensures { Answered R.Register.pairs R.Register.room R.Register.ordered R.Register.rule register.old call result register.new }
{
    match call {
        Call::Find(reference) => Answer::Number(register.find(&reference)),
        Call::Enter(reference, number) => Answer::Verdict(register.enter(reference, number)),
        Call::Strike(reference) => Answer::Number(register.strike(&reference)),
        Call::Clear => {
            register.clear();
            Answer::Cleared
        }
    }
}

// How many of the calls have a place for their answer.
fn answerable(calls: &[Call], answers: &[Answer]) -> usize
    ensures { result ≡ min (length calls.now) (length answers.now) }
{
    calls.len().min(answers.len())
}

// Puts the calls to the register in turn, as many as have a place for their answer, and says how many those were.
pub fn carry_out<R: Register>(register: &mut R, calls: &[Call], answers: &mut [Answer]) -> usize
    ensures { Carried R.Register.pairs R.Register.room R.Register.ordered R.Register.rule register.old calls.now answers.old result answers.new register.new }
{
    let count = answerable(calls, answers);
    // Stays an index: over `calls.iter().zip(answers.iter_mut())` nothing is known after the loop of what it wrote.
    for i in 0..count {
        answers[i] = answer(register, calls[i]);
    }
    count
}

// Puts the calls to one register and then to another.
fn carry_out_both<R: Register, Q: Register>(
    one: &mut R,
    other: &mut Q,
    calls: &[Call],
    ones: &mut [Answer],
    others: &mut [Answer],
) -> (usize, usize)
    ensures one { Carried R.Register.pairs R.Register.room R.Register.ordered R.Register.rule one.old calls.now ones.old result.0 ones.new one.new }
    ensures other { Carried Q.Register.pairs Q.Register.room Q.Register.ordered Q.Register.rule other.old calls.now others.old result.1 others.new other.new }
{
    let first = carry_out(one, calls, ones);
    let second = carry_out(other, calls, others);
    (first, second)
}

// Puts the calls to a front and, beside it, to a register such as stands below it.
pub fn carry_out_beside<R: Register>(
    front: &mut Front<R>,
    bare: &mut R,
    calls: &[Call],
    front_answers: &mut [Answer],
    bare_answers: &mut [Answer],
) -> (usize, usize)
    ensures front { Carried (through_front R.Register.pairs) (through_front R.Register.room) (InStep R.Register.pairs R.Register.ordered) (FrontRule R.Register.rule) front.old calls.now front_answers.old result.0 front_answers.new front.new }
    ensures bare { Carried R.Register.pairs R.Register.room R.Register.ordered R.Register.rule bare.old calls.now bare_answers.old result.1 bare_answers.new bare.new }
    ensures transparent { FrontTransparent R.Register.pairs R.Register.room R.Register.ordered front.old bare.old front_answers.old front_answers.new bare_answers.old bare_answers.new }
{
    carry_out_both(front, bare, calls, front_answers, bare_answers)
}
