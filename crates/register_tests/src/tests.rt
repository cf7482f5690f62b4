use crate::counting::numbered;
use register::arrival::ArrivalList;
use register::call::{Answer, Call, EnterRefusal};
use register::entry::unused_slot;
use register::front::Front;
use register::interface::Register;
use register::ordered::OrderedList;
use register::reference::Reference;
use register::run::carry_out;
use std::ops::Range;
use std::process::Abort;
use std::test::Fail;

fn reference(text: &[u8]) -> Result<Reference, Fail> {
    Reference::new(text).ok_or_else(|| Fail::new("no reference"))
}

#[test]
fn references(rt: HostRuntime) -> Result<(), Fail> {
    assert!(rt; Reference::new(b"").is_none());
    assert!(rt; Reference::new(b"A*").is_none());
    assert!(rt; Reference::new(b"12345678901234567").is_none());
    assert!(rt; reference(b" /-?:().,'+aZ019")?.as_bytes().len() == 16);
    assert!(rt; reference(b"A")? < reference(b"A1")?);
    Ok(())
}

// Puts one script to a register with room for two, and compares every answer.
fn scripted<R: Register>(rt: &impl Abort, register: &mut R) -> Result<(), Fail> {
    let a = reference(b"A1")?;
    let b = reference(b"B1")?;
    let c = reference(b"A")?;
    let script = [
        (Call::Find(a), Answer::Number(None)),
        (Call::Enter(b, 7), Answer::Verdict(Ok(()))),
        (Call::Enter(a, 8), Answer::Verdict(Ok(()))),
        (
            Call::Enter(a, 9),
            Answer::Verdict(Err(EnterRefusal::AlreadyThere)),
        ),
        (Call::Enter(c, 9), Answer::Verdict(Err(EnterRefusal::Full))),
        (Call::Find(a), Answer::Number(Some(8))),
        (Call::Find(c), Answer::Number(None)),
        (Call::Strike(b), Answer::Number(Some(7))),
        (Call::Find(b), Answer::Number(None)),
        (Call::Enter(c, 9), Answer::Verdict(Ok(()))),
        (Call::Find(c), Answer::Number(Some(9))),
    ];
    for (call, expected) in script {
        let mut answers = [Answer::Cleared];
        let _ = carry_out(register, &[call], &mut answers);
        assert_eq!(rt; answers[0], expected);
    }
    Ok(())
}

// The script through two fronts: each asks below for A1 and A while they are unknown, and for B1 once it is struck.
fn piled<R: Register + Drop>(rt: &impl Abort, below: R) -> Result<(), Fail> {
    let mut pile = Front::new(Front::new(below));
    scripted(rt, &mut pile)?;
    assert!(rt; pile.asked() == 3);
    assert!(rt; pile.below().asked() == 3);
    assert_eq!(rt; pile.asked_at(0), Some(3));
    assert_eq!(rt; pile.asked_at(1), Some(3));
    assert_eq!(rt; pile.asked_at(2), None);
    Ok(())
}

#[test]
fn in_order_of_arrival(rt: HostRuntime) -> Result<(), Fail> {
    let mut slots = [unused_slot(); 2];
    let mut list = ArrivalList::new(&mut slots);
    scripted(&rt, &mut list)
}

#[test]
fn behind_two_fronts(rt: HostRuntime) -> Result<(), Fail> {
    let mut slots = [unused_slot(); 2];
    piled(&rt, OrderedList::new(&mut slots))
}

// How many of the references with these numbers a front remembers.
fn remembered<R>(front: &Front<R>, numbers: Range<usize>) -> usize {
    numbers
        .filter_map(numbered)
        .filter(|reference| front.remembers(reference).is_some())
        .count()
}

#[test]
fn a_seventeenth_puts_out_the_oldest(rt: HostRuntime) {
    let mut slots = [unused_slot(); 0];
    let mut front = Front::new(OrderedList::new(&mut slots));
    for reference in (0..17).filter_map(numbered) {
        let _ = front.find(&reference);
    }
    assert!(rt; front.asked() == 17);
    assert!(rt; remembered(&front, 0..1) == 0);
    assert!(rt; remembered(&front, 1..17) == 16);
}
