// What is found standing.
ghost use Rattle.std.specs.Prelude.{◌≡◌, length};
ghost use Rattle.std.specs.Option.{option_map};
ghost use Rattle.register.specs.Spelling.{spelling};
ghost use Rattle.book.specs.Book.{instruction_of, instructions, meanings};
ghost use Rattle.book.specs.Findings.{finding as finding_of, Tells};
ghost use Rattle.book.specs.Desk.{Led};

use crate::moves::{count_standing, look_up, standing_in};
use crate::record::{Record, Standing, State};
use register::interface::Register;
use register::reference::Reference;

// What a state question answers of a standing instruction: lodged or accepted, whether cancellation is asked, and the holding.
#[derive(Clone, Copy, PartialEq, Eq, Debug)]
pub struct Finding {
    pub state: State,
    pub holding: u64,
}

fn tell(standing: Option<&Standing>) -> Option<Finding>
    ensures { result ≡ option_map (λ x. finding_of (instruction_of x.now)) standing.entry }
{
    standing.map(|standing| Finding {
        state: standing.state,
        holding: standing.lodging.holding,
    })
}

// What stands under a reference, if anything. A text that is no reference finds nothing.
pub fn find<R: Register>(register: &mut R, records: &[Record], text: &[u8]) -> Option<Finding>
    ensures led { Led R.Register register.old register.new }
    ensures tells { R.Register.ordered register.old → Tells R.Register register.old records.now text.now result register.new }
{
    let reference = Reference::new(text)?;
    let number = look_up(register, &reference);
    tell(standing_in(records, number))
}

// How many instructions stand.
pub fn count(records: &[Record]) -> usize
    ensures { result ≡ length (instructions (meanings records.now)) }
{
    count_standing(records)
}
