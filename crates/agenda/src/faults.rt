// Why a draft or a figure is refused.
ghost use Rattle.std.specs.Prelude.{◌≡◌};
ghost use Rattle.agenda.specs.Faults.{number_of};

#[derive(Clone, Copy, PartialEq, Eq, Debug)]
pub enum AgendaFault {
    // The event is not 1 to 16 characters of set x, or the ISIN not twelve capital letters or digits.
    Name,
    // The question is none that an agenda can have.
    Question,
    // The agenda has a question of this number.
    Repeated,
    // The question or the cell is not on the agenda.
    Cell,
}

impl AgendaFault {
    // The number of the question that is answered no. None of them has a place.
    // Stays a number: the rules name each question by it, and it is what a caller is told.
    pub fn number(self) -> u8
        ensures { result ≡ number_of self }
    {
        match self {
            AgendaFault::Name => 21,
            AgendaFault::Question => 22,
            AgendaFault::Repeated => 23,
            AgendaFault::Cell => 24,
        }
    }
}
