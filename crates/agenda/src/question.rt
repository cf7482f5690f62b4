// The questions of an agenda.
ghost use Rattle.std.specs.Prelude.{◌≡◌};
ghost use Rattle.agenda.specs.Questions.{is_fit, fit_kind, has_cell_in, last_cell};

use format::votes::VoteKind;

// The most questions of an agenda, and the most candidates of a question.
pub const MOST_QUESTIONS: usize = 32;

pub const MOST_CANDIDATES: u8 = 16;

// A question: its number, whether it is ordinary or cumulative, how often each share counts, and how many candidates stand, from number 1.
#[derive(Clone, Copy)]
pub struct Question {
    pub number: u8,
    pub kind: VoteKind,
    pub multiplier: u8,
    pub candidates: u8,
}

impl Question {
    // May an agenda have it? Its number is 1 to 32, and the rest fits its kind.
    pub fn is_fit(self) -> bool
        ensures { result ≡ is_fit self }
    {
        (1..=MOST_QUESTIONS).contains(&usize::from(self.number)) && self.fits_kind()
    }

    // An ordinary question has multiplier 1 and no candidates, a cumulative one multiplier 1 to 99 and 1 to 16 candidates.
    fn fits_kind(self) -> bool
        ensures { result ≡ fit_kind self.kind self.multiplier self.candidates }
    {
        match self.kind {
            VoteKind::Ordinary => self.multiplier == 1 && self.candidates == 0,
            VoteKind::Cumulative => {
                (1..=99).contains(&self.multiplier)
                    && (1..=MOST_CANDIDATES).contains(&self.candidates)
            }
        }
    }

    // The last cell: an ordinary question has cell 1 for yes, 2 for no and 3 for an abstention; a cumulative one a cell for each candidate.
    fn last_cell(self) -> u8
        ensures { result ≡ last_cell self.kind self.candidates }
    {
        match self.kind {
            VoteKind::Ordinary => 3,
            VoteKind::Cumulative => self.candidates,
        }
    }

    // Has it the cell?
    pub fn has_cell(self, cell: u8) -> bool
        ensures { result ≡ has_cell_in self cell }
    {
        (1..=self.last_cell()).contains(&cell)
    }
}
