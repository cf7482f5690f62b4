// The votes of an instruction, kept by value.
use message::instruction::MOST_VOTES;
use short::short::Short;
use tally::vote::Vote;

pub type Votes = Short<Vote, MOST_VOTES>;
