// The commands of a day file.
use agenda::question::Question;
use conduct::call::Question as Inquiry;

#[derive(Clone, Copy)]
pub enum Command<'a> {
    // Show the text in a file. Any line may do that.
    Show(View, &'a str),
    // Prepare a meeting, up to its opening.
    Prepare(Preparation<'a>),
    // Proceed with the open meeting.
    Proceed(Proceeding<'a>),
}

// What to show of a text.
#[derive(Clone, Copy)]
pub enum View {
    // Its fields.
    Fields,
    // The field table of so many entries into which it is read as the message of this number.
    Table(u16, usize),
    // What becomes of it when it is read as the message of this number, and written again into so many bytes.
    Filing(u16, usize),
}

#[derive(Clone, Copy)]
pub enum Preparation<'a> {
    // Name a new draft by its event and its ISIN.
    Draft(&'a str, &'a str),
    // Add a question to the draft.
    Question(Question),
    // Open the meeting.
    Open(Setup),
}

#[derive(Clone, Copy)]
pub enum Proceeding<'a> {
    // Take the text in this file as the message of this number.
    Take(u16, &'a str),
    Ask(Inquiry<'a>),
    Close,
    // Print the whole count.
    Minute,
}

// What a meeting is opened on: a list of so many slots under a pile of fronts, so many records, and a field table of so many entries.
#[derive(Clone, Copy)]
pub struct Setup {
    pub list: List,
    pub capacity: usize,
    pub fronts: Fronts,
    pub records: usize,
    pub entries: usize,
}

#[derive(Clone, Copy)]
pub enum List {
    Arrival,
    Ordered,
}

#[derive(Clone, Copy)]
pub enum Fronts {
    Zero,
    One,
    Two,
}

impl From<Fronts> for usize {
    fn from(fronts: Fronts) -> usize {
        match fronts {
            Fronts::Zero => 0,
            Fronts::One => 1,
            Fronts::Two => 2,
        }
    }
}

// More fronts than a pile has here.
#[derive(Clone, Copy)]
pub struct TooManyFronts;

impl TryFrom<usize> for Fronts {
    type Error = TooManyFronts;

    fn try_from(count: usize) -> Result<Fronts, TooManyFronts> {
        match count {
            0 => Ok(Fronts::Zero),
            1 => Ok(Fronts::One),
            2 => Ok(Fronts::Two),
            _ => Err(TooManyFronts),
        }
    }
}
