// The refusals of documents 01 and 02, their numbers and their places in the input.
ghost use Rattle.std.specs.Prelude.{◌≡◌};
ghost use Rattle.network.specs.Answers.{refusal_number, refusal_place};

// Refusals 1 to 21, in this order; the field is the place in the input where it is not always 0.
#[derive(Clone, Copy, PartialEq, Eq)]
pub enum Refusal {
    Wish(usize),
    Form(usize),
    RelayCount,
    LinkCount,
    RelayRange(usize),
    NotBelow(usize),
    Repeated(usize),
    TableRoom,
    RouteCount,
    EndRange,
    SameEnds,
    Room,
    NotOneTree,
    SheetForm(usize),
    SheetCount,
    States,
    Withdrawn,
    DrawingForm(usize),
    ReportForm,
    ReportRelays,
    ReportSerials,
}

impl Refusal {
    // Its number, as the documents count them.
    pub fn number(self) -> u16
        ensures { result ≡ refusal_number self }
    {
        match self {
            Refusal::Wish(_) => 1,
            Refusal::Form(_) => 2,
            Refusal::RelayCount => 3,
            Refusal::LinkCount => 4,
            Refusal::RelayRange(_) => 5,
            Refusal::NotBelow(_) => 6,
            Refusal::Repeated(_) => 7,
            Refusal::TableRoom => 8,
            Refusal::RouteCount => 9,
            Refusal::EndRange => 10,
            Refusal::SameEnds => 11,
            Refusal::Room => 12,
            Refusal::NotOneTree => 13,
            Refusal::SheetForm(_) => 14,
            Refusal::SheetCount => 15,
            Refusal::States => 16,
            Refusal::Withdrawn => 17,
            Refusal::DrawingForm(_) => 18,
            Refusal::ReportForm => 19,
            Refusal::ReportRelays => 20,
            Refusal::ReportSerials => 21,
        }
    }

    // Its place in the input.
    pub fn place(self) -> usize
        ensures { result ≡ refusal_place self }
    {
        match self {
            Refusal::Wish(place) => place,
            Refusal::Form(place) => place,
            Refusal::RelayRange(link) => link,
            Refusal::NotBelow(link) => link,
            Refusal::Repeated(link) => link,
            Refusal::SheetForm(place) => place,
            Refusal::DrawingForm(place) => place,
            _ => 0,
        }
    }
}
