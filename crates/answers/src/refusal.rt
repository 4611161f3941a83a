// Why a call declines: a case for each row of document 01's table, and of those that document 02 adds, in the order of their numbers.
ghost use Rattle.std.specs.Prelude.{◌≡◌};
ghost use Rattle.answers.specs.Means.{number};

// NoCall is a row of neither. The names are those of include/pmap.h, which has none for Text. Only a crossing carries numbers: the
// pair of borders that alternates, the smaller first.
#[derive(Clone, Copy, Debug, PartialEq, Eq)]
pub enum Refusal {
    Lists,
    Room,
    Range,
    Repeated,
    Apart,
    ManyMarks,
    Crossing(usize, usize),
    Header,
    Length,
    UnusedBit,
    Ones,
    Brackets,
    NoPlace,
    NoPoint,
    NoArea,
    ShortLists,
    Text,
    Tariff,
    NoFactor,
    Areas,
    Pieces,
    NoCall,
}

// The number that a call returns, which C and the line `refused` have.
impl From<Refusal> for u8 {
    ghost from_gives = { λ e k. k ≡ number e };

    fn from(e: Refusal) -> u8 {
        match e {
            Refusal::Lists => 1,
            Refusal::Room => 2,
            Refusal::Range => 3,
            Refusal::Repeated => 4,
            Refusal::Apart => 5,
            Refusal::ManyMarks => 6,
            Refusal::Crossing(_, _) => 7,
            Refusal::Header => 8,
            Refusal::Length => 9,
            Refusal::UnusedBit => 10,
            Refusal::Ones => 11,
            Refusal::Brackets => 12,
            Refusal::NoPlace => 13,
            Refusal::NoPoint => 14,
            Refusal::NoArea => 15,
            Refusal::ShortLists => 16,
            Refusal::Text => 17,
            Refusal::Tariff => 18,
            Refusal::NoFactor => 19,
            Refusal::Areas => 20,
            Refusal::Pieces => 21,
            Refusal::NoCall => 255,
        }
    }
}
