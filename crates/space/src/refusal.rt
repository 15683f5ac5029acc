// What an entry refuses: a name for each number of document 01's table.
ghost use Rattle.std.specs.Prelude.{◌≡◌};
ghost use Rattle.space.specs.Told.{number};

#[derive(Clone, Copy, Debug, PartialEq, Eq, Hash)]
pub enum Refusal {
    Points = 1,
    Coordinates = 2,
    Vectors = 3,
    Table = 4,
    Query = 5,
    Id = 6,
    Width = 7,
    Count = 8,
    Threshold = 9,
    Room = 10,
    ValueWidth = 11,
    Asks = 12,
    Misfit = 13,
    Output = 14,
    Short = 15,
    Long = 16,
    AskNumber = 17,
    Moves = 18,
}

impl From<Refusal> for u8 {
    ghost from_gives = { λ refusal code. code ≡ number refusal };

    fn from(refusal: Refusal) -> u8 {
        refusal as u8
    }
}
