// Why a call is refused, and at which records.
ghost use Rattle.std.specs.Prelude.{◌≡◌};
ghost use Rattle.image.specs.Refusals.{number_of, place_of};

// Where a refusal applies: a record, a pair or none, as document 01 names them.
#[derive(Clone, Copy, Debug, PartialEq, Eq)]
pub enum Place {
    None,
    Record(usize),
    Pair { earlier: usize, later: usize },
}

// One case for each number of document 01's table, in its order; document 01 asks for the place inside each case.
#[derive(Clone, Copy, Debug, PartialEq, Eq)]
pub enum Refusal {
    // the library
    Size(Place),
    Edition(Place),
    Wells(Place),
    Metric(Place),
    Count(Place),
    Offsets(Place),
    Length(Place),
    RootNumber(Place),
    Node(Place),
    EqualCodes(Place),
    Level(Place),
    Cover(Place),
    Separation(Place),
    // what is asked
    Plate(Place),
    Neighbours(Place),
    Room(Place),
    // a new strain
    NewProfile(Place),
    NewCode(Place),
    Held(Place),
    Full(Place),
}

impl Refusal {
    // Its number in document 01's table.
    pub fn number(self) -> u8
        ensures { result ≡ number_of self }
    {
        match self {
            Refusal::Size(_) => 1,
            Refusal::Edition(_) => 2,
            Refusal::Wells(_) => 3,
            Refusal::Metric(_) => 4,
            Refusal::Count(_) => 5,
            Refusal::Offsets(_) => 6,
            Refusal::Length(_) => 7,
            Refusal::RootNumber(_) => 8,
            Refusal::Node(_) => 9,
            Refusal::EqualCodes(_) => 10,
            Refusal::Level(_) => 11,
            Refusal::Cover(_) => 12,
            Refusal::Separation(_) => 13,
            Refusal::Plate(_) => 14,
            Refusal::Neighbours(_) => 15,
            Refusal::Room(_) => 16,
            Refusal::NewProfile(_) => 17,
            Refusal::NewCode(_) => 18,
            Refusal::Held(_) => 19,
            Refusal::Full(_) => 20,
        }
    }

    // The place that it tells.
    pub fn place(self) -> Place
        ensures { result ≡ place_of self }
    {
        match self {
            Refusal::Size(place)
            | Refusal::Edition(place)
            | Refusal::Wells(place)
            | Refusal::Metric(place)
            | Refusal::Count(place)
            | Refusal::Offsets(place)
            | Refusal::Length(place)
            | Refusal::RootNumber(place)
            | Refusal::Node(place)
            | Refusal::EqualCodes(place)
            | Refusal::Level(place)
            | Refusal::Cover(place)
            | Refusal::Separation(place)
            | Refusal::Plate(place)
            | Refusal::Neighbours(place)
            | Refusal::Room(place)
            | Refusal::NewProfile(place)
            | Refusal::NewCode(place)
            | Refusal::Held(place)
            | Refusal::Full(place) => place,
        }
    }
}
