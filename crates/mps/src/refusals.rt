// Why a call is refused: document 01's table of refusals, and what document 02 adds to it. A call answers a `Result` with one of
// these; C gets the number.
ghost use Rattle.std.specs.Prelude.{◌≡◌};
ghost use Rattle.mps.specs.Reasons.{number_of_refusal};
ghost use Rattle.mps.specs.declared.refusals.EditRefusal.TheVariants.{Refused};

// In the order of the numbers, 1 to 30 without 23, which an edit alone gives.
#[derive(Clone, Copy, Debug, PartialEq, Eq)]
pub enum Refusal {
    BadDump, // 1
    NoPointer, // 2
    PointerRevision, // 3
    FeatureByte, // 4
    HeaderCut, // 5
    Signature, // 6
    BaseLength, // 7
    BaseSum, // 8
    Revision, // 9
    EntryType, // 10
    EntryCut, // 11
    EntryOrder, // 12
    ExtendedPart, // 13
    Processors, // 14
    Buses, // 15
    IoApics, // 16
    Interrupts, // 17
    Spaces, // 18
    RoomTooSmall, // 19
    NoEntry, // 20
    OtherEntry, // 21
    Changed, // 22
    Query, // 24
    Slot, // 25
    NumbersUsedUp, // 26
    BadBook, // 27
    NotLatest, // 28
    BookFull, // 29
    NoDefault, // 30
}

impl Refusal {
    pub fn number(self) -> u8
        ensures { result ≡ number_of_refusal self }
    {
        match self {
            Refusal::BadDump => 1,
            Refusal::NoPointer => 2,
            Refusal::PointerRevision => 3,
            Refusal::FeatureByte => 4,
            Refusal::HeaderCut => 5,
            Refusal::Signature => 6,
            Refusal::BaseLength => 7,
            Refusal::BaseSum => 8,
            Refusal::Revision => 9,
            Refusal::EntryType => 10,
            Refusal::EntryCut => 11,
            Refusal::EntryOrder => 12,
            Refusal::ExtendedPart => 13,
            Refusal::Processors => 14,
            Refusal::Buses => 15,
            Refusal::IoApics => 16,
            Refusal::Interrupts => 17,
            Refusal::Spaces => 18,
            Refusal::RoomTooSmall => 19,
            Refusal::NoEntry => 20,
            Refusal::OtherEntry => 21,
            Refusal::Changed => 22,
            Refusal::Query => 24,
            Refusal::Slot => 25,
            Refusal::NumbersUsedUp => 26,
            Refusal::BadBook => 27,
            Refusal::NotLatest => 28,
            Refusal::BookFull => 29,
            Refusal::NoDefault => 30,
        }
    }
}

// Why an edit is refused: "A refusal returns its number alone, except 23", with which the number goes that the edited table
// would be refused with.
#[derive(Clone, Copy, Debug, PartialEq, Eq)]
pub enum EditRefusal {
    Refused(Refusal),
    Inner(Refusal),
}

impl From<Refusal> for EditRefusal {
    ghost from_gives = { λ r e. e ≡ Refused r };

    fn from(refusal: Refusal) -> EditRefusal {
        EditRefusal::Refused(refusal)
    }
}
