// Why a call is turned down; what the calls answer otherwise are results over this.
#![tactic(auto)]

ghost use Rattle.std.specs.Prelude.{◌≡◌};
ghost use Rattle.call_replies.specs.Replies.{number_of};

use std::error::Error;
use std::fmt;

// Why a call was turned down, by the documents' numbers.
#[derive(Clone, Copy, Debug, PartialEq, Eq)]
pub enum Refusal {
    // The number of words is no table's.
    WrongLength = 1,
    // The order is outside 3 to 255.
    WrongOrder = 2,
    // The key is zero.
    ZeroKey = 3,
    // Low is above high.
    LowAboveHigh = 4,
    // The keys of a list or of a batch do not rise strictly, or one is zero.
    NotRising = 5,
    // The bytes are no image that the writer makes.
    NotAnImage = 6,
    // The table is not sound.
    NotSound = 7,
    // The key to insert is held.
    KeyHeld = 8,
    // The key to delete is absent.
    KeyAbsent = 9,
    // There would be more keys than slots.
    TooManyKeys = 10,
    // The output is longer than the room for it.
    OutputTooShort = 11,
    // A measure is outside the rules, is missing or is left over.
    WrongMeasure = 12,
}

impl Refusal {
    // The number of a refusal, 1 to 12.
    pub fn number(self) -> u64
        ensures { result ≡ number_of self }
    {
        self as u64
    }
}

impl fmt::Display for Refusal {
    fn fmt<W: fmt::Write>(&self, f: &mut fmt::Formatter<W>) -> fmt::Result {
        let text = match self {
            Refusal::WrongLength => "the number of words is no table's",
            Refusal::WrongOrder => "the order is outside 3 to 255",
            Refusal::ZeroKey => "the key is zero",
            Refusal::LowAboveHigh => "low is above high",
            Refusal::NotRising => "the keys do not rise strictly, or one is zero",
            Refusal::NotAnImage => "the bytes are no image",
            Refusal::NotSound => "the table is not sound",
            Refusal::KeyHeld => "the key is held",
            Refusal::KeyAbsent => "the key is absent",
            Refusal::TooManyKeys => "there would be more keys than slots",
            Refusal::OutputTooShort => "the output is too short",
            Refusal::WrongMeasure => "a measure is outside the rules, is missing or is left over",
        };
        write!(f, "{text}")
    }
}

impl Error for Refusal {}
