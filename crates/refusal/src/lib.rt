// Refusals: why a call did not answer.
//
// Document 01 numbers them. Every function of the library that can refuse answers a `Result` with one of
// these.
#![tactic(auto)]

ghost use Rattle.std.specs.Prelude.{◌≡◌, Some};
ghost use Rattle.refusal.specs.Numbers.{Numbers};
ghost use Rattle.refusal.specs.Sentences.{sentence};

use std::error::Error;
use std::fmt;

#[derive(Clone, Copy, Debug, PartialEq, Eq, Hash)]
pub enum Refusal {
    // a table, list or log ends before a field that is due, or the log reader's place or end is out
    // of rule
    Short = 1,
    // the node count is 0 or above 256
    NodeCount = 2,
    // a parent is not smaller than its child
    Parent = 3,
    // a filling bit is set, or bytes are left over
    LeftOver = 4,
    // the count of a list is above 4,096
    ListCount = 5,
    // the session is unsound, or the tree is out of rule
    Unsound = 6,
    // the node is not in the tree
    NoNode = 7,
    // 1,048,576 requests are already accepted
    Limit = 8,
    // a place past the usable log, too little room in it, or an output that is too short
    NoRoom = 9,
    // fewer answer places than combines in the list
    FewAnswers = 10,
    // a value does not fit its bits
    Misfit = 11,
}

// The refusal's number.
impl From<Refusal> for u8 {
    ghost from_gives = { Numbers };

    fn from(refusal: Refusal) -> u8 {
        refusal as u8
    }
}

// The refusal in words.
impl fmt::Display for Refusal {
    ghost output = { λ r. Some (sentence r) };

    fn fmt<W: fmt::Write>(&self, f: &mut fmt::Formatter<W>) -> fmt::Result {
        f.write_str(match self {
            Refusal::Short => "the bytes end before a field that is due",
            Refusal::NodeCount => "the node count is 0 or above 256",
            Refusal::Parent => "a parent is not smaller than its child",
            Refusal::LeftOver => "a filling bit is set, or bytes are left over",
            Refusal::ListCount => "the count of a list is above 4,096",
            Refusal::Unsound => "the session is unsound",
            Refusal::NoNode => "the node is not in the tree",
            Refusal::Limit => "1,048,576 requests are already accepted",
            Refusal::NoRoom => "there is too little room",
            Refusal::FewAnswers => "there are fewer answer places than combines",
            Refusal::Misfit => "a value does not fit its bits",
        })
    }
}

impl Error for Refusal {}
