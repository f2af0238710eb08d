// The answers of 01's table, with which every public call of the library answers. One that can refuse gives a `Result` whose error is a `Refusal`; its
// number in the table, with 0 for a call that went through, is what the programs print. No other crate has refusals of the table.
// A refusal leaves all lent memory as it was, and what was given by value is the caller's still.
#![tactic(auto)]

ghost use Rattle.std.specs.Prelude.{◌≡◌, Some};
ghost use Rattle.answers.specs.Answers.{number, name};

use std::error::Error;
use std::fmt;

// Why a call was refused, in the order of the table.
#[derive(Clone, Copy, Debug, PartialEq, Eq)]
pub enum Refusal {
    // The input ends inside a field.
    Short,
    // A number or a setting is outside its limit, or a list, table or record is not well formed.
    Range,
    // The frame breaks a rule of RFC 9000.
    Malformed,
    // The frame's type is not handled.
    Kind,
    // There is no free place in the list or table.
    Full,
    // The event is impossible in the present state.
    Order,
    // A byte limit is passed.
    Flow,
    // A final size is contradicted.
    Final,
    // A count of streams or connection ids is passed.
    Limit,
    // Nothing can be received on this stream id.
    State,
    // The output buffer is too small.
    Room,
    // The connection id is retired already.
    Retired,
}

// The number of a refusal in the table.
impl From<Refusal> for u8 {
    ghost from_gives = { λ why n. n ≡ number why };

    fn from(why: Refusal) -> u8 {
        match why {
            Refusal::Short => SHORT,
            Refusal::Range => RANGE,
            Refusal::Malformed => MALFORMED,
            Refusal::Kind => KIND,
            Refusal::Full => FULL,
            Refusal::Order => ORDER,
            Refusal::Flow => FLOW,
            Refusal::Final => FINAL,
            Refusal::Limit => LIMIT,
            Refusal::State => STATE,
            Refusal::Room => ROOM,
            Refusal::Retired => RETIRED,
        }
    }
}

// Its name in the table.
impl fmt::Display for Refusal {
    ghost output = { λ why. Some (name why) };

    fn fmt<W: fmt::Write>(&self, f: &mut fmt::Formatter<W>) -> fmt::Result {
        f.write_str(match self {
            Refusal::Short => "SHORT",
            Refusal::Range => "RANGE",
            Refusal::Malformed => "MALFORMED",
            Refusal::Kind => "KIND",
            Refusal::Full => "FULL",
            Refusal::Order => "ORDER",
            Refusal::Flow => "FLOW",
            Refusal::Final => "FINAL",
            Refusal::Limit => "LIMIT",
            Refusal::State => "STATE",
            Refusal::Room => "ROOM",
            Refusal::Retired => "RETIRED",
        })
    }
}

impl Error for Refusal {}

// The numbers of the table: what the programs print (docs/EVENTS.md), and what `said` takes for an answer.

// Done.
pub const OK: u8 = 0;

// The input ends inside a field.
pub const SHORT: u8 = 1;

// A number or a setting is outside its limit, or a list, table or record is not well formed.
pub const RANGE: u8 = 2;

// The frame breaks a rule of RFC 9000.
pub const MALFORMED: u8 = 3;

// The frame's type is not handled.
pub const KIND: u8 = 4;

// There is no free place in the list or table.
pub const FULL: u8 = 5;

// The event is impossible in the present state.
pub const ORDER: u8 = 6;

// A byte limit is passed.
pub const FLOW: u8 = 7;

// A final size is contradicted.
pub const FINAL: u8 = 8;

// A count of streams or connection ids is passed.
pub const LIMIT: u8 = 9;

// Nothing can be received on this stream id.
pub const STATE: u8 = 10;

// The output buffer is too small.
pub const ROOM: u8 = 11;

// The connection id is retired already.
pub const RETIRED: u8 = 12;
