// An answer with its values, by value: what a step of a module gives, and what the programs print (docs/EVENTS.md).
#![tactic(auto)]

ghost use Rattle.std.specs.Prelude.{◌≡◌};
ghost use Rattle.said.specs.Said.{said_plain, said_number, said_two, said_three, bit_of};

// An answer with up to three numbers as values.
#[derive(Clone, Copy)]
pub struct Said {
    // A number and no Refusal: `plain` and the others take any number for an answer (docs/PROMISES.md), and the programs print the number.
    pub answer: u8,
    pub count: usize,
    pub a: u64,
    pub b: u64,
    pub c: u64,
}

// An answer with no value.
pub fn plain(answer: u8) -> Said
    ensures { result ≡ said_plain answer }
{
    Said {
        answer,
        count: 0,
        a: 0,
        b: 0,
        c: 0,
    }
}

// An answer with one value.
pub fn number(answer: u8, a: u64) -> Said
    ensures { result ≡ said_number answer a }
{
    Said {
        answer,
        count: 1,
        a,
        b: 0,
        c: 0,
    }
}

// An answer with two values.
pub fn two(answer: u8, a: u64, b: u64) -> Said
    ensures { result ≡ said_two answer a b }
{
    Said {
        answer,
        count: 2,
        a,
        b,
        c: 0,
    }
}

// An answer with three values.
pub fn three(answer: u8, a: u64, b: u64, c: u64) -> Said
    ensures { result ≡ said_three answer a b c }
{
    Said {
        answer,
        count: 3,
        a,
        b,
        c,
    }
}

// 1 for yes, 0 for no.
pub fn bit(is: bool) -> u64
    ensures { result ≡ bit_of is }
{
    if is { 1 } else { 0 }
}
