// The events of the duplicate window, the range set and the recorder of acknowledgements: dd, rs and pa (docs/EVENTS.md). An event is its library's call.
#![tactic(auto)]

ghost use Rattle.std.specs.Prelude.{◌≡◌};
ghost use Rattle.drive_sets.specs.Sets.{began, note_of, plainly, valued, none, refused_of, value_of, told_of, popped_of, replaced_of, became_of, made, done, record_of, ask_of, edit_of, both, set_of, filled, renew_of};

use answers::Refusal;
use dedup::Dedup;
use range_edit::{Changed, Replaced};
use range_set::Popped;
use said::Said;

// What an event of the window gave.
#[derive(Clone, Copy)]
pub struct Noted {
    pub said: Said,
    pub dedup: Dedup,
}

// The window at the start.
pub fn begin() -> Noted
    ensures { result ≡ began }
{
    Noted {
        said: said::plain(answers::OK),
        dedup: Dedup::new(),
    }
}

// dd.new is the fresh window, dd.insert the window's insert.
pub fn note(code: u8, n: u64, d: Dedup) -> Noted
    ensures { result ≡ note_of code n d }
{
    if code == codes::DD_NEW {
        return begin();
    }
    match d.insert(n) {
        Ok(i) => Noted {
            said: said::number(answers::OK, said::bit(i.seen)),
            dedup: i.dedup,
        },
        Err(why) => Noted {
            said: said::number(u8::from(why), 0),
            dedup: d,
        },
    }
}

// What an event of a list of ranges gave: the answer, the count of ranges after it, and of reported parts.
#[derive(Clone, Copy)]
pub struct Did {
    pub said: Said,
    pub count: usize,
    pub parts: usize,
}

fn plain(answer: u8, count: usize) -> Did
    ensures { result ≡ plainly answer count }
{
    Did {
        said: said::plain(answer),
        count,
        parts: 0,
    }
}

fn number(answer: u8, x: u64, count: usize) -> Did
    ensures { result ≡ valued answer x count }
{
    Did {
        said: said::number(answer, x),
        count,
        parts: 0,
    }
}

// A list at the start.
pub fn empty() -> Did
    ensures { result ≡ none }
{
    plain(answers::OK, 0)
}

// RANGE, with the list as it was.
pub fn refused(d: Did) -> Did
    ensures { result ≡ refused_of d }
{
    plain(answers::RANGE, d.count)
}

// What a question is answered with: its number; a refusal has 0.
fn valued(r: Result<u64, Refusal>, count: usize) -> Did
    ensures { result ≡ value_of r count }
{
    match r {
        Ok(x) => number(answers::OK, x, count),
        Err(why) => number(u8::from(why), 0, count),
    }
}

// What a change is answered with: 1 for yes, and the count after it. A refusal leaves the count that was given.
fn told(r: Result<Changed, Refusal>, before: usize) -> Did
    ensures { result ≡ told_of r before }
{
    match r {
        Ok(c) => number(answers::OK, said::bit(c.changed), c.count),
        Err(why) => number(u8::from(why), 0, before),
    }
}

// A pop: the range that was taken; a refusal has 0 and 0.
fn popped(r: Result<Popped, Refusal>, before: usize) -> Did
    ensures { result ≡ popped_of r before }
{
    match r {
        Ok(p) => Did {
            said: said::two(answers::OK, p.start, p.end),
            count: p.count,
            parts: 0,
        },
        Err(why) => Did {
            said: said::two(u8::from(why), 0, 0),
            count: before,
            parts: 0,
        },
    }
}

// A replace: how many parts it reported.
fn replaced(r: Result<Replaced, Refusal>, before: usize) -> Did
    ensures { result ≡ replaced_of r before }
{
    match r {
        Ok(p) => Did {
            parts: p.parts,
            ..plain(answers::OK, p.count)
        },
        Err(why) => plain(u8::from(why), before),
    }
}

// A new set: no value.
fn became(r: Result<Changed, Refusal>, before: usize) -> Did
    ensures { result ≡ became_of r before }
{
    match r {
        Ok(c) => plain(answers::OK, c.count),
        Err(why) => plain(u8::from(why), before),
    }
}

// pa.new, pa.insert and pa.below
#[tactic(auto, unfolding(crate::specs::Sets::record_of))]
pub fn record(code: u8, n: u64, list: &mut [u64], count: usize) -> Did
    ensures { done result list.new ≡ record_of code n list.old count }
{
    match code {
        codes::PA_NEW => empty(),
        codes::PA_INSERT => {
            let r = pending_acks::insert_one(list, count, n);
            told(
                r.map(|r| Changed {
                    count: r.count,
                    changed: r.new,
                }),
                count,
            )
        }
        _ => told(pending_acks::subtract_below(list, count, n), count),
    }
}

// rs.contains, rs.min, rs.max, and else rs.len: the events that change nothing
#[tactic(auto, unfolding(crate::specs::Sets::ask_of))]
fn ask(code: u8, x: u64, list: &[u64], count: usize) -> Did
    ensures { result ≡ ask_of code x list.now count }
{
    match code {
        codes::RS_CONTAINS => valued(range_set::contains(list, count, x).map(said::bit), count),
        codes::RS_MIN => valued(range_set::min(list, count), count),
        codes::RS_MAX => valued(range_set::max(list, count), count),
        _ => valued(range_set::len(list, count).map(|n| n as u64), count),
    }
}

// The events that change the set alone, and those that change nothing: a and b are the first two words, and `other` is the set of rs.add and rs.sub.
#[tactic(auto, unfolding(crate::specs::Sets::edit_of))]
fn edit(code: u8, a: u64, b: u64, other: &[u64], n: usize, list: &mut [u64], count: usize) -> Did
    ensures { done result list.new ≡ edit_of code a b other.now n list.old count }
{
    match code {
        codes::RS_ONE => told(range_set::insert_one(list, count, a), count),
        codes::RS_INSERT => told(range_set::insert(list, count, a, b), count),
        codes::RS_REMOVE => told(range_set::remove(list, count, a, b), count),
        codes::RS_ADD => told(range_set::add(list, count, other, n), count),
        codes::RS_SUB => told(range_set::subtract(list, count, other, n), count),
        codes::RS_POP => popped(range_set::pop_min(list, count), count),
        _ => ask(code, a, list, count),
    }
}

// An event of the range set but rs.new; the words are numbers[..n].
pub fn set(
    code: u8,
    numbers: &[u64; 32768],
    n: usize,
    list: &mut [u64],
    count: usize,
    parts: &mut [u64],
) -> Did
    ensures { both result list.new parts.new ≡ set_of code numbers.now n list.old count parts.old }
{
    let a = numbers[0];
    let b = numbers[1];
    if code == codes::RS_REPLACE {
        return replaced(range_set::replace(list, count, a, b, parts), count);
    }
    edit(code, a, b, numbers, n / 2, list, count)
}

// The n ranges of `numbers`, put into the empty set one by one, up to the first that is refused; how many ranges they make.
fn fill(numbers: &[u64], n: usize, list: &mut [u64]) -> Result<usize, Refusal>
    ensures { made result list.new ≡ filled n numbers.now list.old 0 }
{
    let mut count = 0;
    for i in 0..n {
        if numbers.len() / 2 <= i {
            return Err(Refusal::Range);
        }
        let r = range_set::insert(list, count, numbers[2 * i], numbers[2 * i + 1])?;
        count = r.count;
    }
    Ok(count)
}

// rs.new: the words are numbers[..n]. The set is made in `spare`, so that a refusal leaves the list as it was.
pub fn renew(numbers: &[u64], n: usize, list: &mut [u64], count: usize, spare: &mut [u64]) -> Did
    ensures { both result list.new spare.new ≡ renew_of numbers.now n list.old count spare.old }
{
    match fill(numbers, n / 2, spare) {
        Ok(k) => became(range_set::add(list, 0, spare, k), count),
        Err(why) => plain(u8::from(why), count),
    }
}
