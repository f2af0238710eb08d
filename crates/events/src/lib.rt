// What event a line of a file is: its code, and its words as numbers and bytes, put into lent memory. Which events there are is said by one short
// text a module, a name and then the kinds of its words, so that the whole grammar stands in one place.
#![tactic(auto)]

ghost use Rattle.std.specs.Prelude.{◌≡◌, ◌+◌, ◌<◌, ◌≤◌, length, IfSome};
ghost use Rattle.words.specs.Words.{both};
ghost use Rattle.events.specs.Modules.{named, module_of, base_of, grammar_of};
ghost use Rattle.events.specs.Events.{find_in, finished, event_in, event_of};

use text::Word;
use words::Cursor;

// The modules. Each has a name of two letters, at the start of its events' names.
#[derive(Clone, Copy)]
enum Module {
    // constant_time
    Ct,
    // varint
    Vi,
    // packet_number
    Pn,
    // dedup
    Dd,
    // range_set
    Rs,
    // pending_acks
    Pa,
    // ack_frame
    Af,
    // cid_queue
    Cq,
    // mtud
    Mt,
    // streams
    St,
}

impl Module {
    // The code of its first event.
    #[tactic(auto, unfolding(crate::specs::Modules::base_of))]
    fn base(self) -> u8
        ensures value { result ≡ base_of self }
        ensures upper_bound { result ≤ 160 }
    {
        match self {
            Module::Ct => codes::CT_EQ,
            Module::Vi => codes::VI_DEC,
            Module::Pn => codes::PN_NEW,
            Module::Dd => codes::DD_INSERT,
            Module::Rs => codes::RS_INSERT,
            Module::Pa => codes::PA_INSERT,
            Module::Af => codes::AF_READ,
            Module::Cq => codes::CQ_FRAME,
            Module::Mt => codes::MT_POLL,
            Module::St => codes::ST_DATA,
        }
    }

    // Its grammar: a name and the kinds of its words, by turns.
    #[tactic(auto, unfolding(crate::specs::Modules::grammar_of))]
    fn grammar(self) -> &'static [u8]
        ensures { result.now ≡ grammar_of self }
    {
        match self {
            Module::Ct => b"eq hg",
            Module::Vi => b"dec h enc n",
            Module::Pn => b"new nn read hn",
            Module::Dd => b"insert n new -",
            Module::Rs =>
                b"insert nn remove nn contains n one n replace nn min - max - len - pop - new * add * sub * cap nn",
            Module::Pa => b"insert n below n new -",
            Module::Af => b"read hn write nn*",
            Module::Cq => b"frame nnhg next - active - reset h new h update h",
            Module::Mt =>
                b"poll nn ack nn lost nn plost - hole n peer n new nnonnnn off nn reset nn",
            Module::St =>
                b"data nnnn reset nn stop n read nn seen n announce n sent n open d want dn maxstreams dn credit n zrej - window n new snnnn",
        }
    }
}

// An event: its code; how many numbers it has; and of its byte strings, which lie one behind the other, where the first ends and where all end.
#[derive(Clone, Copy, Debug, PartialEq, Eq)]
pub struct Event {
    pub code: u8,
    pub count: usize,
    pub first: usize,
    pub size: usize,
}

// Why a line is no event.
#[derive(Clone, Copy, Debug, PartialEq, Eq)]
pub enum NoEvent {
    // No event has its name.
    Unknown,
    // Its words do not fit the event of its name.
    Unfit,
}

// The event whose words were read: they fitted, and there are no more.
fn finish(line: &[u8], code: u8, c: Cursor) -> Result<Event, NoEvent>
    ensures { result ≡ finished line.now code c }
{
    if c.ok && text::is_end(line, c.at) {
        return Ok(Event {
            code,
            count: c.count,
            first: c.first,
            size: c.size,
        });
    }
    Err(NoEvent::Unfit)
}

// Where a name stands in a grammar, counted from 0, and the word behind it, its shape.
#[derive(Clone, Copy)]
struct Found {
    index: u8,
    shape: Word,
}

// A name in a grammar, which has no more than 16.
fn find(grammar: &[u8], name: &[u8]) -> Option<Found>
    ensures value { result ≡ find_in grammar.now name.now }
    ensures index_bound { IfSome result (λ f. f.index < 16) }
    ensures in_bounds { IfSome result (λ f. (f.shape.start ≤ f.shape.end) × (f.shape.end ≤ length grammar.now)) }
{
    let mut at = 0;
    for index in 0..16u8 {
        let w = text::word_at(grammar, at);
        let shape = text::word_at(grammar, w.end);
        if text::same(&grammar[w.start..w.end], name) {
            return Some(Found { index, shape });
        }
        at = shape.end;
    }
    None
}

// The event of a module: its name stands in the grammar, and its words, from `at` on, fit.
fn event_in(
    line: &[u8],
    name: &[u8],
    at: usize,
    m: Module,
    numbers: &mut [u64],
    bytes: &mut [u8],
) -> Result<Event, NoEvent>
    ensures { both result numbers.new bytes.new ≡ event_in line.now name.now at m numbers.old bytes.old }
{
    let grammar = m.grammar();
    let Some(f) = find(grammar, name) else {
        return Err(NoEvent::Unknown);
    };
    let shape = &grammar[f.shape.start..f.shape.end];
    let c = words::take(line, at, shape, numbers, bytes);
    finish(line, m.base() + f.index, c)
}

// The module of two letters.
#[tactic(auto, unfolding(crate::specs::Modules::named))]
fn named(a: u8, b: u8) -> Option<Module>
    ensures { result ≡ named a b }
{
    match (a, b) {
        (b'c', b't') => Some(Module::Ct),
        (b'v', b'i') => Some(Module::Vi),
        (b'p', b'n') => Some(Module::Pn),
        (b'd', b'd') => Some(Module::Dd),
        (b'r', b's') => Some(Module::Rs),
        (b'p', b'a') => Some(Module::Pa),
        (b'a', b'f') => Some(Module::Af),
        (b'c', b'q') => Some(Module::Cq),
        (b'm', b't') => Some(Module::Mt),
        (b's', b't') => Some(Module::St),
        _ => None,
    }
}

// The module that a word begins with, two letters and a point; a name follows them.
fn module_of(word: &[u8]) -> Option<Module>
    ensures value { result ≡ module_of word.now }
    ensures length_bound { IfSome result (λ m. 4 ≤ length word.now) }
{
    if word.len() < 4 || word[2] != b'.' {
        return None;
    }
    named(word[0], word[1])
}

// The event that a line is, whose numbers and bytes go to the start of the lent memory.
pub fn parse(line: &[u8], numbers: &mut [u64], bytes: &mut [u8]) -> Result<Event, NoEvent>
    ensures { both result numbers.new bytes.new ≡ event_of line.now numbers.old bytes.old }
{
    let w = text::word_at(line, 0);
    let word = &line[w.start..w.end];
    let Some(m) = module_of(word) else {
        return Err(NoEvent::Unknown);
    };
    event_in(line, &word[3..], w.end, m, numbers, bytes)
}
