// The events of streams and bytes that name a stream (docs/EVENTS.md): the call of each, and the values that each event of a connection shows.
#![tactic(auto)]

ghost use Rattle.std.specs.Prelude.{◌≡◌};
ghost use Rattle.streams.specs.Calls.{after};
ghost use Rattle.st_call.specs.Call.{data_of, call_of, shown_of, values_of};

use answers::Refusal;
use said::Said;
use stream_conn::{Conn, Done};

// What an event of that code shows of an answer and the numbers with it, as they are given: any number, also one that is no answer of the table, and
// numbers beside a refusal.
#[tactic(auto, unfolding(crate::specs::Call::shown_of))]
pub fn shown(code: u8, answer: u8, value: u64, charge: u64, credit: u64) -> Said
    ensures { result ≡ shown_of code answer value charge credit }
{
    match code {
        codes::ST_DATA | codes::ST_RESET => said::two(answer, charge, credit),
        codes::ST_STOP => said::three(answer, charge, credit, value),
        codes::ST_READ => said::number(answer, credit),
        codes::ST_SEEN | codes::ST_ANNOUNCE | codes::ST_WINDOW => said::number(answer, value),
        _ => said::plain(answer),
    }
}

// The values of an event on one stream; all zero where it was refused.
#[tactic(auto, unfolding(crate::specs::Call::values_of))]
pub fn values(code: u8, d: Result<Done, Refusal>) -> Said
    ensures { result ≡ values_of code d }
{
    match d {
        Ok(d) => shown(code, answers::OK, d.value, d.charge, d.credit),
        Err(why) => shown(code, u8::from(why), 0, 0, 0),
    }
}

// st.data: FIN is 0 or 1.
#[tactic(auto, unfolding(crate::specs::Call::data_of))]
fn data(numbers: &[u64; 32768], c: Conn, table: &mut [u64], count: usize) -> Result<Done, Refusal>
    ensures { after result table.new ≡ data_of numbers.now c table.old count }
{
    let fin = numbers[3];
    if 1 < fin {
        return Err(Refusal::Range);
    }
    streams::data(
        c,
        table,
        count,
        numbers[0],
        numbers[1],
        numbers[2],
        fin == 1,
    )
}

// The call of an event that names a stream.
#[tactic(auto, unfolding(crate::specs::Call::call_of))]
pub fn call(
    code: u8,
    numbers: &[u64; 32768],
    c: Conn,
    table: &mut [u64],
    count: usize,
) -> Result<Done, Refusal>
    ensures { after result table.new ≡ call_of code numbers.now c table.old count }
{
    let id = numbers[0];
    let b = numbers[1];
    match code {
        codes::ST_DATA => data(numbers, c, table, count),
        codes::ST_RESET => streams::reset(c, table, count, id, b),
        codes::ST_STOP => streams::stop(c, table, count, id),
        codes::ST_READ => streams::read(c, table, count, id, b),
        codes::ST_SEEN => streams::seen(c, table, count, id),
        codes::ST_ANNOUNCE => streams::announce(c, table, count, id),
        _ => streams::sent(c, table, count, id),
    }
}
