// The connection's own books, by value: who may send, counts of streams a direction, bytes charged, granted and owed
// (01, Streams and bytes; RFC 9000 sections 2.1, 4.1 and 4.6; streams/state.rs), and the calls that need no table.
#![tactic(auto)]

ghost use Rattle.std.specs.Prelude.{◌≡◌};
ghost use Rattle.stream_conn.specs.Books.{counts_of, with_bi, with_uni, with_dir, admitted, good_counts, good_conn, paid, used_to, raised, windowed, given, alike, released, unchanged_done, fresh_conn, new_done, credit_done, window_done, allowed, max_done};

use answers::Refusal;

// Offsets and windows are below this (01, Limits).
const TOP: u64 = 1 << 62;

// The largest number that MAX_DATA can carry.
const MOST: u64 = 4611686018427387903;

// Counts of streams are at most this (01, Limits).
const COUNTS: u64 = 1 << 60;

// Counters of one direction.
#[derive(Clone, Copy, Debug, PartialEq, Eq)]
pub struct Counts {
    // Ours: the next index to open, and how many the peer allows.
    pub next: u64,
    pub max: u64,
    // The peer's: the maximum granted, how many of those are not freed, how many are desired, the lowest index never used.
    pub rmax: u64,
    pub ralloc: u64,
    pub rwant: u64,
    pub rnext: u64,
}

// The connection record.
#[derive(Clone, Copy, Debug, PartialEq, Eq)]
pub struct Conn {
    // Our side: 0 client, 1 server; a number and not an enum, as `new` answers RANGE for one that is neither.
    pub side: u64,
    // Streams both ways and one way.
    pub bi: Counts,
    pub uni: Counts,
    // Bytes charged: the ends of all streams, and those of them that are closed.
    pub charged: u64,
    pub closed: u64,
    // Bytes that the peer may be charged in all.
    pub grant: u64,
    // Receive window, and what of its narrowing is not paid yet.
    pub window: u64,
    pub debt: u64,
    // Receive window of each stream.
    pub swindow: u64,
}

// What a call hands back: `free` says that the stream's place can be given back, `value` is what the call's own line says: a number, as one type
// serves all the calls and their events print it.
#[derive(Clone, Copy, Debug, PartialEq, Eq)]
pub struct Done {
    pub value: u64,
    pub charge: u64,
    pub credit: u64,
    pub free: bool,
    pub conn: Conn,
}

// The counts with one stream of the peer less, or the next one granted.
#[derive(Clone, Copy)]
pub struct Given {
    pub again: bool,
    pub counts: Counts,
}

// The connection with one stream less, and the stream that is granted for it, if one is.
#[derive(Clone, Copy)]
pub struct Release {
    pub granted: Option<u64>,
    pub conn: Conn,
}

impl Counts {
    // Within the limits.
    #[tactic(auto, unfolding(crate::specs::Books::good_counts))]
    fn good(self) -> bool
        ensures { result ≡ good_counts self }
    {
        (self.next <= COUNTS)
            & ((self.max <= COUNTS)
                & ((self.rnext <= self.rmax)
                    & ((self.rmax <= COUNTS)
                        & ((self.rwant <= self.ralloc) & (self.ralloc <= self.rmax)))))
    }

    // The lowest index never used is at least `n`.
    fn used_to(self, n: u64) -> Counts
        ensures { result ≡ used_to self n }
    {
        Counts {
            rnext: self.rnext.max(n),
            ..self
        }
    }

    // The peer allows `n` streams of ours.
    fn allow(self, n: u64) -> Counts
        ensures { result ≡ allowed self n }
    {
        Counts {
            max: self.max.max(n),
            ..self
        }
    }

    // One stream of the peer is given up: the next is granted if fewer than desired would be left.
    #[tactic(auto, unfolding(crate::specs::Books::given))]
    fn give(self) -> Result<Given, Refusal>
        ensures { result ≡ given self }
    {
        if self.rwant < self.ralloc {
            let counts = Counts {
                ralloc: self.ralloc - 1,
                ..self
            };
            return Ok(Given {
                again: false,
                counts,
            });
        }
        if self.rmax >= COUNTS {
            return Err(Refusal::Range);
        }
        let counts = Counts {
            rmax: self.rmax + 1,
            ..self
        };
        Ok(Given {
            again: true,
            counts,
        })
    }
}

// The id of the peer's stream with that index, of the same kind as `id`.
#[tactic(auto, unfolding(crate::specs::Books::alike))]
fn alike(id: u64, index: u64) -> u64
    ensures { result ≡ alike id index }
{
    if index < COUNTS {
        return 4 * index + id % 4;
    }
    0
}

impl Conn {
    // The counts of a direction: 1 one way, else both ways; a number and not an enum, as `max_streams` answers RANGE for one that is neither.
    pub fn counts(self, dir: u64) -> Counts
        ensures { result ≡ counts_of self dir }
    {
        if dir == 1 {
            return self.uni;
        }
        self.bi
    }

    fn with_bi(self, k: Counts) -> Conn
        ensures { result ≡ with_bi self k }
    {
        Conn { bi: k, ..self }
    }

    fn with_uni(self, k: Counts) -> Conn
        ensures { result ≡ with_uni self k }
    {
        Conn { uni: k, ..self }
    }

    // The same connection with other counts of a direction.
    pub fn with(self, dir: u64, k: Counts) -> Conn
        ensures { result ≡ with_dir self dir k }
    {
        if dir == 1 {
            return self.with_uni(k);
        }
        self.with_bi(k)
    }

    // May the peer send on this stream; STATE or LIMIT if not.
    #[tactic(auto, unfolding(crate::specs::Books::admitted))]
    pub fn admit(self, id: u64) -> Result<(), Refusal>
        ensures { result ≡ admitted self id }
    {
        let dir = (id / 2) % 2;
        if id % 2 == self.side {
            if dir == 1 {
                return Err(Refusal::State);
            }
            if self.bi.next <= id / 4 {
                return Err(Refusal::State);
            }
            return Ok(());
        }
        let k = self.counts(dir);
        if k.rmax <= id / 4 {
            return Err(Refusal::Limit);
        }
        Ok(())
    }

    // In good form, as far as the connection record alone shows it.
    #[tactic(auto, unfolding(crate::specs::Books::good_conn))]
    pub fn good(self) -> bool
        ensures { result ≡ good_conn self }
    {
        let b = self.bi;
        let u = self.uni;
        (self.closed <= self.charged)
            & ((self.charged <= self.grant)
                & ((self.grant < TOP)
                    & ((self.side < 2)
                        & ((self.window < TOP) & ((self.swindow < TOP) & (b.good() & u.good()))))))
    }

    // Credit for `n` bytes: the debt is paid first.
    #[tactic(auto, unfolding(crate::specs::Books::paid))]
    pub fn pay(self, n: u64) -> Conn
        ensures { result ≡ paid self n }
    {
        let raise = n.saturating_sub(self.debt);
        Conn {
            grant: self.grant.saturating_add(raise).min(MOST),
            debt: self.debt.saturating_sub(n),
            ..self
        }
    }

    // The peer has used the stream `id`.
    #[tactic(auto, unfolding(crate::specs::Books::raised))]
    pub fn raise(self, id: u64) -> Conn
        ensures { result ≡ raised self id }
    {
        if id % 2 == self.side {
            return self;
        }
        let dir = (id / 2) % 2;
        let k = self.counts(dir).used_to(id / 4 + 1);
        self.with(dir, k)
    }

    // The connection without the stream `id`, and the stream that is granted for it; RANGE where no more can be granted.
    #[tactic(auto, unfolding(crate::specs::Books::released))]
    pub fn release(self, id: u64) -> Result<Release, Refusal>
        ensures { result ≡ released self id }
    {
        if id % 2 == self.side {
            return Ok(Release {
                granted: None,
                conn: self,
            });
        }
        let dir = (id / 2) % 2;
        let k = self.counts(dir);
        let g = k.give()?;
        let conn = self.with(dir, g.counts);
        if g.again {
            let granted = Some(alike(id, k.rmax));
            return Ok(Release { granted, conn });
        }
        Ok(Release {
            granted: None,
            conn,
        })
    }

    #[tactic(auto, unfolding(crate::specs::Books::windowed))]
    fn set_window(self, w: u64) -> Conn
        ensures { result ≡ windowed self w }
    {
        let wider = w.saturating_sub(self.window);
        let narrower = self.window.saturating_sub(w);
        Conn {
            grant: self.grant.saturating_add(wider).min(MOST),
            window: w,
            debt: self.debt.saturating_add(narrower),
            ..self
        }
    }

    // What a call hands back that has nothing to say but the connection.
    pub fn unchanged(self) -> Done
        ensures { result ≡ unchanged_done self }
    {
        Done {
            value: 0,
            charge: 0,
            credit: 0,
            free: false,
            conn: self,
        }
    }
}

// A connection on which nothing happened yet.
fn begin(side: u64, window: u64, swindow: u64) -> Conn
    ensures { result ≡ fresh_conn side window swindow }
{
    let zero = Counts {
        next: 0,
        max: 0,
        rmax: 0,
        ralloc: 0,
        rwant: 0,
        rnext: 0,
    };
    Conn {
        side,
        bi: zero,
        uni: zero,
        charged: 0,
        closed: 0,
        grant: window,
        window,
        debt: 0,
        swindow,
    }
}

// A fresh connection, its window granted and no stream yet; RANGE for a side that is none or a window past the limit.
#[tactic(auto, unfolding(crate::specs::Books::new_done))]
pub fn new(side: u64, window: u64, swindow: u64) -> Result<Done, Refusal>
    ensures { result ≡ new_done side window swindow }
{
    if (side > 1) | ((window >= TOP) | (swindow >= TOP)) {
        return Err(Refusal::Range);
    }
    Ok(begin(side, window, swindow).unchanged())
}

// Credit for `n` bytes that no stream of the table accounts for: the debt is paid first.
#[tactic(auto, unfolding(crate::specs::Books::credit_done))]
pub fn credit(c: Conn, n: u64) -> Result<Done, Refusal>
    ensures { result ≡ credit_done c n }
{
    if n >= TOP {
        return Err(Refusal::Range);
    }
    if !c.good() {
        return Err(Refusal::Range);
    }
    let d = c.pay(n);
    Ok(Done {
        credit: n,
        ..d.unchanged()
    })
}

// The receive window is set: the value is 1 where it is wider than before.
#[tactic(auto, unfolding(crate::specs::Books::window_done))]
pub fn window(c: Conn, w: u64) -> Result<Done, Refusal>
    ensures { result ≡ window_done c w }
{
    if w >= TOP {
        return Err(Refusal::Range);
    }
    if !c.good() {
        return Err(Refusal::Range);
    }
    let d = c.set_window(w);
    Ok(Done {
        value: u64::from(c.window < w),
        ..d.unchanged()
    })
}

// The peer allows `n` streams of ours in a direction; a number below the one allowed changes nothing.
#[tactic(auto, unfolding(crate::specs::Books::max_done))]
pub fn max_streams(c: Conn, dir: u64, n: u64) -> Result<Done, Refusal>
    ensures { result ≡ max_done c dir n }
{
    if (dir > 1) | (n > COUNTS) {
        return Err(Refusal::Range);
    }
    if !c.good() {
        return Err(Refusal::Range);
    }
    let k = c.counts(dir).allow(n);
    Ok(c.with(dir, k).unchanged())
}
