// The codes of the events: 16 a module, in the order in which the grammar has its names (docs/EVENTS.md). The definitions use the same names.
// Numbers and no enum: `ledger::step` takes any code, and answers also for what is the code of no event (`step_of`).

#![tactic(auto)]

// ct.eq
pub const CT_EQ: u8 = 16;

// vi.dec
pub const VI_DEC: u8 = 32;

// vi.enc
pub const VI_ENC: u8 = 33;

// pn.new
pub const PN_NEW: u8 = 48;

// pn.read
pub const PN_READ: u8 = 49;

// dd.insert
pub const DD_INSERT: u8 = 64;

// dd.new
pub const DD_NEW: u8 = 65;

// rs.insert
pub const RS_INSERT: u8 = 80;

// rs.remove
pub const RS_REMOVE: u8 = 81;

// rs.contains
pub const RS_CONTAINS: u8 = 82;

// rs.one
pub const RS_ONE: u8 = 83;

// rs.replace
pub const RS_REPLACE: u8 = 84;

// rs.min
pub const RS_MIN: u8 = 85;

// rs.max
pub const RS_MAX: u8 = 86;

// rs.len
pub const RS_LEN: u8 = 87;

// rs.pop
pub const RS_POP: u8 = 88;

// rs.new
pub const RS_NEW: u8 = 89;

// rs.add
pub const RS_ADD: u8 = 90;

// rs.sub
pub const RS_SUB: u8 = 91;

// rs.cap
pub const RS_CAP: u8 = 92;

// pa.insert
pub const PA_INSERT: u8 = 96;

// pa.below
pub const PA_BELOW: u8 = 97;

// pa.new
pub const PA_NEW: u8 = 98;

// af.read
pub const AF_READ: u8 = 112;

// af.write
pub const AF_WRITE: u8 = 113;

// cq.frame
pub const CQ_FRAME: u8 = 128;

// cq.next
pub const CQ_NEXT: u8 = 129;

// cq.active
pub const CQ_ACTIVE: u8 = 130;

// cq.reset
pub const CQ_RESET: u8 = 131;

// cq.new
pub const CQ_NEW: u8 = 132;

// cq.update
pub const CQ_UPDATE: u8 = 133;

// mt.poll
pub const MT_POLL: u8 = 144;

// mt.ack
pub const MT_ACK: u8 = 145;

// mt.lost
pub const MT_LOST: u8 = 146;

// mt.plost
pub const MT_PLOST: u8 = 147;

// mt.hole
pub const MT_HOLE: u8 = 148;

// mt.peer
pub const MT_PEER: u8 = 149;

// mt.new
pub const MT_NEW: u8 = 150;

// mt.off
pub const MT_OFF: u8 = 151;

// mt.reset
pub const MT_RESET: u8 = 152;

// st.data
pub const ST_DATA: u8 = 160;

// st.reset
pub const ST_RESET: u8 = 161;

// st.stop
pub const ST_STOP: u8 = 162;

// st.read
pub const ST_READ: u8 = 163;

// st.seen
pub const ST_SEEN: u8 = 164;

// st.announce
pub const ST_ANNOUNCE: u8 = 165;

// st.sent
pub const ST_SENT: u8 = 166;

// st.open
pub const ST_OPEN: u8 = 167;

// st.want
pub const ST_WANT: u8 = 168;

// st.maxstreams
pub const ST_MAXSTREAMS: u8 = 169;

// st.credit
pub const ST_CREDIT: u8 = 170;

// st.zrej
pub const ST_ZREJ: u8 = 171;

// st.window
pub const ST_WINDOW: u8 = 172;

// st.new
pub const ST_NEW: u8 = 173;
