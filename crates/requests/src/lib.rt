// One call on a store, asked for by a request, a decoded command: the eighteen calls behind one function, with the scan list as bytes.
#![tactic(auto)]

pub mod packed;

ghost use Rattle.std.specs.Prelude.{◌≡◌, cond, [], ltb};
ghost use Rattle.words.specs.Words.{words};
ghost use Rattle.requests.specs.Packed.{entries_of};
ghost use Rattle.scans.specs.Table.{table_of};
ghost use Rattle.history.specs.History.{Call, alone as alone_of};
ghost use Rattle.commands.specs.Commands.{read_of, write_of, call_of};
ghost use Rattle.promise.specs.Promise.{Serves, ServesBy, Gives, GivesBy, Makes, kept};
ghost use Rattle.requests.specs.Requested.{most_mask, requested, given_by};

use changes::{abort, begin, begin_as, commit, delete, insert, update};
use commands::{Kind, MOST_OPERANDS, Read, Request, Write};
use lookups::{
    crossings, keeper_at, latest, lineage, own_read, page_cell, read_at, scan_read, sum,
};
use making::make;
use packed::{free_all, put_entry, table};
use scans::Scans;
use terms::limits::{LENT_STAMPS, MOST_COLUMNS};
use terms::{Answer, Row, Shape, Stamp, Tail, Transaction};
use upkeep::{close_scan, merge, open_scan, release};
use words::of_word;

// A store is made, and with it every entry of the list becomes free.
pub fn make_store(mem: &mut [u8], scans: &mut [u8], shape: Shape) -> Answer
    ensures { Makes mem.old (entries_of (words scans.old)) shape result mem.new (entries_of (words scans.new)) }
{
    let t = table(scans);
    let answer = make(mem, t.length, shape);
    if answer.is_ok() {
        free_all(scans);
    }
    answer
}

// The two calls that change the list: the entry that changed is written back.
fn open_listed(mem: &mut [u8], scans: &mut [u8], t: Scans, a: u32) -> Answer
    ensures { t ≡ table_of (entries_of (words scans.old)) → Serves mem.old (entries_of (words scans.old)) (Call.open_scan a) result mem.new (entries_of (words scans.new)) }
{
    let listed = open_scan(mem, t, Stamp(a))?;
    put_entry(scans, listed.index, listed.entry);
    listed.answer
}

fn close_listed(mem: &[u8], scans: &mut [u8], t: Scans, a: u32) -> Answer
    ensures { t ≡ table_of (entries_of (words scans.old)) → Serves mem.now (entries_of (words scans.old)) (Call.close a) result mem.now (entries_of (words scans.new)) }
{
    let listed = close_scan(mem, t, a)?;
    put_entry(scans, listed.index, listed.entry);
    listed.answer
}

// The mask that an operand stands for. One of more bits is refused as the mask 0 is, at the same test.
fn mask_of(c: u32) -> u16
    ensures { result ≡ cond (ltb most_mask c) 0 c }
{
    u16::try_from(c).unwrap_or(0)
}

// A call that only reads.
#[tactic(auto, unfolding(commands::specs::Commands::read_of))]
fn look(mem: &[u8], t: Scans, kind: Read, operands: [u32; MOST_OPERANDS]) -> Answer
    ensures { ServesBy t mem.now (read_of kind operands) result mem.now kept }
{
    let [a, b, c, ..] = operands;
    match kind {
        Read::Latest => latest(mem, t, Row(a), b),
        Read::ReadAt => read_at(mem, t, Stamp(a), Row(b), c),
        Read::OwnRead => own_read(mem, t, Transaction(a), Row(b), c),
        Read::ScanRead => scan_read(mem, t, a, Row(b), c),
        Read::Sum => sum(mem, t, a, b),
        Read::PageCell => page_cell(mem, t, a, Row(b)),
        Read::Lineage => lineage(mem, t, a, b),
        Read::KeeperAt => keeper_at(mem, t, Stamp(a), Row(b), c),
    }
}

// One that changes the memory and leaves the list.
#[tactic(auto, unfolding(commands::specs::Commands::write_of))]
fn change(
    mem: &mut [u8],
    t: Scans,
    kind: Write,
    operands: [u32; MOST_OPERANDS],
    values: [i32; MOST_COLUMNS],
) -> Answer
    ensures { ServesBy t mem.old (write_of kind operands values) result mem.new kept }
{
    let [a, b, c, ..] = operands;
    match kind {
        Write::Begin => begin(mem, t),
        Write::Insert => insert(mem, t, Transaction(a), values),
        Write::Update => update(mem, t, Transaction(a), Row(b), mask_of(c), values),
        Write::Delete => delete(mem, t, Transaction(a), Row(b)),
        Write::Commit => commit(mem, t, Transaction(a), Stamp(b)),
        Write::Abort => abort(mem, t, Transaction(a)),
        Write::Merge => merge(mem, t, a, b, Tail(c)),
        Write::Release => release(mem, t),
        Write::BeginAs => begin_as(mem, t, a),
    }
}

// An answer, the slice that the call was lent, and how many of its places were lent: none but to crossings.
#[derive(Clone, Copy)]
pub struct Called {
    pub answer: Answer,
    pub stamps: [u32; LENT_STAMPS],
    pub lent: usize,
}

// The answer of a call that is lent no slice.
pub fn alone(answer: Answer) -> Called
    ensures { given_by result ≡ alone_of answer }
{
    Called {
        answer,
        stamps: [0; LENT_STAMPS],
        lent: 0,
    }
}

// The call that writes into a slice: it is lent one of zeros.
fn lent_crossings(mem: &[u8], t: Scans, operands: [u32; MOST_OPERANDS]) -> Called
    ensures { GivesBy t mem.now (call_of Kind.Crossings operands []) (given_by result) mem.now kept }
{
    let [row, column, mark, from, to] = operands;
    let mark = of_word(mark);
    let mut stamps = [0; LENT_STAMPS];
    let answer = crossings(
        mem,
        t,
        &mut stamps,
        Row(row),
        column,
        mark,
        Stamp(from),
        Stamp(to),
    );
    Called {
        answer,
        stamps,
        lent: LENT_STAMPS,
    }
}

// The answer to a request.
pub fn call(mem: &mut [u8], scans: &mut [u8], request: Request) -> Called
    ensures { Gives mem.old (entries_of (words scans.old)) (requested request) (given_by result) mem.new (entries_of (words scans.new)) }
{
    let t = table(scans);
    let operands = request.operands;
    match request.kind {
        Kind::Read(read) => alone(look(mem, t, read, operands)),
        Kind::Write(write) => alone(change(mem, t, write, operands, request.values)),
        Kind::OpenScan => alone(open_listed(mem, scans, t, operands[0])),
        Kind::Close => alone(close_listed(mem, scans, t, operands[0])),
        Kind::Crossings => lent_crossings(mem, t, operands),
    }
}
