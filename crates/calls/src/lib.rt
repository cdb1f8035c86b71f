// The public interface for programs in Rattle: every call by name, over the lent memory and the lent list of open scans, and the making of a
// store. Nothing is asked of the caller: any memory, any list and any numbers get an answer. A call that does not change the memory, or the list, takes it as
// `&`. Each call that a store is needed for reads the list into a table and hands memory and table to its core (laws.rs). The crate deskrook has the same for C and Rust.
#![tactic(auto, unfolding(promise::specs::Promise::ServesBy, promise::specs::Promise::GivesBy, promise::specs::Promise::MovesBy))]

mod laws;

ghost use Rattle.std.specs.Prelude.{◌≡◌};
ghost use Rattle.layout.specs.Sizes.{shape_of, BytesAnswered};
ghost use Rattle.terms.specs.declared.Form.{Form};
ghost use Rattle.history.specs.History.{Call, given};
ghost use Rattle.promise.specs.Promise.{Serves, ServesBy, kept, Gives, Moves, Makes};
ghost use Rattle.calls.specs.Values.{padded};

use laws::{changed, changed_reading, listed, moved, served, served_reading};
use lent::free_made;
use scans::Scans;
use terms::limits::MOST_COLUMNS;
use terms::{Answer, Row, ScanEntry, Shape, Stamp, Tail, Transaction};

// ---- the values lent with a call

// The 16 values that a call takes of those lent.
pub fn pad_values(values: &[i32]) -> [i32; MOST_COLUMNS]
    ensures { result ≡ padded values.now }
{
    let mut taken = [0; MOST_COLUMNS];
    let n = values.len().min(MOST_COLUMNS);
    taken[..n].copy_from_slice(&values[..n]);
    taken
}

// An insert and an update over the table, with the lent values as an array. Functions of their own, so that each call below hands its numbers on to one core.
fn insert_values(mem: &mut [u8], t: Scans, transaction: Transaction, values: &[i32]) -> Answer
    ensures { ServesBy t mem.old (Call.insert transaction.0 (padded values.now)) result mem.new kept }
{
    changes::insert(mem, t, transaction, pad_values(values))
}

fn update_values(
    mem: &mut [u8],
    t: Scans,
    transaction: Transaction,
    row: Row,
    mask: u16,
    values: &[i32],
) -> Answer
    ensures { ServesBy t mem.old (Call.update transaction.0 row.0 mask (padded values.now)) result mem.new kept }
{
    changes::update(mem, t, transaction, row, mask, pad_values(values))
}

// A begin over the table, with the keeper as a word: a function of its own for the same reason.
fn begin_with_keeper(mem: &mut [u8], t: Scans, keeper: u16) -> Answer
    ensures { ServesBy t mem.old (Call.begin_as keeper) result mem.new kept }
{
    changes::begin_as(mem, t, keeper as u32)
}

// ---- a store

// The bytes that a store of a shape needs, within the bound of rule 8.3 of docs/SPECIFICATION.md.
pub fn bytes_needed(columns: u32, ranges: u32, capacity: u32, spares: u32) -> Answer
    ensures { BytesAnswered (shape_of columns ranges capacity spares) result }
{
    layout::bytes_needed(Shape {
        columns,
        ranges,
        capacity,
        spares,
    })
}

// A store of a shape is made in the memory, and every entry of the list is free.
pub fn make(
    mem: &mut [u8],
    scans: &mut [ScanEntry],
    columns: u32,
    ranges: u32,
    capacity: u32,
    spares: u32,
) -> Answer
    ensures { Makes mem.old scans.old (shape_of columns ranges capacity spares) result mem.new scans.new }
{
    let shape = Shape {
        columns,
        ranges,
        capacity,
        spares,
    };
    let answer = making::make(mem, scans.len(), shape);
    free_made(scans, answer)
}

// ---- the calls on it

// A transaction of no known keeper is opened; the answer is its number.
pub fn begin(mem: &mut [u8], scans: &[ScanEntry]) -> Answer
    ensures { Serves mem.old scans.now Call.begin result mem.new scans.now }
{
    served(mem, scans, |m, t| changes::begin(m, t))
}

// A transaction of a keeper is opened; the answer is its number.
pub fn begin_as(mem: &mut [u8], scans: &[ScanEntry], keeper: u16) -> Answer
    ensures { Serves mem.old scans.now (Call.begin_as keeper) result mem.new scans.now }
{
    served(mem, scans, |m, t| begin_with_keeper(m, t, keeper))
}

// A row with a value for each column; the answer is its number. Values past the column count are not looked at; where fewer are lent, the others are 0.
pub fn insert(
    mem: &mut [u8],
    scans: &[ScanEntry],
    transaction: Transaction,
    values: &[i32],
) -> Answer
    ensures { Serves mem.old scans.now (Call.insert transaction.0 (padded values.now)) result mem.new scans.now }
{
    served(mem, scans, |m, t| insert_values(m, t, transaction, values))
}

// The columns of a mask are set in a row, bit k for column k; the answer is the last tail record's number.
pub fn update(
    mem: &mut [u8],
    scans: &[ScanEntry],
    transaction: Transaction,
    row: Row,
    mask: u16,
    values: &[i32],
) -> Answer
    ensures { Serves mem.old scans.now (Call.update transaction.0 row.0 mask (padded values.now)) result mem.new scans.now }
{
    served(
        mem,
        scans,
        |m, t| update_values(m, t, transaction, row, mask, values),
    )
}

// A row is deleted; the answer is the tail record's number.
pub fn delete(mem: &mut [u8], scans: &[ScanEntry], transaction: Transaction, row: Row) -> Answer
    ensures { Serves mem.old scans.now (Call.delete transaction.0 row.0) result mem.new scans.now }
{
    served(mem, scans, |m, t| changes::delete(m, t, transaction, row))
}

// What a transaction has changed holds from a stamp on.
pub fn commit(mem: &mut [u8], scans: &[ScanEntry], transaction: Transaction, stamp: Stamp) -> Answer
    ensures { Serves mem.old scans.now (Call.commit transaction.0 stamp.0) result mem.new scans.now }
{
    served(mem, scans, |m, t| changes::commit(m, t, transaction, stamp))
}

// What a transaction has changed is as if it had not been.
pub fn abort(mem: &mut [u8], scans: &[ScanEntry], transaction: Transaction) -> Answer
    ensures { Serves mem.old scans.now (Call.abort transaction.0) result mem.new scans.now }
{
    served(mem, scans, |m, t| changes::abort(m, t, transaction))
}

// The tail records of a range up to a number go into a new page of a column.
pub fn merge(mem: &mut [u8], scans: &[ScanEntry], range: u32, column: u32, through: Tail) -> Answer
    ensures { Serves mem.old scans.now (Call.merge range column through.0) result mem.new scans.now }
{
    served(
        mem,
        scans,
        |m, t| upkeep::merge(m, t, range, column, through),
    )
}

// Every waiting page that no open scan needs is free again; the answer is how many.
pub fn release(mem: &mut [u8], scans: &[ScanEntry]) -> Answer
    ensures { Serves mem.old scans.now Call.release result mem.new scans.now }
{
    served(mem, scans, |m, t| upkeep::release(m, t))
}

// The version of a row and column by the last commit.
pub fn latest(mem: &[u8], scans: &[ScanEntry], row: Row, column: u32) -> Answer
    ensures { Serves mem.now scans.now (Call.latest row.0 column) result mem.now scans.now }
{
    served_reading(mem, scans, |m, t| lookups::latest(m, t, row, column))
}

// The version of a row and column at a stamp.
pub fn read_at(mem: &[u8], scans: &[ScanEntry], stamp: Stamp, row: Row, column: u32) -> Answer
    ensures { Serves mem.now scans.now (Call.read_at stamp.0 row.0 column) result mem.now scans.now }
{
    served_reading(
        mem,
        scans,
        |m, t| lookups::read_at(m, t, stamp, row, column),
    )
}

// The keeper of the version of a row and column at a stamp.
pub fn keeper_at(mem: &[u8], scans: &[ScanEntry], stamp: Stamp, row: Row, column: u32) -> Answer
    ensures { Serves mem.now scans.now (Call.keeper_at stamp.0 row.0 column) result mem.now scans.now }
{
    served_reading(
        mem,
        scans,
        |m, t| lookups::keeper_at(m, t, stamp, row, column),
    )
}

// The version of a row and column for an open transaction, its own changes among what it sees.
pub fn own_read(
    mem: &[u8],
    scans: &[ScanEntry],
    transaction: Transaction,
    row: Row,
    column: u32,
) -> Answer
    ensures { Serves mem.now scans.now (Call.own_read transaction.0 row.0 column) result mem.now scans.now }
{
    served_reading(
        mem,
        scans,
        |m, t| lookups::own_read(m, t, transaction, row, column),
    )
}

// The version of a row and column for an open scan.
pub fn scan_read(mem: &[u8], scans: &[ScanEntry], scan: u32, row: Row, column: u32) -> Answer
    ensures { Serves mem.now scans.now (Call.scan_read scan row.0 column) result mem.now scans.now }
{
    served_reading(
        mem,
        scans,
        |m, t| lookups::scan_read(m, t, scan, row, column),
    )
}

// The count of the rows that an open scan sees, and the sum of their values of a column.
pub fn sum(mem: &[u8], scans: &[ScanEntry], scan: u32, column: u32) -> Answer
    ensures { Serves mem.now scans.now (Call.sum scan column) result mem.now scans.now }
{
    served_reading(mem, scans, |m, t| lookups::sum(m, t, scan, column))
}

// What the current page of a column holds for a row.
pub fn page_cell(mem: &[u8], scans: &[ScanEntry], column: u32, row: Row) -> Answer
    ensures { Serves mem.now scans.now (Call.page_cell column row.0) result mem.now scans.now }
{
    served_reading(mem, scans, |m, t| lookups::page_cell(m, t, column, row))
}

// The record through which the current page of a range and column is merged, and the records used of the range.
pub fn lineage(mem: &[u8], scans: &[ScanEntry], range: u32, column: u32) -> Answer
    ensures { Serves mem.now scans.now (Call.lineage range column) result mem.now scans.now }
{
    served_reading(mem, scans, |m, t| lookups::lineage(m, t, range, column))
}

// A scan is opened at a stamp; the answer is its number.
pub fn open_scan(mem: &mut [u8], scans: &mut [ScanEntry], stamp: Stamp) -> Answer
    ensures { Serves mem.old scans.old (Call.open_scan stamp.0) result mem.new scans.new }
{
    changed(mem, scans, |m, t| upkeep::open_scan(m, t, stamp))
}

// A scan is closed: its entry is free again.
pub fn close_scan(mem: &[u8], scans: &mut [ScanEntry], scan: u32) -> Answer
    ensures { Serves mem.now scans.old (Call.close scan) result mem.now scans.new }
{
    changed_reading(mem, scans, |m, t| upkeep::close_scan(m, t, scan))
}

// The stamps at which a row and column crossed a mark, between two stamps, into the lent slice; the answer is their number.
pub fn crossings(
    mem: &[u8],
    scans: &[ScanEntry],
    stamps: &mut [u32],
    row: Row,
    column: u32,
    mark: i32,
    from: Stamp,
    to: Stamp,
) -> Answer
    ensures { Gives mem.now scans.now (Call.crossings row.0 column mark from.0 to.0 stamps.old) (given result stamps.new) mem.now scans.now }
{
    listed(
        mem,
        scans,
        stamps,
        |m, t, l| lookups::crossings(m, t, l, row, column, mark, from, to),
    )
}

// ---- moves

// A store in the first form is moved into a second memory, in the newest form. The second memory is then the store, with this list; the first keeps its bytes and is none.
pub fn upgrade(mem: &[u8], scans: &[ScanEntry], second: &mut [u8]) -> Answer
    ensures { Moves mem.now scans.now (Call.move Form.Newest second.old) result second.new }
{
    moved(mem, scans, second, |m, t, s| moving::upgrade(m, t, s))
}

// And back, in the first form.
pub fn downgrade(mem: &[u8], scans: &[ScanEntry], second: &mut [u8]) -> Answer
    ensures { Moves mem.now scans.now (Call.move Form.First second.old) result second.new }
{
    moved(mem, scans, second, |m, t, s| moving::downgrade(m, t, s))
}
