// The exports for C and Rust: every call by name, over the lent memory and the lent list of open scans, the making of a store, the bytes that it
// needs, and a test of memory and list. Numbers are plain, and the answer is a `Reply`. A slice passes as a pointer and a length (of the list: in entries), a
// number as itself, and the reply by value. Nothing is asked of the numbers, the bytes or the list.
#![tactic(auto, unfolding(crate::specs::Replies::Replied, crate::specs::Replies::Replies, crate::specs::Replies::RepliesWith, crate::specs::Replies::RepliesMoved, crate::specs::Replies::RepliesMade))]

mod reply;

ghost use Rattle.std.specs.Prelude.{◌≡◌};
ghost use Rattle.terms.specs.declared.Form.{Form};
ghost use Rattle.layout.specs.Sizes.{shape_of, BytesAnswered};
ghost use Rattle.history.specs.History.{Call, given};
ghost use Rattle.calls.specs.Values.{padded};
ghost use Rattle.deskrook.specs.Replies.{reply_of, usability, Replied, Replies, RepliesWith, RepliesMoved, RepliesMade};

use lent::table;
use reply::{Reply, check_reply, encode};
use terms::{Row, ScanEntry, Stamp, Tail, Transaction};

// A transaction of no known keeper is opened; the answer is its number.
#[unsafe(no_mangle)]
pub extern "C" fn deskrook_begin(mem: &mut [u8], scans: &[ScanEntry]) -> Reply
    ensures { Replies mem.old scans.now Call.begin result mem.new scans.now }
{
    encode(calls::begin(mem, scans))
}

// A transaction of a keeper is opened; the answer is its number.
#[unsafe(no_mangle)]
pub extern "C" fn deskrook_begin_as(mem: &mut [u8], scans: &[ScanEntry], keeper: u16) -> Reply
    ensures { Replies mem.old scans.now (Call.begin_as keeper) result mem.new scans.now }
{
    encode(calls::begin_as(mem, scans, keeper))
}

// A row with a value for each column; the answer is its number. Values past the column count are not looked at; where fewer are lent, the others are 0.
#[unsafe(no_mangle)]
pub extern "C" fn deskrook_insert(
    mem: &mut [u8],
    scans: &[ScanEntry],
    transaction: Transaction,
    values: &[i32],
) -> Reply
    ensures { Replies mem.old scans.now (Call.insert transaction.0 (padded values.now)) result mem.new scans.now }
{
    encode(calls::insert(mem, scans, transaction, values))
}

// The columns of a mask are set in a row, bit k for column k; the answer is the last tail record's number.
#[unsafe(no_mangle)]
pub extern "C" fn deskrook_update(
    mem: &mut [u8],
    scans: &[ScanEntry],
    transaction: Transaction,
    row: Row,
    mask: u16,
    values: &[i32],
) -> Reply
    ensures { Replies mem.old scans.now (Call.update transaction.0 row.0 mask (padded values.now)) result mem.new scans.now }
{
    encode(calls::update(mem, scans, transaction, row, mask, values))
}

// A row is deleted; the answer is the tail record's number.
#[unsafe(no_mangle)]
pub extern "C" fn deskrook_delete(
    mem: &mut [u8],
    scans: &[ScanEntry],
    transaction: Transaction,
    row: Row,
) -> Reply
    ensures { Replies mem.old scans.now (Call.delete transaction.0 row.0) result mem.new scans.now }
{
    encode(calls::delete(mem, scans, transaction, row))
}

// What a transaction has changed holds from a stamp on.
#[unsafe(no_mangle)]
pub extern "C" fn deskrook_commit(
    mem: &mut [u8],
    scans: &[ScanEntry],
    transaction: Transaction,
    stamp: Stamp,
) -> Reply
    ensures { Replies mem.old scans.now (Call.commit transaction.0 stamp.0) result mem.new scans.now }
{
    encode(calls::commit(mem, scans, transaction, stamp))
}

// What a transaction has changed is as if it had not been.
#[unsafe(no_mangle)]
pub extern "C" fn deskrook_abort(
    mem: &mut [u8],
    scans: &[ScanEntry],
    transaction: Transaction,
) -> Reply
    ensures { Replies mem.old scans.now (Call.abort transaction.0) result mem.new scans.now }
{
    encode(calls::abort(mem, scans, transaction))
}

// The tail records of a range up to a number go into a new page of a column.
#[unsafe(no_mangle)]
pub extern "C" fn deskrook_merge(
    mem: &mut [u8],
    scans: &[ScanEntry],
    range: u32,
    column: u32,
    through: Tail,
) -> Reply
    ensures { Replies mem.old scans.now (Call.merge range column through.0) result mem.new scans.now }
{
    encode(calls::merge(mem, scans, range, column, through))
}

// Every waiting page that no open scan needs is free again; the answer is how many.
#[unsafe(no_mangle)]
pub extern "C" fn deskrook_release(mem: &mut [u8], scans: &[ScanEntry]) -> Reply
    ensures { Replies mem.old scans.now Call.release result mem.new scans.now }
{
    encode(calls::release(mem, scans))
}

// The version of a row and column by the last commit.
#[unsafe(no_mangle)]
pub extern "C" fn deskrook_latest(mem: &[u8], scans: &[ScanEntry], row: Row, column: u32) -> Reply
    ensures { Replies mem.now scans.now (Call.latest row.0 column) result mem.now scans.now }
{
    encode(calls::latest(mem, scans, row, column))
}

// The version of a row and column at a stamp.
#[unsafe(no_mangle)]
pub extern "C" fn deskrook_read_at(
    mem: &[u8],
    scans: &[ScanEntry],
    stamp: Stamp,
    row: Row,
    column: u32,
) -> Reply
    ensures { Replies mem.now scans.now (Call.read_at stamp.0 row.0 column) result mem.now scans.now }
{
    encode(calls::read_at(mem, scans, stamp, row, column))
}

// The keeper of the version of a row and column at a stamp.
#[unsafe(no_mangle)]
pub extern "C" fn deskrook_keeper_at(
    mem: &[u8],
    scans: &[ScanEntry],
    stamp: Stamp,
    row: Row,
    column: u32,
) -> Reply
    ensures { Replies mem.now scans.now (Call.keeper_at stamp.0 row.0 column) result mem.now scans.now }
{
    encode(calls::keeper_at(mem, scans, stamp, row, column))
}

// The version of a row and column for an open transaction, its own changes among what it sees.
#[unsafe(no_mangle)]
pub extern "C" fn deskrook_own_read(
    mem: &[u8],
    scans: &[ScanEntry],
    transaction: Transaction,
    row: Row,
    column: u32,
) -> Reply
    ensures { Replies mem.now scans.now (Call.own_read transaction.0 row.0 column) result mem.now scans.now }
{
    encode(calls::own_read(mem, scans, transaction, row, column))
}

// The version of a row and column for an open scan.
#[unsafe(no_mangle)]
pub extern "C" fn deskrook_scan_read(
    mem: &[u8],
    scans: &[ScanEntry],
    scan: u32,
    row: Row,
    column: u32,
) -> Reply
    ensures { Replies mem.now scans.now (Call.scan_read scan row.0 column) result mem.now scans.now }
{
    encode(calls::scan_read(mem, scans, scan, row, column))
}

// The count of the rows that an open scan sees, and the sum of their values of a column.
#[unsafe(no_mangle)]
pub extern "C" fn deskrook_sum(mem: &[u8], scans: &[ScanEntry], scan: u32, column: u32) -> Reply
    ensures { Replies mem.now scans.now (Call.sum scan column) result mem.now scans.now }
{
    encode(calls::sum(mem, scans, scan, column))
}

// What the current page of a column holds for a row.
#[unsafe(no_mangle)]
pub extern "C" fn deskrook_page_cell(
    mem: &[u8],
    scans: &[ScanEntry],
    column: u32,
    row: Row,
) -> Reply
    ensures { Replies mem.now scans.now (Call.page_cell column row.0) result mem.now scans.now }
{
    encode(calls::page_cell(mem, scans, column, row))
}

// The record through which the current page of a range and column is merged, and the records used of the range.
#[unsafe(no_mangle)]
pub extern "C" fn deskrook_lineage(
    mem: &[u8],
    scans: &[ScanEntry],
    range: u32,
    column: u32,
) -> Reply
    ensures { Replies mem.now scans.now (Call.lineage range column) result mem.now scans.now }
{
    encode(calls::lineage(mem, scans, range, column))
}

// The stamps at which a row and column crossed a mark, between two stamps, into the lent slice; the answer is their number.
#[unsafe(no_mangle)]
pub extern "C" fn deskrook_crossings(
    mem: &[u8],
    scans: &[ScanEntry],
    stamps: &mut [u32],
    row: Row,
    column: u32,
    mark: i32,
    from: Stamp,
    to: Stamp,
) -> Reply
    ensures { RepliesWith mem.now scans.now (Call.crossings row.0 column mark from.0 to.0 stamps.old) (given result stamps.new) mem.now scans.now }
{
    encode(calls::crossings(mem, scans, stamps, row, column, mark, from, to))
}

// A scan is opened at a stamp; the answer is its number.
#[unsafe(no_mangle)]
pub extern "C" fn deskrook_open_scan(mem: &mut [u8], scans: &mut [ScanEntry], stamp: Stamp) -> Reply
    ensures { Replies mem.old scans.old (Call.open_scan stamp.0) result mem.new scans.new }
{
    encode(calls::open_scan(mem, scans, stamp))
}

// A scan is closed: its entry is free again.
#[unsafe(no_mangle)]
pub extern "C" fn deskrook_close_scan(mem: &[u8], scans: &mut [ScanEntry], scan: u32) -> Reply
    ensures { Replies mem.now scans.old (Call.close scan) result mem.now scans.new }
{
    encode(calls::close_scan(mem, scans, scan))
}

// A store in the first form is moved into a second memory, in the newest form.
#[unsafe(no_mangle)]
pub extern "C" fn deskrook_upgrade(mem: &[u8], scans: &[ScanEntry], second: &mut [u8]) -> Reply
    ensures { RepliesMoved mem.now scans.now Form.Newest second.old result second.new }
{
    encode(calls::upgrade(mem, scans, second))
}

// And back, in the first form.
#[unsafe(no_mangle)]
pub extern "C" fn deskrook_downgrade(mem: &[u8], scans: &[ScanEntry], second: &mut [u8]) -> Reply
    ensures { RepliesMoved mem.now scans.now Form.First second.old result second.new }
{
    encode(calls::downgrade(mem, scans, second))
}

// A store of a shape is made in the memory, and every entry of the list is free.
#[unsafe(no_mangle)]
pub extern "C" fn deskrook_make(
    mem: &mut [u8],
    scans: &mut [ScanEntry],
    columns: u32,
    ranges: u32,
    capacity: u32,
    spares: u32,
) -> Reply
    ensures { RepliesMade mem.old scans.old (shape_of columns ranges capacity spares) result mem.new scans.new }
{
    encode(calls::make(mem, scans, columns, ranges, capacity, spares))
}

// The bytes that a store of a shape needs, within the bound of rule 8.3 of docs/SPECIFICATION.md.
#[unsafe(no_mangle)]
pub extern "C" fn deskrook_bytes_needed(
    columns: u32,
    ranges: u32,
    capacity: u32,
    spares: u32,
) -> Reply
    ensures { Replied (BytesAnswered (shape_of columns ranges capacity spares)) result }
{
    encode(calls::bytes_needed(columns, ranges, capacity, spares))
}

// Whether memory and list are usable: the number of the stored form, or 2 where every call on them would be refused so.
#[unsafe(no_mangle)]
pub extern "C" fn deskrook_check(mem: &[u8], scans: &[ScanEntry]) -> Reply
    ensures { result ≡ reply_of (usability mem.now scans.now) }
{
    let t = table(scans);
    check_reply(mem, t)
}
