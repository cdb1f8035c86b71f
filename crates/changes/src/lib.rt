// The calls that change transactions and rows, over a lent memory and the table of the scan list: begin, begin as, insert, update, delete, commit, abort. Each call is the
// test of memory and list, the call's own tests in the order of section 4 of docs/SPECIFICATION.md, and then the function that writes, over the needed bytes.
#![tactic(auto, using(admission::proofs::Served::serving, admission::proofs::Decided::deciding, crate::proofs::Tests::in_part, crate::proofs::Tests::row_inside, crate::proofs::Tests::range_inside, crate::proofs::Tests::lacks_is, crate::proofs::Tests::room_left, crate::proofs::Tests::full, crate::proofs::Tests::not_full, crate::proofs::Tests::none_free, crate::proofs::Tests::one_free, crate::proofs::Tests::free_at), unfolding(admission::specs::Tested::IfPassed, admission::specs::Tested::Finds, admission::specs::Tested::Tests, model::specs::Calls::tests_in, model::specs::Calls::begin_tests_in, model::specs::Calls::reply_in, model::specs::Calls::act_in, model::specs::Calls::entries_after))]

ghost use Rattle.std.specs.Prelude.{◌≡◌, List, ℤ, ◌<◌};
ghost use Rattle.terms.specs.Measures.{most_numbers};
ghost use Rattle.layout.specs.View.{rows_given, transactions_given, view_of};
ghost use Rattle.history.specs.History.{Call, verdict, range_of};
ghost use Rattle.model.specs.Calls.{begin_tests_in};
ghost use Rattle.model.specs.Writing.{records_wanted};
ghost use Rattle.model.specs.Preconditions.{shape_in, FreeAt, OpenAt};
ghost use Rattle.writing.specs.Steps.{Room};
ghost use Rattle.promise.specs.Promise.{ServesBy, kept};
ghost use Rattle.admission.specs.Admitted.{Fitted};
ghost use Rattle.admission.specs.Tested.{Says, Finds, IfPassed, Tests};
ghost use Rattle.changes.specs.Steps.{append_tests};

use admission::{admit, admit_in, earlier, given_range};
use conditions::{bad_mask, gone, held, lacks_records, open_index};
use layout::{HEADER_ROWS, HEADER_TRANSACTIONS, Region, Sizes};
use regions::read;
use scans::Scans;
use terms::limits::{MOST_COLUMNS, MOST_NUMBERS};
use terms::{Answer, Fields, Form, Refusal, Row, Stamp, Transaction};
use transactions::free_index;
use writing::records_wanted;

// ---- begin

// The keeper of a transaction that is begun without one.
const UNKNOWN_KEEPER: u32 = 0;

// The tests of begin, with a keeper or without; where they are passed, the index of the first free open entry.
fn begin_tests(mem: &[u8], s: Sizes) -> Result<usize, Refusal>
    requires { Fitted s mem.now }
    ensures says { Says result (verdict (begin_tests_in (view_of s mem.now))) }
    ensures finds { Finds result (FreeAt (view_of s mem.now)) }
    ensures if_passed { IfPassed result (transactions_given (view_of s mem.now) < most_numbers) }
{
    if read(mem, s, Region::Header, HEADER_TRANSACTIONS) >= MOST_NUMBERS {
        return Err(Refusal::Number);
    }
    let Some(free) = free_index(mem, s) else {
        return Err(Refusal::Busy);
    };
    Ok(free)
}

// A transaction of no known keeper is opened; the answer is its number.
pub fn begin(mem: &mut [u8], scans: Scans) -> Answer
    ensures { ServesBy scans mem.old Call.begin result mem.new kept }
{
    let (s, n) = admit(mem, scans)?;
    let free = begin_tests(mem, s)?;
    Ok(Fields::Number(transactions::begin(&mut mem[..n], s, free, UNKNOWN_KEEPER).0))
}

// A transaction of a keeper is opened; the answer is its number.
pub fn begin_as(mem: &mut [u8], scans: Scans, keeper: u32) -> Answer
    ensures { ServesBy scans mem.old (Call.begin_as keeper) result mem.new kept }
{
    let (s, n) = admit_in(mem, scans, Form::Newest)?;
    let free = begin_tests(mem, s)?;
    Ok(Fields::Number(transactions::begin(&mut mem[..n], s, free, keeper).0))
}

// ---- insert

// The tests of insert; where they are passed, the transaction's index.
fn insert_tests(mem: &[u8], s: Sizes, t: Transaction) -> Result<usize, Refusal>
    requires { Fitted s mem.now }
    ensures tests { (vs : List ℤ) → Tests s mem.now (Call.insert t.0 vs) result }
    ensures finds { Finds result (OpenAt (view_of s mem.now) t.0) }
    ensures if_passed { IfPassed result (rows_given (view_of s mem.now) < s.rows) }
{
    let Some(at) = open_index(mem, s, t) else {
        return Err(Refusal::Transaction);
    };
    if read(mem, s, Region::Header, HEADER_ROWS) as usize >= s.rows {
        return Err(Refusal::Full);
    }
    Ok(at)
}

// A row with a value for each column; the answer is its number. Values past the column count are not looked at.
pub fn insert(
    mem: &mut [u8],
    scans: Scans,
    transaction: Transaction,
    values: [i32; MOST_COLUMNS],
) -> Answer
    ensures { ServesBy scans mem.old (Call.insert transaction.0 values) result mem.new kept }
{
    let (s, n) = admit(mem, scans)?;
    let at = insert_tests(mem, s, transaction)?;
    Ok(Fields::Number(writing::insert(&mut mem[..n], s, at, transaction, values).0))
}

// ---- update and delete

// The last tests of a call that appends n tail records to a row: whether it is held, gone, or its range g lacks them. `at` is the transaction's index.
fn append_tests(
    mem: &[u8],
    s: Sizes,
    at: usize,
    t: Transaction,
    row: Row,
    g: usize,
    n: u32,
) -> Result<usize, Refusal>
    requires fitted { Fitted s mem.now }
    requires open_at { OpenAt (view_of s mem.now) t.0 at × (row.0 < rows_given (view_of s mem.now)) × (g ≡ range_of row.0) }
    ensures says { Says result (verdict (append_tests (shape_in s) (view_of s mem.now) t.0 row.0 n)) }
    ensures finds { Finds result (OpenAt (view_of s mem.now) t.0) }
    ensures if_passed { IfPassed result (Room s (view_of s mem.now) row.0 n) }
{
    if held(mem, s, t, row) {
        return Err(Refusal::Held);
    }
    if gone(mem, s, t, row) {
        return Err(Refusal::Gone);
    }
    if lacks_records(mem, s, g, n) {
        return Err(Refusal::Tail);
    }
    Ok(at)
}

// The tests of update; where they are passed, the transaction's index.
fn update_tests(mem: &[u8], s: Sizes, t: Transaction, row: Row, mask: u32) -> Result<usize, Refusal>
    requires { Fitted s mem.now }
    ensures tests { (vs : List ℤ) → Tests s mem.now (Call.update t.0 row.0 mask vs) result }
    ensures finds { Finds result (OpenAt (view_of s mem.now) t.0) }
    ensures if_passed { IfPassed result (Room s (view_of s mem.now) row.0 (records_wanted (view_of s mem.now) row.0 mask)) }
{
    let Some(at) = open_index(mem, s, t) else {
        return Err(Refusal::Transaction);
    };
    let Some(g) = given_range(mem, s, row) else {
        return Err(Refusal::Row);
    };
    if bad_mask(s.columns, mask) {
        return Err(Refusal::Mask);
    }
    append_tests(mem, s, at, t, row, g, records_wanted(mem, s, row, mask))
}

// The columns of a mask are set in a row; the answer is the last tail record's number.
pub fn update(
    mem: &mut [u8],
    scans: Scans,
    transaction: Transaction,
    row: Row,
    mask: u16,
    values: [i32; MOST_COLUMNS],
) -> Answer
    ensures { ServesBy scans mem.old (Call.update transaction.0 row.0 mask values) result mem.new kept }
{
    let (s, n) = admit(mem, scans)?;
    let m = mask as u32;
    let at = update_tests(mem, s, transaction, row, m)?;
    Ok(Fields::Number(writing::update(&mut mem[..n], s, at, transaction, row, m, values).0))
}

// The tests of delete; where they are passed, the transaction's index.
fn delete_tests(mem: &[u8], s: Sizes, t: Transaction, row: Row) -> Result<usize, Refusal>
    requires { Fitted s mem.now }
    ensures tests { Tests s mem.now (Call.delete t.0 row.0) result }
    ensures finds { Finds result (OpenAt (view_of s mem.now) t.0) }
    ensures if_passed { IfPassed result (Room s (view_of s mem.now) row.0 1) }
{
    let Some(at) = open_index(mem, s, t) else {
        return Err(Refusal::Transaction);
    };
    let Some(g) = given_range(mem, s, row) else {
        return Err(Refusal::Row);
    };
    append_tests(mem, s, at, t, row, g, 1)
}

// A row is deleted; the answer is the tail record's number.
pub fn delete(mem: &mut [u8], scans: Scans, transaction: Transaction, row: Row) -> Answer
    ensures { ServesBy scans mem.old (Call.delete transaction.0 row.0) result mem.new kept }
{
    let (s, n) = admit(mem, scans)?;
    let at = delete_tests(mem, s, transaction, row)?;
    Ok(Fields::Number(writing::delete(&mut mem[..n], s, at, transaction, row).0))
}

// ---- commit and abort

// The tests of commit; where they are passed, the transaction's index.
fn commit_tests(mem: &[u8], s: Sizes, t: Transaction, stamp: Stamp) -> Result<usize, Refusal>
    requires { Fitted s mem.now }
    ensures tests { Tests s mem.now (Call.commit t.0 stamp.0) result }
    ensures finds { Finds result (OpenAt (view_of s mem.now) t.0) }
{
    let Some(at) = open_index(mem, s, t) else {
        return Err(Refusal::Transaction);
    };
    if earlier(mem, s, stamp) {
        return Err(Refusal::Time);
    }
    Ok(at)
}

// What a transaction has changed holds from a stamp on.
pub fn commit(mem: &mut [u8], scans: Scans, transaction: Transaction, stamp: Stamp) -> Answer
    ensures { ServesBy scans mem.old (Call.commit transaction.0 stamp.0) result mem.new kept }
{
    let (s, n) = admit(mem, scans)?;
    let at = commit_tests(mem, s, transaction, stamp)?;
    transactions::commit(&mut mem[..n], s, at, stamp);
    Ok(Fields::Done)
}

// The test of abort; where it is passed, the transaction's index.
fn abort_tests(mem: &[u8], s: Sizes, t: Transaction) -> Result<usize, Refusal>
    requires { Fitted s mem.now }
    ensures tests { Tests s mem.now (Call.abort t.0) result }
    ensures finds { Finds result (OpenAt (view_of s mem.now) t.0) }
{
    let Some(at) = open_index(mem, s, t) else {
        return Err(Refusal::Transaction);
    };
    Ok(at)
}

// What a transaction has changed is as if it had not been.
pub fn abort(mem: &mut [u8], scans: Scans, transaction: Transaction) -> Answer
    ensures { ServesBy scans mem.old (Call.abort transaction.0) result mem.new kept }
{
    let (s, n) = admit(mem, scans)?;
    let at = abort_tests(mem, s, transaction)?;
    transactions::abort(&mut mem[..n], s, at);
    Ok(Fields::Done)
}
