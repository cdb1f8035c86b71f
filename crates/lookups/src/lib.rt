// The calls that only read, over the lent memory and the table of the lent scan list: latest, read at, keeper at, own read, scan read, sum, page cell, lineage and crossings. Each call is
// the test of memory and list, the call's own tests in the order of section 4 of docs/SPECIFICATION.md, and then the function that reads.
#![tactic(auto, using(admission::proofs::Served::serving, admission::proofs::Decided::deciding, crate::proofs::Answers::cell_inside, crate::proofs::Answers::cell_there, crate::proofs::Answers::reader_answer, admission::proofs::Decided::scan_entry_lem), unfolding(admission::specs::Tested::IfPassed, admission::specs::Tested::Finds, admission::specs::Tested::Tests, admission::specs::Tested::TestsBy, model::specs::Calls::tests_in, model::specs::Calls::read_at_tests_in, model::specs::Calls::reply_in, model::specs::Calls::act_in, model::specs::Calls::entries_after))]

ghost use Rattle.std.specs.Prelude.{◌≡◌, List, ℕ, ◌<◌};
ghost use Rattle.terms.specs.Measures.{most_scans};
ghost use Rattle.layout.specs.View.{view_of};
ghost use Rattle.history.specs.History.{Call, given, verdict, range_of};
ghost use Rattle.model.specs.Calls.{read_at_tests_in};
ghost use Rattle.model.specs.Versions.{crossings_in};
ghost use Rattle.model.specs.Preconditions.{shape_in, OpenAt};
ghost use Rattle.crossing.specs.Steps.{ListsAll};
ghost use Rattle.promise.specs.Promise.{ServesBy, GivesBy, kept};
ghost use Rattle.admission.specs.Admitted.{Fitted};
ghost use Rattle.admission.specs.Tested.{Says, Finds, IfPassed, Tests, TestsBy};
ghost use Rattle.admission.specs.Given.{ScanAt};
ghost use Rattle.lookups.specs.Lookups.{row_tests, span_tests, CellThere, IsScan, Outcomes};

use admission::{
    admit, admit_in, given_range, later, latest_reader, no_column, no_range, no_span, reader_at,
};
use conditions::{open_index, own_changes};
use crossing::{Query, list_crossings};
use layout::{Region, Sizes};
use reading::base_pages::{cell, current_page, scan_page};
use reading::{read_cell, read_current, read_keeper, scan_reader};
use regions::read;
use rows::range_of;
use scans::{Scans, find_scan};
use summing::sum_rows;
use terms::{Answer, Fields, Form, Refusal, Row, ScanEntry, Stamp, Transaction};
use words::of_word;

// ---- latest, read at, own read

// The tests of a row and a column, which several calls share; where they are passed, the row's range.
fn row_tests(mem: &[u8], s: Sizes, row: Row, column: u32) -> Result<usize, Refusal>
    requires { Fitted s mem.now }
    ensures says { Says result (verdict (row_tests (shape_in s) (view_of s mem.now) row.0 column)) }
    ensures if_passed { IfPassed result (CellThere s (view_of s mem.now) row.0 column) }
{
    let Some(g) = given_range(mem, s, row) else {
        return Err(Refusal::Row);
    };
    if no_column(s, column) {
        return Err(Refusal::Column);
    }
    Ok(g)
}

// The version of a row and column by the last commit.
pub fn latest(mem: &[u8], t: Scans, row: Row, column: u32) -> Answer
    ensures { ServesBy t mem.now (Call.latest row.0 column) result mem.now kept }
{
    let (s, _) = admit(mem, t)?;
    row_tests(mem, s, row, column)?;
    let who = latest_reader(mem, s, Transaction(0));
    Ok(read_current(mem, s, who, row, column))
}

// The tests of read at, and of its keeper; where they are passed, the row's range.
fn read_at_tests(
    mem: &[u8],
    s: Sizes,
    stamp: Stamp,
    row: Row,
    column: u32,
) -> Result<usize, Refusal>
    requires { Fitted s mem.now }
    ensures says { Says result (verdict (read_at_tests_in (shape_in s) (view_of s mem.now) stamp.0 row.0 column)) }
    ensures if_passed { IfPassed result (CellThere s (view_of s mem.now) row.0 column) }
{
    if later(mem, s, stamp) {
        return Err(Refusal::Time);
    }
    row_tests(mem, s, row, column)
}

// The version of a row and column at a stamp.
pub fn read_at(mem: &[u8], t: Scans, stamp: Stamp, row: Row, column: u32) -> Answer
    ensures { ServesBy t mem.now (Call.read_at stamp.0 row.0 column) result mem.now kept }
{
    let (s, _) = admit(mem, t)?;
    read_at_tests(mem, s, stamp, row, column)?;
    let who = reader_at(stamp, Transaction(0));
    Ok(read_current(mem, s, who, row, column))
}

// The keeper of the version of a row and column at a stamp.
pub fn keeper_at(mem: &[u8], t: Scans, stamp: Stamp, row: Row, column: u32) -> Answer
    ensures { ServesBy t mem.now (Call.keeper_at stamp.0 row.0 column) result mem.now kept }
{
    let (s, _) = admit_in(mem, t, Form::Newest)?;
    read_at_tests(mem, s, stamp, row, column)?;
    let who = reader_at(stamp, Transaction(0));
    Ok(read_keeper(mem, s, who, row, column))
}

// The tests of own read; where they are passed, the index of the transaction.
fn own_read_tests(
    mem: &[u8],
    s: Sizes,
    transaction: Transaction,
    row: Row,
    column: u32,
) -> Result<usize, Refusal>
    requires { Fitted s mem.now }
    ensures tests { Tests s mem.now (Call.own_read transaction.0 row.0 column) result }
    ensures finds { Finds result (OpenAt (view_of s mem.now) transaction.0) }
    ensures if_passed { IfPassed result (CellThere s (view_of s mem.now) row.0 column) }
{
    let Some(at) = open_index(mem, s, transaction) else {
        return Err(Refusal::Transaction);
    };
    row_tests(mem, s, row, column)?;
    Ok(at)
}

// The version of a row and column for an open transaction, its own changes among what it sees.
pub fn own_read(mem: &[u8], t: Scans, transaction: Transaction, row: Row, column: u32) -> Answer
    ensures { ServesBy t mem.now (Call.own_read transaction.0 row.0 column) result mem.now kept }
{
    let (s, _) = admit(mem, t)?;
    let at = own_read_tests(mem, s, transaction, row, column)?;
    let who = latest_reader(mem, s, own_changes(mem, s, at));
    Ok(read_current(mem, s, who, row, column))
}

// ---- scan read and sum

// The open scan at entry j of the table.
fn scan_at(t: Scans, j: usize, scan: u32) -> ScanEntry
    requires { j < most_scans }
    ensures { IsScan t scan j result }
{
    let stamps = t.stamps;
    let merges = t.merges;
    let commits = t.commits;
    ScanEntry {
        number: scan,
        stamp: stamps[j],
        merges: merges[j],
        commits: commits[j],
    }
}

// The tests of scan read; where they are passed, the scan's index in the table.
fn scan_read_tests(
    mem: &[u8],
    s: Sizes,
    t: Scans,
    scan: u32,
    row: Row,
    column: u32,
) -> Result<usize, Refusal>
    requires { Fitted s mem.now }
    ensures tests_by { TestsBy t s mem.now (Call.scan_read scan row.0 column) result }
    ensures finds { Finds result (ScanAt t scan) }
    ensures if_passed { IfPassed result (CellThere s (view_of s mem.now) row.0 column) }
{
    let Some(j) = find_scan(t, scan) else {
        return Err(Refusal::Scan);
    };
    row_tests(mem, s, row, column)?;
    Ok(j)
}

// The version of a row and column for an open scan, on the page that was current at its opening.
pub fn scan_read(mem: &[u8], t: Scans, scan: u32, row: Row, column: u32) -> Answer
    ensures { ServesBy t mem.now (Call.scan_read scan row.0 column) result mem.now kept }
{
    let (s, _) = admit(mem, t)?;
    let j = scan_read_tests(mem, s, t, scan, row, column)?;
    let found = scan_at(t, j, scan);
    let page = scan_page(mem, s, found.merges, range_of(row), column);
    Ok(read_cell(mem, s, scan_reader(found), page, row, column))
}

// The tests of sum; where they are passed, the scan's index in the table.
fn sum_tests(s: Sizes, t: Scans, scan: u32, column: u32) -> Result<usize, Refusal>
    ensures by_index { (m : List ℕ) → TestsBy t s m (Call.sum scan column) result }
    ensures finds { Finds result (ScanAt t scan) }
    ensures if_passed { IfPassed result (column < s.columns) }
{
    let Some(j) = find_scan(t, scan) else {
        return Err(Refusal::Scan);
    };
    if no_column(s, column) {
        return Err(Refusal::Column);
    }
    Ok(j)
}

// The count of the rows that an open scan sees, and the sum of their values of a column.
pub fn sum(mem: &[u8], t: Scans, scan: u32, column: u32) -> Answer
    ensures { ServesBy t mem.now (Call.sum scan column) result mem.now kept }
{
    let (s, _) = admit(mem, t)?;
    let j = sum_tests(s, t, scan, column)?;
    sum_rows(mem, s, scan_at(t, j, scan), column)
}

// ---- page cell and lineage

// The tests of page cell; where they are passed, the row's range.
fn page_cell_tests(mem: &[u8], s: Sizes, column: u32, row: Row) -> Result<usize, Refusal>
    requires { Fitted s mem.now }
    ensures tests { Tests s mem.now (Call.page_cell column row.0) result }
    ensures finds { Finds result (λ g. g ≡ range_of row.0) }
    ensures if_passed { IfPassed result (CellThere s (view_of s mem.now) row.0 column) }
{
    if no_column(s, column) {
        return Err(Refusal::Column);
    }
    let Some(g) = given_range(mem, s, row) else {
        return Err(Refusal::Row);
    };
    Ok(g)
}

// What the current page of a column holds for a row.
pub fn page_cell(mem: &[u8], t: Scans, column: u32, row: Row) -> Answer
    ensures { ServesBy t mem.now (Call.page_cell column row.0) result mem.now kept }
{
    let (s, _) = admit(mem, t)?;
    let g = page_cell_tests(mem, s, column, row)?;
    let page = current_page(mem, s, g, column);
    Ok(Fields::Value(of_word(cell(mem, s, page, row))))
}

// The tests of lineage; where they are passed, the range.
fn lineage_tests(s: Sizes, range: u32, column: u32) -> Result<usize, Refusal>
    ensures by_index { (m : List ℕ) → Tests s m (Call.lineage range column) result }
    ensures finds { Finds result (λ g. g ≡ range) }
    ensures finds_2 { Finds result (λ g. g < s.ranges) }
    ensures if_passed { IfPassed result (column < s.columns) }
{
    if no_range(s, range) {
        return Err(Refusal::Range);
    }
    if no_column(s, column) {
        return Err(Refusal::Column);
    }
    Ok(range as usize)
}

// The record through which the current page of a range and column is merged, and the records used of the range.
pub fn lineage(mem: &[u8], t: Scans, range: u32, column: u32) -> Answer
    ensures { ServesBy t mem.now (Call.lineage range column) result mem.now kept }
{
    let (s, _) = admit(mem, t)?;
    let g = lineage_tests(s, range, column)?;
    let page = current_page(mem, s, g, column);
    Ok(Fields::Lineage(
        read(mem, s, Region::PageLineage, page),
        read(mem, s, Region::Used, g),
    ))
}

// ---- crossings

// The tests of crossings but for the last, which takes their number; where they are passed, the row's range.
fn crossings_tests(
    mem: &[u8],
    s: Sizes,
    row: Row,
    column: u32,
    from: Stamp,
    to: Stamp,
) -> Result<usize, Refusal>
    requires { Fitted s mem.now }
    ensures says { Says result (verdict (span_tests (shape_in s) (view_of s mem.now) row.0 column from.0 to.0)) }
    ensures if_passed { IfPassed result (CellThere s (view_of s mem.now) row.0 column) }
{
    let Some(g) = given_range(mem, s, row) else {
        return Err(Refusal::Row);
    };
    if no_column(s, column) {
        return Err(Refusal::Column);
    }
    if no_span(mem, s, from, to) {
        return Err(Refusal::Time);
    }
    Ok(g)
}

// The crossings of a row and column that are there, by the commits up to `to`.
fn list_between(
    mem: &[u8],
    s: Sizes,
    row: Row,
    column: u32,
    mark: i32,
    from: Stamp,
    to: Stamp,
    stamps: &mut [u32],
) -> Answer
    requires fitted { Fitted s mem.now }
    requires cell_there { CellThere s (view_of s mem.now) row.0 column }
    ensures { ListsAll (crossings_in (shape_in s) (view_of s mem.now) row.0 column mark from.0 to.0) result stamps.old stamps.new }
{
    let who = reader_at(to, Transaction(0));
    let q = Query {
        row,
        column,
        mark,
        from,
    };
    list_crossings(mem, s, who, q, stamps)
}

// The call, on a memory that passed the test.
fn tested_crossings(
    mem: &[u8],
    s: Sizes,
    row: Row,
    column: u32,
    mark: i32,
    from: Stamp,
    to: Stamp,
    stamps: &mut [u32],
) -> Answer
    requires { Fitted s mem.now }
    ensures { Outcomes s mem.now (Call.crossings row.0 column mark from.0 to.0 stamps.old) result stamps.new }
{
    crossings_tests(mem, s, row, column, from, to)?;
    list_between(mem, s, row, column, mark, from, to, stamps)
}

// The stamps at which a row and column crossed a mark, between two stamps: how many, and the stamps from the slice's first place on.
pub fn crossings(
    mem: &[u8],
    t: Scans,
    stamps: &mut [u32],
    row: Row,
    column: u32,
    mark: i32,
    from: Stamp,
    to: Stamp,
) -> Answer
    ensures { GivesBy t mem.now (Call.crossings row.0 column mark from.0 to.0 stamps.old) (given result stamps.new) mem.now kept }
{
    let (s, _) = admit(mem, t)?;
    tested_crossings(mem, s, row, column, mark, from, to, stamps)
}
