// The crossings of a mark in a row and column: one forward pass over the tail records of the row's range. It keeps no table: of the values met it holds the last, and the side
// of the one before that. A value counts when one by another transaction follows, or at the end: until then a later setting of the same transaction replaces it.
#![tactic(auto)]

ghost use Rattle.std.specs.Prelude.{◌≡◌, ◌+◌, ◌*◌, ◌≤◌, ◌<◌, [], ◌∷◌, length};
ghost use Rattle.std.specs.Option.{MatchOption};
ghost use Rattle.std.specs.Int.{w32};
ghost use Rattle.std.proofs.Common.{SFits};
ghost use Rattle.layout.specs.View.{rows_given, view_of, Suffices};
ghost use Rattle.layout.specs.Sizes.{Proper};
ghost use Rattle.history.specs.History.{range_of};
ghost use Rattle.model.specs.Stored.{record_in};
ghost use Rattle.model.specs.Versions.{tells as tells_of, setter_number};
ghost use Rattle.model.specs.Preconditions.{shape_in, Linked};
ghost use Rattle.reading.specs.Setters.{RecordInside};
ghost use Rattle.crossing.specs.Steps.{most_found, counted, behind, noted, placed, told_at, Continues, NoneTold, listed_in, Lists, ListsAll};

use layout::codes::ORIGINAL;
use layout::{Region, Sizes};
use model::{Reader, Setter};
use reading::{answers_for, setter_at, setter_stamp, value};
use regions::read;
use rows::{range_of, sees_row};
use terms::{Answer, Fields, Refusal, Row, Stamp};
use words::of_word;

// What is asked: the row and column, the mark, and the stamp from which on crossings are listed.
#[derive(Clone, Copy)]
pub struct Query {
    pub row: Row,
    pub column: u32,
    pub mark: i32,
    pub from: Stamp,
}

// A value that a record tells, by what a crossing goes by: who set it, its stamp, and whether it is at or above the mark.
#[derive(Clone, Copy)]
pub struct Told {
    pub setter: u32,
    pub stamp: u32,
    pub above: bool,
}

// Where the pass stands: the last value met, the side of the one by another transaction before it, and the crossings so far, without the last value's.
#[derive(Clone, Copy)]
pub struct Pass {
    pub last: Option<Told>,
    pub before: Option<bool>,
    pub found: usize,
}

// Whether the record at a slot tells a value of the row and column. Each test returns by itself: as one expression of `&&` and `||` they
// make the pass take longer (docs/DESIGN-PASS.md, "Taken out after a look back").
#[tactic(auto, unfolding(model::specs::Versions::tells, model::specs::Stored::record_in))]
fn tells(mem: &[u8], s: Sizes, who: Reader, row: Row, c: u32, at: usize) -> bool
    requires suffices { Suffices s mem.now }
    requires at_lt_slots { (at < s.slots) × (c < 32) × (row.0 < s.rows) }
    ensures { result ≡ tells_of (view_of s mem.now) who row.0 c (record_in (view_of s mem.now) at) }
{
    if read(mem, s, Region::TailRow, at) != row.0 {
        return false;
    }
    if !answers_for(mem, s, who, at, c) {
        return false;
    }
    if read(mem, s, Region::TailKind, at) != ORIGINAL {
        return true;
    }
    sees_row(mem, s, who, row)
}

// The transaction that set a value.
#[tactic(auto, unfolding(model::specs::Versions::setter_number, model::specs::Stored::row_in, model::specs::Stored::record_in))]
fn setter_number(mem: &[u8], s: Sizes, row: Row, setter: Setter) -> u32
    requires suffices { Suffices s mem.now }
    requires row_lt_rows { (row.0 < s.rows) × RecordInside setter s.slots }
    ensures { result ≡ setter_number (view_of s mem.now) row.0 setter }
{
    match setter {
        Setter::Insert => read(mem, s, Region::RowTransaction, row.0 as usize),
        Setter::Update(at) => read(mem, s, Region::TailTransaction, at),
    }
}

// The value that the record at a slot tells of the row and column, if it tells one.
#[tactic(auto, unfolding(crate::specs::Steps::told_at, model::specs::Versions::dated_in))]
fn tell(mem: &[u8], s: Sizes, who: Reader, q: Query, at: usize) -> Option<Told>
    requires suffices { Suffices s mem.now }
    requires proper { Proper s }
    requires at_lt_slots { (at < s.slots) × (q.column < s.columns) × (q.row.0 < s.rows) }
    ensures { result ≡ told_at (shape_in s) (view_of s mem.now) who q at }
{
    if !tells(mem, s, who, q.row, q.column, at) {
        return None;
    }
    let setter = setter_at(mem, s, at);
    let word = value(mem, s, at, q.column);
    Some(Told {
        setter: setter_number(mem, s, q.row, setter),
        stamp: setter_stamp(mem, s, q.row, setter),
        above: q.mark <= of_word(word),
    })
}

// Whether a value is a crossing that is asked for, by the side of the one before it.
fn counts(before: Option<bool>, x: Told, from: Stamp) -> bool
    ensures { result ≡ counted from.0 before x }
{
    before.is_some_and(|side| side != x.above) && from.0 <= x.stamp
}

// A value is noted if it is a crossing that is asked for: its stamp goes to the next place, while that is below `limit`. Answers the crossings found with it.
fn note_value(
    x: Told,
    before: Option<bool>,
    found: usize,
    from: Stamp,
    limit: usize,
    stamps: &mut [u32],
) -> usize
    requires { (limit ≤ length stamps.old) × (found < most_found) }
    ensures { (result ≡ found + length (behind from.0 before (x ∷ []))) × (stamps.new ≡ placed limit found (behind from.0 before (x ∷ [])) stamps.old) }
{
    if !counts(before, x, from) {
        return found;
    }
    if found < limit {
        stamps[found] = x.stamp;
    }
    found + 1
}

// The last value is noted, if there is one and it is a crossing that is asked for.
fn note(p: Pass, from: Stamp, limit: usize, stamps: &mut [u32]) -> usize
    requires { (limit ≤ length stamps.old) × (p.found < most_found) }
    ensures { (result ≡ p.found + length (noted from.0 p)) × (stamps.new ≡ placed limit p.found (noted from.0 p) stamps.old) }
{
    let Some(last) = p.last else {
        return p.found;
    };
    note_value(last, p.before, p.found, from, limit, stamps)
}

// The pass goes over a value. A value by the transaction of the last one replaces it; at another's the last one is noted. The last value is taken apart once, at the
// beginning: where each step looks for it by itself, the compiler keeps it in memory, and the pass takes longer (docs/DESIGN-PASS.md).
fn turn(p: Pass, x: Told, from: Stamp, limit: usize, stamps: &mut [u32]) -> Pass
    requires { (limit ≤ length stamps.old) × (p.found < most_found) }
    ensures found_bound { result.found ≤ p.found + 1 }
    ensures continues { Continues from.0 limit x p stamps.old result stamps.new }
{
    let Some(last) = p.last else {
        return Pass { last: Some(x), ..p };
    };
    if last.setter == x.setter {
        return Pass { last: Some(x), ..p };
    }
    Pass {
        last: Some(x),
        before: Some(last.above),
        found: note_value(last, p.before, p.found, from, limit, stamps),
    }
}

// The number of the first record of the row from i on. A loop of its own, since where a range has many rows most of its records are passed over: here nothing is
// carried along but the number.
#[tactic(auto, using(crate::proofs::Standing::none_yet, crate::proofs::Standing::none_told))]
fn next_of_row(mem: &[u8], s: Sizes, row: Row, first: usize, i: usize, used: usize) -> Option<usize>
    requires suffices { Suffices s mem.now }
    requires first_value { (first ≡ range_of row.0 * s.capacity) × (first + used ≤ s.slots) × (i ≤ used) }
    ensures { MatchOption result (NoneTold (shape_in s) (view_of s mem.now) row.0 i used) (λ k. (i ≤ k) × (k < used) × NoneTold (shape_in s) (view_of s mem.now) row.0 i k) }
{
    for k in i..used {
        if read(mem, s, Region::TailRow, first + k) == row.0 {
            return Some(k);
        }
    }
    None
}

// The crossings that are asked for, of what a reader sees: how many there are, and the stamps of the first `limit` of them from the first place on.
#[tactic(auto, using(rows::proofs::Indices::row_range, layout::proofs::Indices::tail_in, layout::proofs::Indices::slots_few))]
fn list_first(
    mem: &[u8],
    s: Sizes,
    who: Reader,
    q: Query,
    limit: usize,
    stamps: &mut [u32],
) -> usize
    requires suffices { Suffices s mem.now }
    requires proper { Proper s }
    requires linked { Linked s (view_of s mem.now) }
    requires column_lt_columns { (q.column < s.columns) × (q.row.0 < rows_given (view_of s mem.now)) }
    requires limit_in_bounds { limit ≤ length stamps.old }
    ensures upper_bound { result ≤ s.capacity + 1 }
    ensures lists { Lists (listed_in (shape_in s) (view_of s mem.now) who q) limit result stamps.old stamps.new }
{
    let g = range_of(q.row);
    let used = read(mem, s, Region::Used, g) as usize;
    let first = g * s.capacity;
    let mut p = Pass {
        last: None,
        before: None,
        found: 0,
    };
    let mut next = next_of_row(mem, s, q.row, first, 0, used);
    while let Some(i) = next {
        if let Some(x) = tell(mem, s, who, q, first + i) {
            p = turn(p, x, q.from, limit, stamps);
        }
        next = next_of_row(mem, s, q.row, first, i + 1, used);
    }
    note(p, q.from, limit, stamps)
}

// All of them, and their number; where they outnumber the places, 21. They are counted before any is written, so that a slice too short for them stays as it is.
pub fn list_crossings(mem: &[u8], s: Sizes, who: Reader, q: Query, stamps: &mut [u32]) -> Answer
    requires suffices { Suffices s mem.now }
    requires proper { Proper s }
    requires linked { Linked s (view_of s mem.now) }
    requires column_lt_columns { (q.column < s.columns) × (q.row.0 < rows_given (view_of s mem.now)) × SFits w32 q.mark }
    ensures { ListsAll (listed_in (shape_in s) (view_of s mem.now) who q) result stamps.old stamps.new }
{
    let n = list_first(mem, s, who, q, 0, stamps);
    if n > stamps.len() {
        return Err(Refusal::List);
    }
    Ok(Fields::Listed(list_first(mem, s, who, q, n, stamps) as u32))
}
