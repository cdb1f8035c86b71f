// What every call begins with: the test of the lent memory and of the scan list, and what the call's own tests find. The conditions here are
// rules 3.5, 3.6, 3.7 and 3.13 of docs/SPECIFICATION.md, which several calls share. What follows for a whole call is in specs/ and proofs/.
#![tactic(auto)]

ghost use Rattle.std.specs.Prelude.{◌≡◌, ◌*◌};
ghost use Rattle.layout.specs.View.{last_stamp, view_of, Suffices};
ghost use Rattle.history.specs.History.{no_column, no_range};
ghost use Rattle.history.specs.Forms.{is_form};
ghost use Rattle.model.specs.Reading.{reader, all_up_to};
ghost use Rattle.model.specs.Calls.{earlier_in, later_in, no_span_in};
ghost use Rattle.model.specs.Preconditions.{shape_in};
ghost use Rattle.admission.specs.Admitted.{Admits, every_form};
ghost use Rattle.admission.specs.Given.{range_given};

use layout::{HEADER_ROWS, HEADER_STAMP, Region, Sizes, words_needed};
use loops::either;
use model::Reader;
use pages::check::check;
use regions::read;
use rows::range_of;
use scans::Scans;
use terms::{Form, Refusal, Row, Stamp, Transaction};
use words::HIGHEST_WORD;

// The test of a memory and of the scan list that a table stands for: the store's sizes, and the number of bytes that they need.
pub fn admit(mem: &[u8], t: Scans) -> Result<(Sizes, usize), Refusal>
    ensures { Admits every_form result mem.now t }
{
    let Some(s) = check(mem, t) else {
        return Err(Refusal::Memory);
    };
    Ok((s, words_needed(s) * 4))
}

// The same test, for calls that work on one form alone.
pub fn admit_in(mem: &[u8], t: Scans, form: Form) -> Result<(Sizes, usize), Refusal>
    ensures { Admits (is_form form) result mem.now t }
{
    let (s, n) = admit(mem, t)?;
    if s.form != form {
        return Err(Refusal::Memory);
    }
    Ok((s, n))
}

// The reader of all commits at a stamp or before, with the changes of a transaction (0: of none). No ordinal is above the highest word.
pub fn reader_at(stamp: Stamp, me: Transaction) -> Reader
    ensures { result ≡ reader (all_up_to stamp.0) me.0 }
{
    Reader {
        stamp: stamp,
        commits: HIGHEST_WORD,
        me: me,
    }
}

// The reader at the last commit's stamp.
pub fn latest_reader(mem: &[u8], s: Sizes, me: Transaction) -> Reader
    requires { Suffices s mem.now }
    ensures { result ≡ reader (all_up_to (last_stamp (view_of s mem.now))) me.0 }
{
    reader_at(Stamp(read(mem, s, Region::Header, HEADER_STAMP)), me)
}

// The range of a row, or nothing where the row's number is not yet given: 5.
#[tactic(auto, unfolding(crate::specs::Given::range_given, model::specs::Calls::not_given_in))]
pub fn given_range(mem: &[u8], s: Sizes, row: Row) -> Option<usize>
    requires { Suffices s mem.now }
    ensures { result ≡ range_given (view_of s mem.now) row.0 }
{
    if read(mem, s, Region::Header, HEADER_ROWS) <= row.0 {
        return None;
    }
    Some(range_of(row))
}

// 6: not below the column count.
#[tactic(auto, unfolding(history::specs::History::no_column))]
pub fn no_column(s: Sizes, column: u32) -> bool
    ensures { result ≡ no_column (shape_in s) column }
{
    s.columns <= column as usize
}

// 7: not below the range count.
#[tactic(auto, unfolding(history::specs::History::no_range))]
pub fn no_range(s: Sizes, range: u32) -> bool
    ensures { result ≡ no_range (shape_in s) range }
{
    s.ranges <= range as usize
}

// 13, for a commit: earlier than the last.
#[tactic(auto, unfolding(model::specs::Calls::earlier_in))]
pub fn earlier(mem: &[u8], s: Sizes, stamp: Stamp) -> bool
    requires { Suffices s mem.now }
    ensures { result ≡ earlier_in (view_of s mem.now) stamp.0 }
{
    stamp.0 < read(mem, s, Region::Header, HEADER_STAMP)
}

// 13, for two stamps: the first after the second, or the second later than the last commit.
#[tactic(auto, unfolding(model::specs::Calls::no_span_in))]
pub fn no_span(mem: &[u8], s: Sizes, from: Stamp, to: Stamp) -> bool
    requires { Suffices s mem.now }
    ensures { result ≡ no_span_in (view_of s mem.now) from.0 to.0 }
{
    let ahead = later(mem, s, to);
    either(to.0 < from.0, ahead)
}

// 13, for a read or a scan: later than the last commit.
#[tactic(auto, unfolding(model::specs::Calls::later_in))]
pub fn later(mem: &[u8], s: Sizes, stamp: Stamp) -> bool
    requires { Suffices s mem.now }
    ensures { result ≡ later_in (view_of s mem.now) stamp.0 }
{
    read(mem, s, Region::Header, HEADER_STAMP) < stamp.0
}
