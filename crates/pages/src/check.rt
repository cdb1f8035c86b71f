// The test that every call on a store makes first: whether the lent memory and the table of open scans are usable. The lengths and measures are tested
// first, then the counts: from there on each access lies within the memory. Then it looks at given rows, used tail records and the pages.
#![tactic(auto, using(facts::proofs::Ready::ready, scans::proofs::Table::table_length), unfolding(crate::specs::Checked::measured, crate::specs::Checked::checked, crate::specs::Checked::roomy, facts::specs::Usable::usable, facts::specs::Usable::measures_hold, facts::specs::Usable::stored_sizes, facts::specs::Usable::stored_form, facts::specs::Usable::stored_shape))]

ghost use Rattle.std.specs.Prelude.{◌≡◌, true, List, ◌*◌, length};
ghost use Rattle.terms.specs.declared.ScanEntry.{ScanEntry};
ghost use Rattle.layout.specs.Sizes.{Proper};
ghost use Rattle.layout.specs.View.{view_of, Suffices};
ghost use Rattle.scans.specs.Table.{table_of};
ghost use Rattle.facts.specs.Facts.{facts_hold};
ghost use Rattle.facts.specs.Tests.{MemoryFacts};
ghost use Rattle.pages.specs.Checked.{measured, checked, Safe};

use super::pages_hold;
use facts::{counts_within, opens_hold, scans_hold};
use layout::{
    FORM_UNIT, HEADER_CAPACITY, HEADER_COLUMNS, HEADER_RANGES, HEADER_SPARES, Sizes, form_in,
    form_known, sizes_of, within_limits, words_needed,
};
use loops::both;
use records::{ranges_hold, rows_hold};
use scans::Scans;
use terms::Shape;
use terms::limits::MOST_SCANS;
use words::get;

const MEASURES_BYTES: usize = 16;

// Whether every stored fact holds. The counts come first, since every later test looks at what they say is given and used.
fn facts_hold(mem: &[u8], s: Sizes, t: Scans) -> bool
    requires { (Suffices s mem.now) × Proper s }
    ensures value { (ps : List ScanEntry) → t ≡ table_of ps → result ≡ facts_hold s (view_of s mem.now) ps }
    ensures memory_facts { result ≡ true → MemoryFacts s (view_of s mem.now) }
{
    if counts_within(mem, s, t) {
        let records = ranges_hold(mem, s);
        let rows = rows_hold(mem, s);
        let pages = pages_hold(mem, s);
        let opens = opens_hold(mem, s);
        let scans = scans_hold(mem, s, t);
        both(records, both(rows, both(pages, both(opens, scans))))
    } else {
        false
    }
}

// The sizes of the store that a memory holds, if it is in a form that calls work on, its measures are there and within their limits and it has the bytes that they need.
fn measure(mem: &[u8]) -> Option<Sizes>
    ensures { result ≡ measured mem.now }
{
    if mem.len() < MEASURES_BYTES {
        return None;
    }
    let word = get(mem, HEADER_COLUMNS);
    let shape = Shape {
        columns: word % FORM_UNIT,
        ranges: get(mem, HEADER_RANGES),
        capacity: get(mem, HEADER_CAPACITY),
        spares: get(mem, HEADER_SPARES),
    };
    if !form_known(word) || !within_limits(shape) {
        return None;
    }
    let s = sizes_of(form_in(word), shape);
    (words_needed(s) * 4 <= mem.len()).then_some(s)
}

// The sizes of the store that a memory holds, if it is usable with the scan list that a table stands for.
pub fn check(mem: &[u8], t: Scans) -> Option<Sizes>
    ensures value { (ps : List ScanEntry) → t ≡ table_of ps → result ≡ checked mem.now ps }
    ensures safe { Safe result mem.now }
{
    let s = measure(mem)?;
    (t.length >= MOST_SCANS && facts_hold(mem, s, t)).then_some(s)
}
