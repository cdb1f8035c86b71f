// The calls that keep the store in order, over a lent memory and the table of the scan list: merge, release, open scan, close scan. Each call is the test of memory
// and list, the call's own tests in the order of section 4 of docs/SPECIFICATION.md, and then what it writes. The scan list itself is not lent here: open and close answer the one entry of
// it that changes, and what stands there then.
#![tactic(auto, using(admission::proofs::Served::serving, admission::proofs::Decided::deciding, admission::proofs::Decided::scan_entry_lem, crate::proofs::Tests::merging, crate::proofs::Listing::listing), unfolding(admission::specs::Tested::IfPassed, admission::specs::Tested::Finds, admission::specs::Tested::Tests, admission::specs::Tested::TestsBy, model::specs::Calls::tests_in, model::specs::Calls::out_of_reach_in, model::specs::Calls::reply_in, model::specs::Calls::act_in, model::specs::Calls::entries_after))]

ghost use Rattle.std.specs.Prelude.{◌≡◌, List, ℕ, ◌<◌, ◌*◌, ◌+◌};
ghost use Rattle.terms.specs.Measures.{most_numbers};
ghost use Rattle.layout.specs.declared.Sizes.{Sizes};
ghost use Rattle.layout.specs.View.{scans_given, view_of, Suffices, put};
ghost use Rattle.layout.specs.declared.Region.{Region};
ghost use Rattle.terms.specs.declared.ScanEntry.{ScanEntry};
ghost use Rattle.layout.specs.Regions.{scans_at};
ghost use Rattle.history.specs.History.{Call, verdict};
ghost use Rattle.model.specs.Calls.{new_entry};
ghost use Rattle.model.specs.Stored.{page_in, current_in};
ghost use Rattle.model.specs.Preconditions.{shape_in};
ghost use Rattle.merging.specs.Steps.{MergeReady};
ghost use Rattle.promise.specs.Promise.{ServesBy, kept};
ghost use Rattle.admission.specs.Admitted.{Fitted};
ghost use Rattle.admission.specs.Tested.{Says, Finds, IfPassed, Tests, TestsBy};
ghost use Rattle.admission.specs.Given.{ScanAt};
ghost use Rattle.upkeep.specs.Lists.{answer_in, changed_at, reach_tests};

use admission::{admit, later, no_column, no_range};
use conditions::any_open;
use layout::{HEADER_COMMITS, HEADER_MERGES, HEADER_SCANS, Region, Sizes};
use merging::free_page;
use model::free_entry;
use regions::{read, write};
use scans::{Scans, find_scan};
use terms::limits::{MOST_NUMBERS, MOST_SCANS};
use terms::{Answer, Fields, Refusal, ScanEntry, Stamp, Tail};

// What a call on the scan list leaves: its answer, and the index in the list of what becomes `entry`.
#[derive(Clone, Copy)]
pub struct ListChange {
    pub answer: Answer,
    pub index: usize,
    pub entry: ScanEntry,
}

// ---- merge

// The lineage of the current page of a range and column.
fn current_lineage(mem: &[u8], s: Sizes, g: usize, c: usize) -> Tail
    requires fitted { Fitted s mem.now }
    requires g_lt_ranges { (g < s.ranges) × (c < s.columns) }
    ensures { result.0 ≡ (page_in (view_of s mem.now) (current_in (shape_in s) (view_of s mem.now) g c)).lineage }
{
    let page = read(mem, s, Region::Current, g * s.columns + c) as usize;
    Tail(read(mem, s, Region::PageLineage, page))
}

// The last tests of a merge of column c of range g, whose current page has the lineage `low`: whether `through` is in reach, no record up to it is open, and a page
// is free.
fn reach_tests(
    mem: &[u8],
    s: Sizes,
    g: usize,
    c: usize,
    low: Tail,
    through: Tail,
) -> Result<usize, Refusal>
    requires fitted { Fitted s mem.now }
    requires g_lt_ranges { (g < s.ranges) × (c < s.columns) }
    requires low_value { low.0 ≡ (page_in (view_of s mem.now) (current_in (shape_in s) (view_of s mem.now) g c)).lineage }
    ensures says { Says result (verdict (reach_tests (shape_in s) (view_of s mem.now) g low.0 through.0)) }
    ensures finds { Finds result (MergeReady s (view_of s mem.now) g c through.0) }
{
    if through.0 <= low.0 {
        return Err(Refusal::Reach);
    }
    if through.0 > read(mem, s, Region::Used, g) {
        return Err(Refusal::Reach);
    }
    if any_open(mem, s, g, through) {
        return Err(Refusal::Open);
    }
    let Some(page) = free_page(mem, s) else {
        return Err(Refusal::NoPage);
    };
    Ok(page)
}

// The tests of merge; where they are passed, a free page.
fn merge_tests(
    mem: &[u8],
    s: Sizes,
    range: u32,
    column: u32,
    through: Tail,
) -> Result<usize, Refusal>
    requires { Fitted s mem.now }
    ensures tests { Tests s mem.now (Call.merge range column through.0) result }
    ensures finds { Finds result (MergeReady s (view_of s mem.now) range column through.0) }
{
    if no_range(s, range) {
        return Err(Refusal::Range);
    }
    if no_column(s, column) {
        return Err(Refusal::Column);
    }
    let g = range as usize;
    let c = column as usize;
    let low = current_lineage(mem, s, g, c);
    reach_tests(mem, s, g, c, low, through)
}

// The tail records of a range up to a number go into a new page of a column.
pub fn merge(mem: &mut [u8], scans: Scans, range: u32, column: u32, through: Tail) -> Answer
    ensures { ServesBy scans mem.old (Call.merge range column through.0) result mem.new kept }
{
    let (s, n) = admit(mem, scans)?;
    let page = merge_tests(mem, s, range, column, through)?;
    merging::merge(
        &mut mem[..n],
        s,
        range as usize,
        column as usize,
        through,
        page,
    );
    Ok(Fields::Done)
}

// ---- release

// Every waiting page that no open scan needs is free again; the answer is how many. A table of more entries than it has room for stands for no list.
pub fn release(mem: &mut [u8], scans: Scans) -> Answer
    ensures { ServesBy scans mem.old Call.release result mem.new kept }
{
    if scans.count > MOST_SCANS {
        return Err(Refusal::Memory);
    }
    let (s, n) = admit(mem, scans)?;
    Ok(Fields::Number(merging::release(&mut mem[..n], s, scans)))
}

// ---- open and close

// The tests of open scan; where they are passed, the index of the list's first free entry, which the scan takes.
fn open_tests(mem: &[u8], s: Sizes, scans: Scans, stamp: Stamp) -> Result<usize, Refusal>
    requires { Fitted s mem.now }
    ensures tests_by { TestsBy scans s mem.now (Call.open_scan stamp.0) result }
    ensures finds { Finds result (λ j. j ≡ scans.free) }
    ensures if_passed { IfPassed result (scans_given (view_of s mem.now) < most_numbers) }
{
    if later(mem, s, stamp) {
        return Err(Refusal::Time);
    }
    if read(mem, s, Region::Header, HEADER_SCANS) >= MOST_NUMBERS {
        return Err(Refusal::Number);
    }
    if scans.count >= MOST_SCANS {
        return Err(Refusal::Busy);
    }
    Ok(scans.free)
}

// A scan gets the next number; its entry in the scan list is not written here.
fn give_scan(mem: &mut [u8], s: Sizes) -> u32
    requires suffices { Suffices s mem.old }
    requires mem_bound { scans_given (view_of s mem.old) < most_numbers }
    ensures { (result ≡ scans_given (view_of s mem.old) + 1) × (view_of s mem.new ≡ put Region.Header scans_at (scans_given (view_of s mem.old) + 1) (view_of s mem.old)) }
{
    let n = read(mem, s, Region::Header, HEADER_SCANS) + 1;
    write(mem, s, Region::Header, HEADER_SCANS, n);
    n
}

// The entry of a scan that is opened now at a stamp.
fn new_entry(mem: &[u8], s: Sizes, stamp: Stamp) -> ScanEntry
    requires suffices { Suffices s mem.now }
    requires mem_bound { scans_given (view_of s mem.now) < most_numbers }
    ensures { result ≡ new_entry (view_of s mem.now) stamp.0 }
{
    ScanEntry {
        number: read(mem, s, Region::Header, HEADER_SCANS) + 1,
        stamp: stamp.0,
        merges: read(mem, s, Region::Header, HEADER_MERGES),
        commits: read(mem, s, Region::Header, HEADER_COMMITS),
    }
}

// A scan is opened at a stamp; the answer is its number.
pub fn open_scan(mem: &mut [u8], scans: Scans, stamp: Stamp) -> Result<ListChange, Refusal>
    ensures { ServesBy scans mem.old (Call.open_scan stamp.0) (answer_in result) mem.new (changed_at result) }
{
    let (s, n) = admit(mem, scans)?;
    let index = open_tests(mem, s, scans, stamp)?;
    let entry = new_entry(mem, s, stamp);
    let answer = Ok(Fields::Number(give_scan(&mut mem[..n], s)));
    Ok(ListChange {
        answer,
        index,
        entry,
    })
}

// The test of close; where it is passed, the scan's index in the table.
fn close_tests(scans: Scans, scan: u32) -> Result<usize, Refusal>
    ensures tests_by { (s : Sizes) (m : List ℕ) → TestsBy scans s m (Call.close scan) result }
    ensures finds { Finds result (ScanAt scans scan) }
{
    let Some(i) = find_scan(scans, scan) else {
        return Err(Refusal::Scan);
    };
    Ok(i)
}

// A scan is closed: its entry is free again.
pub fn close_scan(mem: &[u8], scans: Scans, scan: u32) -> Result<ListChange, Refusal>
    ensures { ServesBy scans mem.now (Call.close scan) (answer_in result) mem.now (changed_at result) }
{
    admit(mem, scans)?;
    let i = close_tests(scans, scan)?;
    Ok(ListChange {
        answer: Ok(Fields::Done),
        index: scans.indices[i],
        entry: free_entry(),
    })
}
