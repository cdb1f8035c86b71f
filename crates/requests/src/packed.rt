// The scan list in bytes, four words to an entry, as `gatebook` keeps it: its buffers are arrays of bytes. It may be of any length.
ghost use Rattle.std.specs.Prelude.{◌≡◌, ◌/◌, ◌<◌, length, get_or, set};
ghost use Rattle.terms.specs.Entries.{free_entry};
ghost use Rattle.words.specs.Words.{words};
ghost use Rattle.scans.specs.Entries.{all_freed};
ghost use Rattle.scans.specs.Table.{table_of};
ghost use Rattle.requests.specs.Packed.{entry_bytes, entries_of};

use loops::fill;
use scans::{Scans, add_open, blank, is_open, set_length};
use terms::ScanEntry;
use words::{get, put};

// The words of an entry, and its bytes, four to a word.
const ENTRY_WORDS: usize = 4;

pub const ENTRY_BYTES: usize = 4 * ENTRY_WORDS;

fn entry_at(list: &[u8], i: usize) -> ScanEntry
    requires { i < length list.now / entry_bytes }
    ensures { result ≡ get_or (entries_of (words list.now)) i free_entry }
{
    let w = i * ENTRY_WORDS;
    ScanEntry {
        number: get(list, w),
        stamp: get(list, w + 1),
        merges: get(list, w + 2),
        commits: get(list, w + 3),
    }
}

// The table of the list. A rest of fewer bytes than an entry has belongs to no entry.
pub fn table(list: &[u8]) -> Scans
    ensures { result ≡ table_of (entries_of (words list.now)) }
{
    let n = list.len() / ENTRY_BYTES;
    let mut t = blank();
    for i in 0..n {
        let p = entry_at(list, i);
        if is_open(p) {
            t = add_open(t, i, p);
        }
    }
    set_length(t, n)
}

// Entry i becomes p; an entry past the end is not there, and nothing is written.
pub fn put_entry(list: &mut [u8], i: usize, p: ScanEntry)
    ensures { entries_of (words list.new) ≡ set (entries_of (words list.old)) i p }
{
    if i < list.len() / ENTRY_BYTES {
        let w = i * ENTRY_WORDS;
        put(list, w, p.number);
        put(list, w + 1, p.stamp);
        put(list, w + 2, p.merges);
        put(list, w + 3, p.commits);
    }
}

// Every entry becomes free, however many there are.
pub fn free_all(list: &mut [u8])
    ensures { entries_of (words list.new) ≡ all_freed (entries_of (words list.old)) }
{
    let n = list.len() / ENTRY_BYTES * ENTRY_WORDS;
    fill(list, 0, n, 0);
}
