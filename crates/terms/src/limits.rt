// The limits of a store, for the code: those of specs/Measures.antt, which definitions and contracts cite. A constant that is not the limit breaks a contract.
// A limit that is the length of an array or an index is a usize, one that a stored or asked word is compared with a u32.

// of a shape: columns, ranges, the tail records of a range, spare pages
pub const MOST_COLUMNS: usize = 16;

pub const MOST_RANGES: u32 = 16;

pub const MOST_RECORDS: u32 = 512;

pub const MOST_SPARES: u32 = 256;

// the rows of a range
pub const RANGE_ROWS: usize = 64;

// open at a time
pub const MOST_TRANSACTIONS: usize = 8;

pub const MOST_SCANS: usize = 5;

// the transaction numbers that a store gives, and likewise its scan numbers
pub const MOST_NUMBERS: u32 = 65535;

// the places of the slice that gatebook lends for crossings (12.4)
pub const LENT_STAMPS: usize = 16;
