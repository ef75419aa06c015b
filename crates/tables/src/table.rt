// The table type. Its limits and the kinds of its rows are named here once; the definitions hold them to the numbers of the rules (R2, R4, R5, R7).
#[derive(Clone, Copy)]
pub struct Table;

impl Table {
    // the kinds of a row: numbers, since a row is three numbers of C (R2) and any number may stand in one
    pub const READ: u32 = 0;

    pub const WRITE: u32 = 1;

    pub const ARRIVE: u32 = 2;

    pub const SYNC: u32 = 3;

    // a table has at most so many rows
    pub const ROWS: usize = 512;
    // and at most so many threads
    pub const THREADS: usize = 64;
    // barriers are below this
    pub const BARRIERS: usize = 16;
    // addresses are below this
    pub const ADDRESSES: usize = 4096;
    // a count is at most this, and at most the number of threads
    pub const COUNT: usize = 1024;
}
