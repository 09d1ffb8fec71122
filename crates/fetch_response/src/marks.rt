// The marks of the three tables that topics fill, with their partitions, and these with their aborted transactions: how far each is filled.
// A topic is a row of name (start, length) and number of partitions; a partition one of index, error, high watermark, last stable offset, number of aborted transactions,
// and records (start, length); an aborted transaction one of producer and first offset.

// How many cells of each table are filled.
#[derive(Clone, Copy)]
pub struct Marks {
    pub topics: usize,
    pub partitions: usize,
    pub aborted: usize,
}

// The place after some rows, and the marks of the tables.
#[derive(Clone, Copy)]
pub struct Marked {
    pub next: usize,
    pub marks: Marks,
}
