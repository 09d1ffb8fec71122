// The marks of the four tables that topics fill, with their partitions, and these with their replicas: how far each is filled.
// A topic is a row of error, name (start, length), whether it is internal, and number of partitions; a partition one of error, index, leader, and numbers of replicas
// and of in-sync replicas; a replica one of a node.

// How many cells of each table are filled.
#[derive(Clone, Copy)]
pub struct Marks {
    pub topics: usize,
    pub partitions: usize,
    pub replicas: usize,
    pub synced: usize,
}
