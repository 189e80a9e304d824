// What the four views of a pile go by.
use graph::class::Class;
use views::merge_table::MergeTable;

#[derive(Clone, Copy)]
pub struct Looks {
    // the class of each number, and the one that is looked at
    // arrays, each for one view: the library takes no heap
    pub classes: [Option<Class>; 512],
    pub chosen: Class,
    // the numbers that are joined to one another
    pub fixed: [bool; 512],
    pub table: MergeTable,
    // the numbers that are taken away
    pub gone: [bool; 512],
}
