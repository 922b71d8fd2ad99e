// An entry that clashes with one before it, and how many frames their stack has.
#[derive(Clone, Copy)]
pub struct Found {
    pub higher: usize,
    pub depth: usize,
}
