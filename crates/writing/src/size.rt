// How many bytes rows are written as, and how many rows that takes.
#[derive(Clone, Copy)]
pub(crate) struct Size {
    pub(crate) bytes: usize,
    pub(crate) rows: usize,
}
