// One cell with its new value.
#[derive(Clone, Copy)]
pub struct Entry {
    pub cell: u32,
    pub value: u32,
}
