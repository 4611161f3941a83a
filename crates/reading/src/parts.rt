// What is read of a text on the way: a number in it, a line of it.

// A number, and the text after it.
#[derive(Clone, Copy)]
pub struct Field<'a> {
    pub value: usize,
    pub rest: &'a [u8],
}

// The entries of a border's even and odd end, its mark, and the text after its line.
#[derive(Clone, Copy)]
pub struct Row<'a> {
    pub first: u16,
    pub second: u16,
    pub mark: u8,
    pub rest: &'a [u8],
}
