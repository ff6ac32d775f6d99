// The program that is linked, as it was read and stored.

// Of each token its mark, its number and the index past what it begins; of each definition, `count` of them, the index of its name.
#[derive(Clone, Copy)]
pub(crate) struct Source<'a> {
    pub marks: &'a [u16],
    pub nums: &'a [u16],
    pub ends: &'a [u16],
    pub heads: &'a [u16; 64],
    pub count: usize,
}
