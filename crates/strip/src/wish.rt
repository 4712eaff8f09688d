// A wish: a factor, and the level that a label is to have for it.
#[derive(Clone, Copy, Debug, PartialEq, Eq)]
pub struct Wish {
    pub factor: u32,
    pub level: u32,
}
