// What every round of a hash is given: the key, and the mask of the size. The steps stand beside the hash.
ghost use Rattle.std.specs.Prelude.{◌≡◌, ◌^◌, ◌<◌, ◌≤◌};
ghost use Rattle.shuffle.specs.Hash.{mask as mask_of};

// The rounds of a key at a size, under the mask of the size.
#[derive(Clone, Copy)]
pub(crate) struct Rounds {
    pub(crate) key: u32,
    pub(crate) size: u32,
    pub(crate) mask: u32,
    ghost keyed: { key < 2 ^ 32 },
    ghost some: { 0 < size },
    ghost few: { size ≤ 65536 },
    ghost masked: { mask ≡ mask_of size },
}
