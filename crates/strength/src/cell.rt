// What a table holds: anything that tells its level.
ghost use Rattle.std.specs.Prelude.{◌≡◌, ℕ};

pub trait Levelled {
    ghost level: { Self → ℕ };

    fn level(&self) -> u32
        ensures value { result ≡ level self.now };
}

// A plain byte is a level.
impl Levelled for u8 {
    ghost level = { λ b. b };

    fn level(&self) -> u32 {
        u32::from(*self)
    }
}
