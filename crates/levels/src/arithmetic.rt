// What a level arithmetic is: a commutative ring on the codes, and one that divides.
// A number that is not below the count stands for its remainder by the count.
ghost use Rattle.std.specs.Prelude.{◌≡◌, ℕ};
ghost use Rattle.levels.specs.Rings.{Arithmetic, RingLaws, Inverts};

pub trait Ring {
    ghost ring: { Self → Arithmetic };

    fn count(&self) -> u32
        ensures value { result ≡ (ring self.now).count };

    fn one(&self) -> u32
        ensures value { result ≡ (ring self.now).one };

    fn sum(&self, a: u32, b: u32) -> u32
        ensures value { result ≡ (ring self.now).sum a b };

    fn difference(&self, a: u32, b: u32) -> u32
        ensures value { result ≡ (ring self.now).difference a b };

    fn product(&self, a: u32, b: u32) -> u32
        ensures value { result ≡ (ring self.now).product a b };

    ghost laws: { (a : Self) → RingLaws (ring a) };
}

pub trait Dividing: Ring {
    ghost inverse: { Self → ℕ → ℕ };

    fn inverse(&self, a: u32) -> u32
        ensures value { result ≡ inverse self.now a }
        ensures unit { Inverts (Self.Ring.ring self.now) (inverse self.now) a };
}
