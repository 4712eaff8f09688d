// The plan's plain numbers, and the invariant that every later call relies on and none tests anew.
ghost use Rattle.std.specs.Prelude.{◌≡◌, ◌^◌, ◌<◌, ◌≤◌};

#[derive(Clone, Copy)]
pub struct Plan {
    // s: how many levels each factor has
    pub levels: u32,
    // t: any so many factors meet in every combination of their levels
    pub strength: u32,
    // d: how many factors the strip tries
    pub factors: u32,
    // the key of the label shuffle, from which the other keys are made
    pub seed: u32,
    // N: how many labels the strip has
    pub labels: u32,
    ghost keyed: { seed < 2 ^ 32 },
    ghost strong: { 1 ≤ strength },
    ghost meets: { strength ≤ factors },
    ghost named: { factors ≤ levels },
    ghost several: { 2 ≤ levels },
    ghost few: { levels ≤ 16 },
    ghost sized: { labels ≡ levels ^ strength },
    ghost short: { labels ≤ 65536 },
}
