// What the replayed calls are lent.

ghost use Rattle.std.specs.Prelude.{◌≡◌, ◌&&◌, length, take, drop, nat_le};
ghost use Rattle.std.specs.List.{list_all};

// Buffers and areas as long as any that is recorded; no heap.
#[derive(Drop, Default)]
pub struct Areas {
    pub first: [u8; 16384],
    pub second: [u8; 16384],
    pub numbers: [u32; 4200],
    pub bytes: [u8; 49300],
    pub output: [u8; 8192],
}

// Whether each place holds the value.
pub fn all_are<T: PartialEq>(area: &[T], value: &T) -> bool
    ensures { result ≡ list_all (λ x. T.eq x value.now) area.now }
{
    area.iter().all(|x| x == value)
}

// Whether the first n places hold one value, and those behind them another.
pub fn holds<T: PartialEq>(area: &[T], n: usize, front: &T, behind: &T) -> bool
    ensures { result ≡ (nat_le n (length area.now) && (list_all (λ x. T.eq x front.now) (take n area.now) && list_all (λ x. T.eq x behind.now) (drop n area.now))) }
{
    area.split_at_checked(n)
        .is_some_and(|(a, b)| all_are(a, front) && all_are(b, behind))
}
