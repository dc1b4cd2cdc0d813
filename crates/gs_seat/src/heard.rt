ghost use Rattle.std.specs.Prelude.{◌≡◌, ◌+◌, ◌<◌, ◌≤◌, ℕ, length, nat_le, position, slice_index};

/// The first place at which what was heard last, in these quanta, is as old at the end of quantum `t` as it
/// may get.
pub(crate) fn first_old(heard: &[u32], age: u32, t: u32) -> Option<usize>
    ensures { result ≡ position (λ sent. nat_le (sent + age) t) heard.now }
{
    heard
        .iter()
        .position(|sent| u64::from(*sent) + u64::from(age) <= u64::from(t))
}

/// A quantum that is no later than any of these.
pub(crate) fn oldest(heard: &[u32]) -> u32
    ensures { (i : ℕ) → i < length heard.now → result ≤ slice_index heard.now i }
{
    heard.iter().copied().min().unwrap_or(u32::MAX)
}
