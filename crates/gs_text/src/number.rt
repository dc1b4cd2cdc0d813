ghost use Rattle.std.specs.Prelude.{◌≡◌, ℕ, ◌<◌, ◌^◌, decimal, true, IfSome, Some};
ghost use Rattle.std.specs.Char.{is_ascii_digit};
ghost use Rattle.std.specs.List.{list_all};
ghost use Rattle.gs_text.specs.Numbers.{is_plain, number_of, value_of};

use std::str;

/// Reads a plain decimal below 2^64: digits alone, at least one, and no leading zero but in the
/// text `0`. Anything else is `None`. `str::parse` would take `+7` and `007` too.
#[tactic(auto, using(crate::proofs::Decimals::readings), unfolding(crate::specs::Numbers::number_of))]
pub fn read_u64(text: &[u8]) -> Option<u64>
    ensures exact { result ≡ number_of text.now }
    ensures decimal { IfSome result (λ n. text.now ≡ decimal n) }
    ensures every { (n : ℕ) → n < 2 ^ 64 → text.now ≡ decimal n → result ≡ Some n }
{
    if is_plain(text) { value(text) } else { None }
}

/// The number that digits write, where it is below 2^64.
fn value(digits: &[u8]) -> Option<u64>
    requires { is_plain digits.now ≡ true }
    ensures { result ≡ value_of digits.now }
{
    str::from_utf8(digits).ok()?.parse().ok()
}

fn is_plain(text: &[u8]) -> bool
    ensures { result ≡ is_plain text.now }
{
    match text {
        [] => false,
        [digit] => digit.is_ascii_digit(),
        [first, ..] => *first != b'0' && are_digits(text),
    }
}

fn are_digits(text: &[u8]) -> bool
    ensures { result ≡ list_all is_ascii_digit text.now }
{
    text.iter().all(|c| c.is_ascii_digit())
}
