ghost use Rattle.std.specs.Prelude.{◌≡◌};
ghost use Rattle.gs_cli.specs.Words.{number_within};

/// The number that a word is in plain decimal, where it is within these bounds.
pub fn number_within(word: &str, least: u64, most: u64) -> Option<u64>
    ensures { result ≡ number_within least most word.now }
{
    match gs_text::read_u64(word.as_bytes()) {
        Some(n) if least <= n && n <= most => Some(n),
        _ => None,
    }
}
