ghost use Rattle.std.specs.Prelude.{◌≡◌, map, string_bytes};
ghost use Rattle.gs_stamp_run.specs.Words.{count_in, count_of};

use gs_cli::number_within;

/// How many stamps the words `stamp FILE COUNT` ask for; `None` where the words are others.
pub(crate) fn count_of(words: &[String]) -> Option<u64>
    ensures { result ≡ count_of (map string_bytes words.now) }
{
    let [name, args @ ..] = words else {
        return None;
    };
    match name.as_str() {
        "stamp" => count_in(args),
        _ => None,
    }
}

fn count_in(args: &[String]) -> Option<u64>
    ensures { result ≡ count_in (map string_bytes args.now) }
{
    match args {
        [_file, count] => number_within(count.as_str(), 1, 1_000_000),
        _ => None,
    }
}
