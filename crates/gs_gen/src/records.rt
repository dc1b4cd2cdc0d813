ghost use Rattle.std.specs.Prelude.{◌≡◌, ◌++◌, OnOk};
ghost use Rattle.gs_gen.specs.Texts.{record_of};

use gs_text::Lines;
use std::alloc::AllocError;

/// Appends a record: a word, and numbers behind commas.
pub(crate) fn write_record(text: &mut Lines, word: &str, numbers: &[u32]) -> Result<(), AllocError>
    ensures { OnOk result (text.new ≡ text.old ++ record_of word.now numbers.now) }
{
    text.word(word)?;
    for i in 0..numbers.len() {
        text.word(",")?;
        text.num(u128::from(numbers[i]))?;
    }
    text.end()
}
