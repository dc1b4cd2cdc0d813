ghost use Rattle.gs_beacon.specs.Numbers.{WrittenIsRead, ReadIsWritten, NumbersAreSmall, PlacesCountOn};
ghost use Rattle.gs_beacon.specs.Spelling.{HasOneSpelling, SpellsOneBeacon, BytesSpell, SpellingIsBytes, FaultlessSpells, SpellingIsFaultless};

/// The law of the spelling: a beacon has one, which is its bytes, and bytes spell at most one beacon;
/// they spell the one that their fields name exactly where `decode` finds no fault.
pub fn spelling()
    ensures one_spelling { HasOneSpelling }
    ensures one_beacon { SpellsOneBeacon }
    ensures bytes_spell { BytesSpell }
    ensures is_bytes { SpellingIsBytes }
    ensures faultless_spells { FaultlessSpells }
    ensures is_faultless { SpellingIsFaultless }
{}

/// The law of numbers in bytes, for every format of this project: what is written is read back, what
/// is read has the bytes that it was read from, n bytes spell a number below 256^n, and places count
/// on behind bytes that were taken away.
pub fn numbers_in_bytes()
    ensures written_is_read { WrittenIsRead }
    ensures read_is_written { ReadIsWritten }
    ensures small { NumbersAreSmall }
    ensures places { PlacesCountOn }
{}
