ghost use Rattle.gs_view.specs.Laws.{NoteIsOfWhatIsKnown, KnownIsOfTheNote};

/// The law of late notes: where one of the two lists begins with the other, as the rule keeps of all
/// that one publisher published, what is known after a note is the longer of the two.
pub fn late_notes_lose_nothing()
    ensures older { NoteIsOfWhatIsKnown }
    ensures newer { KnownIsOfTheNote }
{}
