// What holds of the picture.
ghost use Rattle.std.specs.Prelude.{ℕ, List};
ghost use Rattle.acas_base.specs.Encounter.{IsEncounter, Parts};
ghost use Rattle.acas_base.specs.declared.entry.Entry.{Entry};
ghost use Rattle.air_journal.specs.Airs.{air_of};
ghost use Rattle.air_rules.specs.Rules.{IsLegal};
ghost use Rattle.deliveries.specs.declared.mishap.Mishap.TheVariants.{Lost, Spoilt};
ghost use Rattle.labels.specs.Labels.{AreLabels, LabelWords};
ghost use Rattle.picture.specs.Laws.{AreArrows, AreBars, AreCourses, AreMarked, AreSentRows, IsSound};
ghost use Rattle.picture.specs.Marked.{all_marked};
ghost use Rattle.picture.specs.Mishaps.{sent_rows};
ghost use Rattle.picture.specs.Shown.{shown_rows};
ghost use Rattle.picture.specs.declared.mishaps.Sign.TheVariants.{Cross, HollowHead};

/// A law: the bars of an aircraft are exactly the longest rows of its cycles with one word of the report, which isn't
/// CLEAR, and one corrective mark. They come in order, and no such cycle is left out.
pub fn bars_law()
    ensures { (e : Parts) (journal : List Entry) → IsLegal (air_of e) journal → (own : ℕ) → AreBars journal e.cycles own (shown_rows journal e.cycles own) }
{}

/// A law: the axis of altitudes holds each aircraft in each cycle, as planned and, of up to 8 aircraft, as modelled. A
/// greater altitude stands no lower than a less one.
pub fn courses_law()
    ensures { (e : Parts) (journal : List Entry) → AreCourses e journal }
{}

/// A law: an arrow stands exactly for each take of a good copy that changes the complement in force on the taker from
/// the sender. Where that changes from one place of the journal to a later one, and the taker commits nothing between
/// them, an arrow between them sets it.
pub fn arrows_law()
    ensures { (e : Parts) (journal : List Entry) → IsEncounter e → IsLegal (air_of e) journal → AreArrows e journal }
{}

/// A law: a cross stands exactly for each maximal row of lost messages of one aircraft to another one, and a hollow head
/// exactly for each one of spoilt messages. It stands where the first message of the row was sent.
pub fn mishaps_law()
    ensures lost { (e : Parts) (journal : List Entry) → IsLegal (air_of e) journal → AreSentRows e journal Lost (sent_rows e journal Cross) }
    ensures spoilt { (e : Parts) (journal : List Entry) → IsLegal (air_of e) journal → AreSentRows e journal Spoilt (sent_rows e journal HollowHead) }
{}

/// A law: of the marks of the labels exactly those are drawn whose cycle is one of the run, each once and in the order
/// of the list. Letters that are drawn don't hide each other.
pub fn marks_law()
    ensures { (it : LabelWords) (cycles : ℕ) → AreMarked it cycles (all_marked it cycles) }
{}

/// A law: everything in the picture lies within its page, and its text is well formed, whatever the labels are.
pub fn sound_law()
    ensures { (it : LabelWords) (e : Parts) (journal : List Entry) → AreLabels it → IsEncounter e → IsLegal (air_of e) journal → IsSound it e journal }
{}
