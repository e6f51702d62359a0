//! Laws of the texts, whatever was read.
ghost use Rattle.std.specs.Prelude.{◌≡◌, ℕ, List};
ghost use Rattle.std.specs.List.{AllByRecursion};
ghost use Rattle.hep_machine.specs.declared.event.Entry.{Entry};
ghost use Rattle.hep_replay.specs.Choices.{choice_text, choices_text, IsProcess};
ghost use Rattle.hep_replay.specs.Histories.{entry_text, history_text, IsAllowed};
ghost use Rattle.hep_replay.specs.Lines.{IsRefusedText};

/// Different histories that may have a text have different texts, and so have different lists of choices.
pub fn one_spelling()
    ensures histories { (es fs : List Entry) → AllByRecursion IsAllowed es → AllByRecursion IsAllowed fs → history_text es ≡ history_text fs
        → es ≡ fs }
    ensures choices { (ps qs : List ℕ) → AllByRecursion IsProcess ps → AllByRecursion IsProcess qs → choices_text ps ≡ choices_text qs
        → ps ≡ qs }
{}

/// A text is refused at one line at most.
pub fn one_bad_line()
    ensures histories { (text : List ℕ) (j k : ℕ) → IsRefusedText entry_text IsAllowed text j → IsRefusedText entry_text IsAllowed text k
        → j ≡ k }
    ensures choices { (text : List ℕ) (j k : ℕ) → IsRefusedText choice_text IsProcess text j → IsRefusedText choice_text IsProcess text k
        → j ≡ k }
{}
