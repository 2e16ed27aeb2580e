ghost use Rattle.std.specs.Prelude.{◌≡◌, ℕ, List};
ghost use Rattle.view_doc.specs.Grammar.{Front};
ghost use Rattle.view_doc.specs.Lines.{Told};
ghost use Rattle.view_doc.specs.Texts.{IsFirstBad, IsText};

/// A text says one thing, and leaves one place and one list of names.
pub fn a_text_says_one_thing()
    ensures { (bytes : List ℕ) (tolds others : List Told) (front last : Front)
        → IsText bytes tolds front → IsText bytes others last → (tolds ≡ others) × (front ≡ last) }
{}

/// A text that is one has no bad line.
pub fn a_text_has_no_bad_line()
    ensures { (bytes : List ℕ) (tolds : List Told) (front : Front) (bad : ℕ)
        → IsText bytes tolds front → ¬ (IsFirstBad bytes bad) }
{}
