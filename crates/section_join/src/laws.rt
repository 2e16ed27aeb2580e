ghost use Rattle.std.specs.Prelude.{◌≡◌, ℕ, List, ◌∷◌, map, None};
ghost use Rattle.std.specs.List.{All};
ghost use Rattle.tab_words.specs.Lines.{lines_of};
ghost use Rattle.tab_words.specs.Sections.{sections_of};
ghost use Rattle.section_join.specs.Mended.{first_cut, joined_text, mended};

/// The sections of joined texts, none of which has a line `%%`, are these texts with mended ends.
pub fn joined_texts_are_the_sections()
    ensures { (text : List ℕ) (texts : List (List ℕ))
        → All (λ t. first_cut (lines_of t) ≡ None) (text ∷ texts)
        → sections_of (joined_text (text ∷ texts)) ≡ map mended (text ∷ texts) }
{}
