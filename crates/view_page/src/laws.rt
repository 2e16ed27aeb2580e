ghost use Rattle.std.specs.Prelude.{◌≡◌, ℕ, true, List};
ghost use Rattle.std.specs.List.{list_all};
ghost use Rattle.tab_core.specs.Name.{IsName};
ghost use Rattle.view_page.specs.Pages.{is_plain};

/// No byte of a name is one that HTML may read as markup.
pub fn a_name_is_no_markup()
    ensures { (name : List ℕ) → IsName name → list_all is_plain name ≡ true }
{}
