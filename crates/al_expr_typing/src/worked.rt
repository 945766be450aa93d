//! Worked format strings and string literals, computed by the definitions.
ghost use Rattle.al_expr_typing.specs.Literals.{text_value};
ghost use Rattle.al_expr_typing.specs.Placeholders.{used_arguments};
ghost use Rattle.std.specs.Prelude.{◌≡◌, [], ◌∷◌, codes, false, true, None, Some};

/// Which arguments some format strings use, and format strings that are wrong. Does nothing at run
/// time.
pub fn placeholder_rows()
    ensures empty { used_arguments 1 [] ≡ Some (false ∷ []) }
    ensures one_of_two { used_arguments 2 (codes "{0}") ≡ Some (true ∷ false ∷ []) }
    ensures twice { used_arguments 2 (codes "{0}{0}") ≡ Some (true ∷ false ∷ []) }
    ensures zero_in_front { used_arguments 2 (codes "{01}") ≡ Some (false ∷ true ∷ []) }
    ensures ten { used_arguments 11 (codes "a{10}")
        ≡ Some (false ∷ false ∷ false ∷ false ∷ false ∷ false ∷ false ∷ false ∷ false ∷ false ∷ true
        ∷ []) }
    ensures braces { used_arguments 1 (codes "{{0}}") ≡ Some (false ∷ []) }
    ensures in_braces { used_arguments 1 (codes "{{{0}}}") ≡ Some (true ∷ []) }
    ensures past_the_arguments { used_arguments 2 (codes "{0} {2}") ≡ None }
    ensures no_digit { used_arguments 1 (codes "{}") ≡ None }
    ensures letter { used_arguments 1 (codes "{x}") ≡ None }
    ensures letter_after { used_arguments 1 (codes "{0x}") ≡ None }
    ensures opening_alone { used_arguments 1 (codes "{") ≡ None }
    ensures index_open { used_arguments 1 (codes "{0") ≡ None }
    ensures closing_alone { used_arguments 1 (codes "-0}") ≡ None }
{}

/// The values of some string literals. Does nothing at run time.
pub fn literal_rows()
    ensures empty { text_value (codes "''") ≡ [] }
    ensures plain { text_value (codes "'a b'") ≡ codes "a b" }
    ensures doubled { text_value (codes "'it''s'") ≡ codes "it's" }
    ensures quote { text_value (codes "''''") ≡ codes "'" }
    ensures quotes { text_value (codes "''''''") ≡ codes "''" }
    ensures two_bytes { text_value (39 ∷ 195 ∷ 169 ∷ 39 ∷ []) ≡ 195 ∷ 169 ∷ [] }
{}
