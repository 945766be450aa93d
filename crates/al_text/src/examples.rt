//! Worked snippets, computed by the definitions.
ghost use Rattle.std.specs.Prelude.{◌≡◌, ◌+◌, ◌++◌, ℕ, List, [], ◌∷◌, length, codes};
ghost use Rattle.al_base.specs.Rows.Words.{at, span_of};
ghost use Rattle.al_base.specs.Positions.{line_at, column_at};
ghost use Rattle.al_text.specs.Snippets.{snippet, fault_text, chars_before};
ghost use Rattle.al_text.specs.declared.printing.Format.TheVariants.{Oneline, Snippet};
ghost use Rattle.al_base.specs.declared.codes.Code.TheVariants as code;
ghost use Rattle.al_base.specs.declared.codes.KeyCode.TheVariants.{EmptyFile};
ghost use Rattle.al_base.specs.declared.codes.ExpressionCode.TheVariants.{UndefinedProperty};

/// Some snippets, as the definition gives them, with the `^` under the column that the fault's line
/// prints. Does nothing at run time.
pub fn snippet_rows()
    // an empty file: its line is empty
    ensures empty { fault_text Snippet (codes "a.yml") [] (at 0 0 (code.Key EmptyFile) [])
        ≡ codes "a.yml:1:1: file is empty [syntax-check]\n  |\n1 | \n  | ^\n" }
    ensures oneline { fault_text Oneline (codes "a.yml") [] (at 0 0 (code.Key EmptyFile) [])
        ≡ codes "a.yml:1:1: file is empty [syntax-check]\n" }
    // a span of four characters on the last line
    ensures property { fault_text Snippet (codes "a.yml")
        (codes "on: push\njobs:\n  a:\n    runs-on: ubuntu-latest\n    steps:\n      - run: echo ${{ github.reff }}\n")
        (at 87 91 (code.Expression UndefinedProperty) (codes "reff" ∷ []))
        ≡ codes "a.yml:6:30: property \"reff\" is not defined [expression]\n  |\n"
        ++ codes "6 |       - run: echo ${{ github.reff }}\n  |                              ^~~~\n" }
    // a property after an escaped break in a quoted scalar
    ensures escaped { snippet
        (codes "on: push\njobs:\n  a:\n    runs-on: ubuntu-latest\n    steps:\n"
        ++ codes "      - run: \"\\u00e9 \\\n          echo ${{ github.reff }}\"\n")
        (span_of 107 111)
        ≡ codes "  |\n7 |           echo ${{ github.reff }}\"\n  |                           ^~~~\n" }
    // a span that extends beyond the break of its line marks only that line
    ensures lines { snippet (97 ∷ 13 ∷ 98 ∷ 99 ∷ 13 ∷ 10 ∷ 100 ∷ []) (span_of 2 7)
        ≡ codes "  |\n2 | bc\n  | ^~\n" }
    // at a CR LF the CR is the fault's character, and the marks come after the text
    ensures break_start { snippet (97 ∷ 98 ∷ 13 ∷ 10 ∷ []) (span_of 2 4)
        ≡ codes "  |\n1 | ab\n  |   ^\n" }
    ensures break_end { snippet (97 ∷ 98 ∷ 13 ∷ 10 ∷ []) (span_of 3 4)
        ≡ codes "  |\n1 | ab\n  |    ^\n" }
    ensures file_end { snippet (97 ∷ 10 ∷ []) (span_of 2 2) ≡ codes "  |\n2 | \n  | ^\n" }
    // an empty span
    ensures nothing { snippet (codes "abc") (span_of 1 1) ≡ codes "  |\n1 | abc\n  |  ^\n" }
    // a tab for a tab, one mark for a character of two bytes, and one for a byte order mark
    ensures tab { snippet (9 ∷ 98 ∷ []) (span_of 1 2) ≡ codes "  |\n1 | " ++ 9 ∷ 98 ∷ 10
        ∷ codes "  | " ++ 9 ∷ 94 ∷ 10 ∷ [] }
    ensures characters { snippet (195 ∷ 169 ∷ 195 ∷ 169 ∷ 195 ∷ 169 ∷ []) (span_of 2 6)
        ≡ codes "  |\n1 | " ++ 195 ∷ 169 ∷ 195 ∷ 169 ∷ 195 ∷ 169 ∷ 10 ∷ codes "  |  ^~\n" }
    ensures byte_order_mark { snippet (239 ∷ 187 ∷ 191 ∷ 97 ∷ []) (span_of 3 4)
        ≡ codes "  |\n1 | " ++ 239 ∷ 187 ∷ 191 ∷ 97 ∷ 10 ∷ codes "  |  ^\n" }
    // the bars are aligned under a line number of two digits
    ensures digits { snippet (codes "\n\n\n\n\n\n\n\n\nx") (span_of 9 10)
        ≡ codes "   |\n10 | x\n   | ^\n" }
    // the `^` is in the column of the fault
    ensures column { (bytes : List ℕ) (offset : ℕ) → column_at bytes offset
        ≡ 1 + length (chars_before bytes (line_at bytes offset) offset) }
{}
