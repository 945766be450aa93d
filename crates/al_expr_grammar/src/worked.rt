//! Worked chunks, tokens and trees of small texts, computed by the definitions.
ghost use Rattle.al_expr_grammar.specs.Rows.Chunks.{closed, cut_off};
ghost use Rattle.al_expr_grammar.specs.Rows.Tokens as row;
ghost use Rattle.al_expr_grammar.specs.Rows.Trees.{chain, mark_at, name_at, operation, path};
ghost use Rattle.al_expr_grammar.specs.Rows.Trees.{property_at};
ghost use Rattle.al_expr_grammar.specs.Building.{tree_of_content};
ghost use Rattle.al_expr_grammar.specs.Chunks.{chunks_of};
ghost use Rattle.al_expr_grammar.specs.Tokens.{AllRead, Bad, Unclosed, last_quote, tokens_of};
ghost use Rattle.al_expr_grammar.specs.Tree as tree;
ghost use Rattle.al_expr_grammar.specs.declared.token.Operator.TheVariants.{And, Equal, Less};
ghost use Rattle.al_expr_grammar.specs.declared.token.Operator.TheVariants.{NotEqual, Or};
ghost use Rattle.al_base.specs.Spans.{span};
ghost use Rattle.al_base.specs.declared.codes.ExpressionCode.TheVariants.{UnclosedChunk};
ghost use Rattle.al_base.specs.declared.codes.ExpressionCode.TheVariants.{UnclosedText};
ghost use Rattle.std.specs.Prelude.{◌≡◌, [], ◌∷◌, codes, None, Some};

/// Where the contents of chunks lie in some texts, and what is wrong at their ends. Does nothing at
/// run time.
pub fn chunk_rows()
    ensures none { chunks_of (codes "a $''{{ }} b") ≡ closed [] }
    ensures closing_in_quotes { chunks_of (codes "a ${{ 'x}}' }} b") ≡ closed ((5, 12) ∷ []) }
    ensures quotes_outside { chunks_of (codes "a'''${{a }}${{}} ")
        ≡ closed ((7, 9) ∷ (14, 14) ∷ []) }
    ensures opening_inside { chunks_of (codes "x${{\n{$ }}$${{} ${{ a }}")
        ≡ closed ((4, 8) ∷ (14, 22) ∷ []) }
    ensures three { chunks_of (codes "{${{'}}'${{ a }}${{}}${{ a }}")
        ≡ closed ((4, 14) ∷ (19, 19) ∷ (24, 27) ∷ []) }
    ensures quote_open { chunks_of (codes "${{  }}a${{'}}' }}${{ '")
        ≡ cut_off ((3, 5) ∷ (11, 16) ∷ []) UnclosedText (22, 23) }
    ensures last_quote { chunks_of (codes "${{$ ${{  }}${{ '''{''${{")
        ≡ cut_off ((3, 10) ∷ []) UnclosedText (21, 22) }
    ensures braces_alone { chunks_of (codes "${{$") ≡ cut_off [] UnclosedChunk (0, 3) }
    ensures braces_after { chunks_of (codes "$''${{}${{ a }}${{ ")
        ≡ cut_off ((6, 13) ∷ []) UnclosedChunk (15, 18) }
    ensures quotes_closed { chunks_of (codes "}${{x''${{ a }}\n'x${{ \n''")
        ≡ cut_off ((4, 13) ∷ []) UnclosedChunk (18, 21) }
{}

/// The tokens of some contents, or the character that begins none. Does nothing at run time.
pub fn token_rows()
    ensures none { tokens_of (codes " \n") ≡ AllRead [] }
    ensures path { tokens_of (codes "a . b-1")
        ≡ AllRead (row.name (codes "a") 0 ∷ row.dot (codes ".") 2 ∷ row.name (codes "b-1") 4 ∷ []) }
    ensures quotes { tokens_of (codes " 'it''s'''")
        ≡ AllRead (row.text (codes "'it''s'''") 1 ∷ []) }
    ensures texts { tokens_of (codes "'a' ''")
        ≡ AllRead (row.text (codes "'a'") 0 ∷ row.text (codes "''") 4 ∷ []) }
    ensures longest_number { tokens_of (codes "-1.5e3.2")
        ≡ AllRead (row.number (codes "-1.5e3") 0 ∷ row.dot (codes ".") 6
        ∷ row.number (codes "2") 7 ∷ []) }
    ensures no_exponent { tokens_of (codes "1e 0x")
        ≡ AllRead (row.number (codes "1") 0 ∷ row.name (codes "e") 1
        ∷ row.number (codes "0") 3 ∷ row.name (codes "x") 4 ∷ []) }
    ensures words { tokens_of (codes "true trues")
        ≡ AllRead (row.word_true (codes "true") 0 ∷ row.name (codes "trues") 5 ∷ []) }
    ensures longest_mark { tokens_of (codes "<=<")
        ≡ AllRead (row.less_equal (codes "<=") 0 ∷ row.less (codes "<") 2 ∷ []) }
    ensures bad { tokens_of (codes "a = 2") ≡ Bad (span 2 3) }
    ensures bad_character { tokens_of (97 ∷ 195 ∷ 169 ∷ 98 ∷ []) ≡ Bad (span 1 3) }
    ensures open { tokens_of (codes "a 'b''c") ≡ Unclosed }
    ensures last_quote { last_quote (codes "a 'b''c") ≡ Some 5 }
    ensures no_quote { last_quote (codes "a b") ≡ None }
    ensures doubled_marks { tokens_of (codes "&&||==!=")
        ≡ AllRead (row.and (codes "&&") 0 ∷ row.or (codes "||") 2
        ∷ row.equal (codes "==") 4 ∷ row.not_equal (codes "!=") 6 ∷ []) }
    ensures hexadecimal { tokens_of (codes "0xaF 1E+2")
        ≡ AllRead (row.number (codes "0xaF") 0 ∷ row.number (codes "1E+2") 5 ∷ []) }
{}

/// The trees of some contents. Does nothing at run time.
pub fn tree_rows()
    ensures looser_outside { tree_of_content (codes "a||b&&c<d") ≡ chain (name_at 0 (codes "a"))
        (operation Or 1 3 (chain (name_at 3 (codes "b"))
        (operation And 4 6 (chain (name_at 6 (codes "c"))
        (operation Less 7 8 (name_at 8 (codes "d")) ∷ [])) ∷ [])) ∷ []) }
    ensures tighter_first { tree_of_content (codes "a<b||c") ≡ chain
        (chain (name_at 0 (codes "a")) (operation Less 1 2 (name_at 2 (codes "b")) ∷ []))
        (operation Or 3 5 (name_at 5 (codes "c")) ∷ []) }
    ensures one_level { tree_of_content (codes "a==b!=c") ≡ chain (name_at 0 (codes "a"))
        (operation Equal 1 3 (name_at 3 (codes "b"))
        ∷ operation NotEqual 4 6 (name_at 6 (codes "c")) ∷ []) }
    ensures negation { tree_of_content (codes "!a.b") ≡ tree.Negated (mark_at 0)
        (path (name_at 1 (codes "a")) (property_at 2 (codes "b") ∷ [])) }
    ensures call { tree_of_content (codes "f(a,b)[*]") ≡ path
        (tree.Call (codes "f") (mark_at 0)
        (tree.arguments_of (name_at 2 (codes "a") ∷ name_at 4 (codes "b") ∷ [])) (mark_at 5))
        (tree.All (mark_at 6) (mark_at 8) ∷ []) }
    ensures index { tree_of_content (codes "(a)[b.c].d")
        ≡ path (tree.Group (name_at 1 (codes "a")) (mark_at 0) (mark_at 2))
        (tree.Index (mark_at 3) (path (name_at 4 (codes "b")) (property_at 5 (codes "c") ∷ []))
        (mark_at 7)
        ∷ property_at 8 (codes "d") ∷ []) }
{}
