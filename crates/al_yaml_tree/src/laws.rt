//! Laws of the definitions: where the nodes of a tree and the first fault of a file lie, and that
//! the texts of a tree are UTF-8.

ghost use Rattle.al_yaml_tree.specs.Document.{HasNoAlias, tree_of};
ghost use Rattle.al_yaml_tree.specs.Spans.{IsPlacedIn};
ghost use Rattle.al_yaml_tree.specs.Laws.{IsTreeLaid};
ghost use Rattle.al_yaml_tree.specs.Texts.{HasTexts};
ghost use Rattle.std.specs.Prelude.{IfOk, List, length, ℕ};

/// A law of the definitions: for any bytes of a file, the nodes of its tree lie in it, those of an
/// alias at its anchor, with each byte of each text, and so does its first fault. In a file without
/// aliases, each node lies in the one around it, after those before it. Does nothing at run time.
pub fn tree_spans()
    ensures tree { (bytes : List ℕ) → IsTreeLaid bytes (tree_of bytes) }
    ensures nested { (bytes : List ℕ) → HasNoAlias bytes
        → IfOk (tree_of bytes) (IsPlacedIn (length bytes) 0 (length bytes)) }
{}

/// A law of the definitions: for any bytes of a file, the text of each scalar of its tree, keys
/// included, is UTF-8. Does nothing at run time.
pub fn tree_texts()
    ensures { (bytes : List ℕ) → IfOk (tree_of bytes) HasTexts }
{}
