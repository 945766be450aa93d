//! Worked documents.

ghost use Rattle.al_scalar.specs.Scalar.{empty_scalar};
ghost use Rattle.al_scalar.specs.declared.styles.Class.TheVariants as class;
ghost use Rattle.al_base.specs.declared.codes.YamlCode.TheVariants as yaml;
ghost use Rattle.al_yaml_tree.specs.Document.{tree_of};
ghost use Rattle.al_yaml_tree.specs.Node.{scalar};
ghost use Rattle.al_yaml_tree.specs.Rows.Words.{classes_of, fault_at, refusal};
ghost use Rattle.std.specs.Prelude.{◌++◌, ◌∷◌, ◌≡◌, [], None, Ok, codes};

/// Worked documents, computed by the definitions: what refuses each, and at which offset.
pub fn rows()
    ensures second_colon { refusal (codes "a: b: c\n") ≡ fault_at yaml.UnexpectedCharacter 4 }
    ensures tab { refusal (codes "a:\n\tb: c\n") ≡ fault_at yaml.TabInIndentation 3 }
    ensures open_quote { refusal (codes "a: 'b\n") ≡ fault_at yaml.UnclosedQuote 3 }
    ensures open_flow { refusal (codes "a: [b, c\n") ≡ fault_at yaml.UnclosedFlow 3 }
    ensures block_header { refusal (codes "a: |10\n  x\n") ≡ fault_at yaml.WrongBlockHeader 5 }
    ensures folded_key { refusal (codes "a: b\n c: d\n") ≡ fault_at yaml.UnexpectedCharacter 7 }
    ensures indentation { refusal (codes "a:\n  b: 1\n c: 2\n")
        ≡ fault_at yaml.WrongIndentation 11 }
    ensures second_document { refusal (codes "---\na: 1\n...\nb: 2\n")
        ≡ fault_at yaml.SecondDocument 13 }
    ensures not_utf8 { refusal (codes "a: " ++ 255 ∷ []) ≡ fault_at yaml.NotUtf8 3 }
    ensures anchor { refusal (codes "a: &b c\n") ≡ None }
    ensures unknown_alias { refusal (codes "on: *e") ≡ fault_at yaml.UnknownAlias 4 }
    ensures alias_in_its_anchor { refusal (codes "a: &a [*a]") ≡ fault_at yaml.UnknownAlias 7 }
    ensures anchored_key { refusal (codes "&k a: 1") ≡ fault_at yaml.AnchorOrAlias 0 }
    ensures latest_anchor { refusal (codes "a: &x [&x 1]\nb: *x") ≡ None }
    ensures second_anchor { refusal (codes "a: &x\n  &y k: v")
        ≡ fault_at yaml.UnexpectedCharacter 8 }
    ensures anchor_without_node { refusal (codes "[&x]") ≡ fault_at yaml.UnexpectedCharacter 3 }
    ensures empty_after_anchor { refusal (codes "{k: &x }") ≡ None }
    ensures filter { refusal (codes "on:\n  push:\n    branches: [${{ github.ref }}]\n")
        ≡ fault_at yaml.UnexpectedCharacter 28 }
    ensures list_at_its_key { refusal (codes "a:\n- b\nc: d\n") ≡ None }
    ensures list_on_its_keys_line { refusal (codes "a: - b\n")
        ≡ fault_at yaml.UnexpectedCharacter 3 }
    ensures marker_in_flow { refusal (codes "a: [\n---\n]\n") ≡ None }
    ensures comments_alone { tree_of (codes "# a\n") ≡ Ok (scalar (empty_scalar 4)) }
    ensures classes { classes_of (tree_of (codes "v: [3.10, 0x1F, .5, ~, yes]\n"))
        ≡ class.Float ∷ class.Int ∷ class.Float ∷ class.Null ∷ class.Str ∷ [] }
{}
