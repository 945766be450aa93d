//! Worked command lines, computed by the definitions.

ghost use Rattle.std.specs.Prelude.{◌≡◌, [], ◌∷◌, Some, codes};
ghost use Rattle.clap.specs.Words.{one_of};
ghost use Rattle.al_cli_words.specs.Words.{files_in, kinds_in, root_in, rows_in};
ghost use Rattle.clap.specs.declared.error.kind.ErrorKind.TheVariants.{ArgumentConflict};
ghost use Rattle.clap.specs.declared.error.kind.ErrorKind.TheVariants.{InvalidValue};
ghost use Rattle.clap.specs.declared.error.kind.ErrorKind.TheVariants.{UnknownArgument};

/// What the definitions find in some command lines. Does nothing at run time.
pub fn rows()
    ensures none { kinds_in (codes "actionlint" ∷ []) ≡ [] }
    ensures all { kinds_in (codes "actionlint" ∷ codes "--oneline" ∷ codes "--root" ∷ codes "d"
        ∷ codes "a/action.yml" ∷ []) ≡ [] }
    ensures root { root_in (rows_in
        (codes "actionlint" ∷ codes "--root" ∷ codes "d" ∷ codes "a/action.yml" ∷ []))
        ≡ Some (codes "d") }
    ensures files { files_in
        (rows_in (codes "actionlint" ∷ codes "--root" ∷ codes "d" ∷ codes "a/action.yml" ∷ []))
        ≡ codes "a/action.yml" ∷ [] }
    // a single minus is a file
    ensures minus { kinds_in (codes "actionlint" ∷ codes "-" ∷ []) ≡ [] }
    ensures minus_file { files_in (rows_in (codes "actionlint" ∷ codes "-" ∷ [])) ≡ codes "-" ∷ [] }
    ensures beside { kinds_in (codes "actionlint" ∷ codes "--session" ∷ codes "a/action.yml" ∷ [])
        ≡ [] }
    ensures session { one_of (codes "session")
        (rows_in (codes "actionlint" ∷ codes "--session" ∷ [])) ≡ Some (codes "true") }
    ensures help { one_of (codes "help")
        (rows_in (codes "actionlint" ∷ codes "--oneline" ∷ codes "--help" ∷ codes "x" ∷ []))
        ≡ Some (codes "true") }
    ensures helped { kinds_in
        (codes "actionlint" ∷ codes "--oneline" ∷ codes "--help" ∷ codes "x" ∷ []) ≡ [] }
    ensures help_beside { kinds_in (codes "actionlint" ∷ codes "--help" ∷ codes "--bogus" ∷ [])
        ≡ UnknownArgument ∷ [] }
    ensures help_twice { kinds_in (codes "actionlint" ∷ codes "--help" ∷ codes "--help" ∷ [])
        ≡ ArgumentConflict ∷ [] }
    ensures short { kinds_in (codes "actionlint" ∷ codes "-h" ∷ []) ≡ UnknownArgument ∷ [] }
    ensures unknown { kinds_in (codes "actionlint" ∷ codes "--bogus" ∷ []) ≡ UnknownArgument ∷ [] }
    ensures no_folder { kinds_in (codes "actionlint" ∷ codes "--root" ∷ []) ≡ InvalidValue ∷ [] }
{}
