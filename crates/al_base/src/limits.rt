//! The limits of the product: each number once, with what it counts.
ghost use Rattle.std.specs.Prelude.{◌≡◌};
ghost use Rattle.al_base.specs.Limits as limits;

/// The most bytes of a file.
pub const LARGEST_FILE: usize = 1_048_576;

/// The most files of a folder.
pub const MOST_FILES: usize = 4_096;

/// The most bytes of a path.
pub const LONGEST_PATH: usize = 1_024;

/// The most nodes of a file, those behind aliases counted at each alias.
pub const MOST_NODES: u32 = 100_000;

/// The most bytes of a file's texts behind aliases.
pub const MOST_ALIAS_TEXT: u32 = 1_048_576;

/// The greatest depth of nested collections in a file.
pub const DEEPEST_COLLECTION: u32 = 64;

/// The most characters of an implicit key (one without `?`), as written.
pub const LONGEST_KEY: usize = 1_024;

/// The most bytes of a text that may have expressions; no file gives a longer one.
pub const LONGEST_TEXT: usize = 4_194_304;

/// The most bytes of an expression.
pub const LONGEST_EXPRESSION: usize = 21_000;

/// The greatest depth of nested brackets and negations in an expression.
pub const DEEPEST_EXPRESSION: u32 = 50;

/// The most bytes of a command's line in a script, without the line feed.
pub const LONGEST_LINE: usize = 2_048;

/// The most reads in a run of a script.
pub const MOST_READS: u32 = 1_048_576;

/// The most bytes that each of these reads asks for.
pub const LARGEST_READ: usize = 65_536;

/// The limits equal those of the definitions. Does nothing at run time.
pub fn match_definitions()
    ensures file { LARGEST_FILE ≡ limits.largest_file }
    ensures files { MOST_FILES ≡ limits.most_files }
    ensures path { LONGEST_PATH ≡ limits.longest_path }
    ensures nodes { MOST_NODES ≡ limits.most_nodes }
    ensures alias_text { MOST_ALIAS_TEXT ≡ limits.most_alias_text }
    ensures collection { DEEPEST_COLLECTION ≡ limits.deepest_collection }
    ensures key { LONGEST_KEY ≡ limits.longest_key }
    ensures text { LONGEST_TEXT ≡ limits.longest_text }
    ensures expression { LONGEST_EXPRESSION ≡ limits.longest_expression }
    ensures nesting { DEEPEST_EXPRESSION ≡ limits.deepest_expression }
    ensures line { LONGEST_LINE ≡ limits.longest_line }
    ensures reads { MOST_READS ≡ limits.most_reads }
    ensures read { LARGEST_READ ≡ limits.largest_read }
{}
