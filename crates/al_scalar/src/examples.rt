//! Worked rows of scalars.

ghost use Rattle.std.specs.Prelude.{◌≡◌, ◌∷◌, [], map, codes};
ghost use Rattle.al_scalar.specs.Class.{class_of};
ghost use Rattle.al_scalar.specs.Rows.Words.{in_block, in_flow, reads};
ghost use Rattle.al_scalar.specs.Taken.{fault};

use crate::styles::{Class, Style};
use al_base::YamlCode;

const SINGLE: &[u8] = b"a: 'it''s'\n";

const SINGLE_LINES: &[u8] = b"'a \n\n  b'";

const SINGLE_CRLF: &[u8] = b"'a\r\nb'";

const SINGLE_CR: &[u8] = b"'a\rb'";

const SINGLE_OPEN: &[u8] = b"'a\n";

const HEX: &[u8] = b"a: \"x\\u00e9\"\n";

const LETTERS: &[u8] = b"\"\\0\\a\\b\\t\\n\\v\\f\\r\\e\\ \\\"\\/\\\\\"";

const WIDE_LETTERS: &[u8] = b"\"\\N\\_\\L\\P\\\t\"";

const NUMBERS: &[u8] = b"\"\\x41\\u00e9\\U0001F600\"";

const ESCAPED_BREAK: &[u8] = b"\"a \\\n\n  b\"";

const BLANKS_FIRST: &[u8] = b"\"a\n  \\\n b\"";

const SURROGATE: &[u8] = b"\"\\ud800\"";

const TOO_LARGE: &[u8] = b"\"\\U00110000\"";

const NO_ESCAPE: &[u8] = b"\"a\\q";

const WRONG_DIGIT: &[u8] = b"\"\\x4\"";

const DIGIT_AFTER_BREAK: &[u8] = b"\"\\x4\n1\"";

const CUT_ESCAPE: &[u8] = b"\"\\x4";

const PLAIN: &[u8] = b"a: b \n c\n\n d #\n";

const PLAIN_CRLF: &[u8] = b"a: b\r\n  c\r\n";

const PLAIN_NOT_ASCII: &[u8] = b"a: \xc3\xa9 b";

const PLAIN_COMMENT: &[u8] = b"a: b #c\n d";

const PLAIN_MARKER: &[u8] = b"a\n---\n";

const PLAIN_INDENT: &[u8] = b"a: b\nc: d\n";

const PLAIN_KEY: &[u8] = b"a\n b: c";

const FLOW: &[u8] = b"[a\n b, c]";

const FLOW_COMMENT: &[u8] = b"[a #c\n b]";

const CLIP: &[u8] = b"a: |\n b\n\n";

const STRIP: &[u8] = b"a: |-\n b\n\n";

const KEEP: &[u8] = b"a: |+\n b\n\n";

const CLIP_EMPTY: &[u8] = b"a: |\n   \n\n";

const KEEP_EMPTY: &[u8] = b"a: |+\n   \n\n";

const DIGIT: &[u8] = b"a: |2+\n   x\n\n";

const DIGIT_BLANK_LINE: &[u8] = b"a: |2\n     \n  x";

const BLANK_CONTENT: &[u8] = b"a: |\n  b\n    \n";

const ROOT_COLUMN: &[u8] = b"|\na";

const ENDED_BY_COMMENT: &[u8] = b"a: |\n x\n# c\n y";

const NO_MARKER: &[u8] = b"|\n---\n";

const MARKER: &[u8] = b"|1\n---\n";

const LITERAL_CRLF: &[u8] = b"|\r\n a\r\n";

const FOLDED: &[u8] = b"a: >\n  b\n  c\n\n  d\n";

const FOLDED_SPACED: &[u8] = b">\n a\n  b\n c\n";

const FOLDED_LEADING: &[u8] = b">\n\n a\n b\n";

const FOLDED_TAB: &[u8] = b"- >\n \t\n d";

const HEADER_TEXT: &[u8] = b"a: | x";

const HEADER_COMMENT: &[u8] = b"a: |#c";

const HEADER_DIGITS: &[u8] = b"a: |12";

const HEADER_ZERO: &[u8] = b"a: |0";

/// Worked rows of the definitions. Each clause computes one file: the style, class and text of the
/// scalar at an offset, the offset of each byte of the text followed by the end of the span, and
/// where the rest of the file begins; or the fault. Does nothing at run time.
pub fn rows()
    // single quotes: two stand for one, breaks are folded
    ensures single { in_block 1 SINGLE.now 3
        ≡ reads Style.SingleQuoted Class.Str (codes "it's") (4 ∷ 5 ∷ 6 ∷ 8 ∷ 10 ∷ []) 10 }
    ensures single_lines { in_block 0 SINGLE_LINES.now 0
        ≡ reads Style.SingleQuoted Class.Str (97 ∷ 10 ∷ 98 ∷ []) (1 ∷ 4 ∷ 7 ∷ 9 ∷ []) 9 }
    ensures single_crlf { in_block 0 SINGLE_CRLF.now 0
        ≡ reads Style.SingleQuoted Class.Str (codes "a b") (1 ∷ 2 ∷ 4 ∷ 6 ∷ []) 6 }
    ensures single_cr { in_block 0 SINGLE_CR.now 0
        ≡ reads Style.SingleQuoted Class.Str (codes "a b") (1 ∷ 2 ∷ 3 ∷ 5 ∷ []) 5 }
    ensures single_open { in_block 0 SINGLE_OPEN.now 0 ≡ fault YamlCode.UnclosedQuote 0 }

    // double quotes: each escape, and an escaped break
    ensures hex { in_block 1 HEX.now 3
        ≡ reads Style.DoubleQuoted Class.Str (120 ∷ 195 ∷ 169 ∷ []) (4 ∷ 5 ∷ 5 ∷ 12 ∷ []) 12 }
    ensures letters { in_block 0 LETTERS.now 0
        ≡ reads Style.DoubleQuoted Class.Str (0 ∷ 7 ∷ 8 ∷ 9 ∷ 10 ∷ 11 ∷ 12 ∷ 13 ∷ 27 ∷ 32 ∷ 34
        ∷ 47 ∷ 92 ∷ []) (1 ∷ 3 ∷ 5 ∷ 7 ∷ 9 ∷ 11 ∷ 13 ∷ 15 ∷ 17 ∷ 19 ∷ 21 ∷ 23 ∷ 25 ∷ 28 ∷ []) 28 }
    ensures wide_letters { in_block 0 WIDE_LETTERS.now 0
        ≡ reads Style.DoubleQuoted Class.Str (194 ∷ 133 ∷ 194 ∷ 160 ∷ 226 ∷ 128 ∷ 168
        ∷ 226 ∷ 128 ∷ 169 ∷ 9 ∷ []) (1 ∷ 1 ∷ 3 ∷ 3 ∷ 5 ∷ 5 ∷ 5 ∷ 7 ∷ 7 ∷ 7 ∷ 9 ∷ 12 ∷ []) 12 }
    ensures numbers { in_block 0 NUMBERS.now 0
        ≡ reads Style.DoubleQuoted Class.Str (65 ∷ 195 ∷ 169 ∷ 240 ∷ 159 ∷ 152 ∷ 128 ∷ [])
        (1 ∷ 5 ∷ 5 ∷ 11 ∷ 11 ∷ 11 ∷ 11 ∷ 22 ∷ []) 22 }
    ensures escaped_break { in_block 0 ESCAPED_BREAK.now 0
        ≡ reads Style.DoubleQuoted Class.Str (97 ∷ 32 ∷ 10 ∷ 98 ∷ [])
        (1 ∷ 2 ∷ 5 ∷ 8 ∷ 10 ∷ []) 10 }
    ensures blanks_first { in_block 0 BLANKS_FIRST.now 0
        ≡ reads Style.DoubleQuoted Class.Str (codes "a b") (1 ∷ 2 ∷ 8 ∷ 10 ∷ []) 10 }
    ensures surrogate { in_block 0 SURROGATE.now 0 ≡ fault YamlCode.WrongEscape 1 }
    ensures too_large { in_block 0 TOO_LARGE.now 0 ≡ fault YamlCode.WrongEscape 1 }
    ensures no_escape { in_block 0 NO_ESCAPE.now 0 ≡ fault YamlCode.WrongEscape 2 }
    ensures wrong_digit { in_block 0 WRONG_DIGIT.now 0 ≡ fault YamlCode.WrongEscape 1 }
    ensures digit_after_break { in_block 0 DIGIT_AFTER_BREAK.now 0 ≡ fault YamlCode.WrongEscape 1 }
    ensures cut_escape { in_block 0 CUT_ESCAPE.now 0 ≡ fault YamlCode.UnclosedQuote 0 }

    // plain scalars: lines, comments, markers, indents, keys
    ensures plain { in_block 1 PLAIN.now 3
        ≡ reads Style.Plain Class.Str (98 ∷ 32 ∷ 99 ∷ 10 ∷ 100 ∷ []) (3 ∷ 5 ∷ 7 ∷ 9 ∷ 11 ∷ 12 ∷ [])
        12 }
    ensures plain_crlf { in_block 1 PLAIN_CRLF.now 3
        ≡ reads Style.Plain Class.Str (codes "b c") (3 ∷ 4 ∷ 8 ∷ 9 ∷ []) 9 }
    ensures plain_not_ascii { in_block 1 PLAIN_NOT_ASCII.now 3
        ≡ reads Style.Plain Class.Str (195 ∷ 169 ∷ 32 ∷ 98 ∷ []) (3 ∷ 4 ∷ 5 ∷ 6 ∷ 7 ∷ []) 7 }
    ensures plain_comment { in_block 1 PLAIN_COMMENT.now 3
        ≡ reads Style.Plain Class.Str (codes "b") (3 ∷ 4 ∷ []) 4 }
    ensures plain_marker { in_block 0 PLAIN_MARKER.now 0
        ≡ reads Style.Plain Class.Str (codes "a") (0 ∷ 1 ∷ []) 1 }
    ensures plain_indent { in_block 1 PLAIN_INDENT.now 3
        ≡ reads Style.Plain Class.Str (codes "b") (3 ∷ 4 ∷ []) 4 }
    ensures plain_key { in_block 0 PLAIN_KEY.now 0 ≡ fault YamlCode.UnexpectedCharacter 4 }
    ensures flow { in_flow FLOW.now 1
        ≡ reads Style.Plain Class.Str (codes "a b") (1 ∷ 2 ∷ 4 ∷ 5 ∷ []) 5 }
    ensures flow_comment { in_flow FLOW_COMMENT.now 1
        ≡ reads Style.Plain Class.Str (codes "a") (1 ∷ 2 ∷ []) 2 }

    // block scalars: chomping
    ensures clip { in_block 1 CLIP.now 3
        ≡ reads Style.Literal Class.Str (98 ∷ 10 ∷ []) (6 ∷ 7 ∷ 7 ∷ []) 9 }
    ensures strip { in_block 1 STRIP.now 3
        ≡ reads Style.Literal Class.Str (codes "b") (7 ∷ 8 ∷ []) 10 }
    ensures keep { in_block 1 KEEP.now 3
        ≡ reads Style.Literal Class.Str (98 ∷ 10 ∷ 10 ∷ []) (7 ∷ 8 ∷ 9 ∷ 8 ∷ []) 10 }
    ensures clip_empty { in_block 1 CLIP_EMPTY.now 3
        ≡ reads Style.Literal Class.Str [] (4 ∷ []) 10 }
    ensures keep_empty { in_block 1 KEEP_EMPTY.now 3
        ≡ reads Style.Literal Class.Str (10 ∷ 10 ∷ []) (9 ∷ 10 ∷ 5 ∷ []) 11 }

    // block scalars: indents, and the line that ends them
    ensures digit { in_block 1 DIGIT.now 3
        ≡ reads Style.Literal Class.Str (32 ∷ 120 ∷ 10 ∷ 10 ∷ []) (9 ∷ 10 ∷ 11 ∷ 12 ∷ 11 ∷ []) 13 }
    ensures digit_blank_line { in_block 1 DIGIT_BLANK_LINE.now 3
        ≡ reads Style.Literal Class.Str (32 ∷ 32 ∷ 32 ∷ 10 ∷ 120 ∷ [])
        (8 ∷ 9 ∷ 10 ∷ 11 ∷ 14 ∷ 15 ∷ []) 15 }
    ensures blank_content { in_block 1 BLANK_CONTENT.now 3
        ≡ reads Style.Literal Class.Str (98 ∷ 10 ∷ 32 ∷ 32 ∷ 10 ∷ [])
        (7 ∷ 8 ∷ 11 ∷ 12 ∷ 13 ∷ 13 ∷ []) 14 }
    ensures root_column { in_block 0 ROOT_COLUMN.now 0
        ≡ reads Style.Literal Class.Str (codes "a") (2 ∷ 3 ∷ []) 3 }
    ensures ended_by_comment { in_block 1 ENDED_BY_COMMENT.now 3
        ≡ reads Style.Literal Class.Str (120 ∷ 10 ∷ []) (6 ∷ 7 ∷ 7 ∷ []) 8 }
    ensures no_marker { in_block 0 NO_MARKER.now 0
        ≡ reads Style.Literal Class.Str (45 ∷ 45 ∷ 45 ∷ 10 ∷ []) (2 ∷ 3 ∷ 4 ∷ 5 ∷ 5 ∷ []) 6 }
    ensures marker { in_block 0 MARKER.now 0 ≡ reads Style.Literal Class.Str [] (2 ∷ []) 3 }
    ensures literal_crlf { in_block 0 LITERAL_CRLF.now 0
        ≡ reads Style.Literal Class.Str (97 ∷ 10 ∷ []) (4 ∷ 5 ∷ 5 ∷ []) 7 }

    // folded block scalars
    ensures folded { in_block 1 FOLDED.now 3
        ≡ reads Style.Folded Class.Str (98 ∷ 32 ∷ 99 ∷ 10 ∷ 100 ∷ 10 ∷ [])
        (7 ∷ 8 ∷ 11 ∷ 13 ∷ 16 ∷ 17 ∷ 17 ∷ []) 18 }
    ensures folded_spaced { in_block 0 FOLDED_SPACED.now 0
        ≡ reads Style.Folded Class.Str (97 ∷ 10 ∷ 32 ∷ 98 ∷ 10 ∷ 99 ∷ 10 ∷ [])
        (3 ∷ 4 ∷ 6 ∷ 7 ∷ 8 ∷ 10 ∷ 11 ∷ 11 ∷ []) 12 }
    ensures folded_leading { in_block 0 FOLDED_LEADING.now 0
        ≡ reads Style.Folded Class.Str (10 ∷ 97 ∷ 32 ∷ 98 ∷ 10 ∷ []) (2 ∷ 4 ∷ 5 ∷ 7 ∷ 8 ∷ 8 ∷ [])
        9 }
    ensures folded_tab { in_block 1 FOLDED_TAB.now 2
        ≡ reads Style.Folded Class.Str (10 ∷ 100 ∷ []) (6 ∷ 8 ∷ 9 ∷ []) 9 }

    // headers of block scalars
    ensures header_text { in_block 1 HEADER_TEXT.now 3 ≡ fault YamlCode.WrongBlockHeader 5 }
    ensures header_comment { in_block 1 HEADER_COMMENT.now 3 ≡ fault YamlCode.WrongBlockHeader 4 }
    ensures header_digits { in_block 1 HEADER_DIGITS.now 3 ≡ fault YamlCode.WrongBlockHeader 5 }
    ensures header_zero { in_block 1 HEADER_ZERO.now 3 ≡ fault YamlCode.WrongBlockHeader 4 }

    // classes of plain scalars
    ensures nulls { map class_of ([] ∷ codes "null" ∷ codes "Null" ∷ codes "NULL" ∷ codes "~" ∷ [])
        ≡ Class.Null ∷ Class.Null
        ∷ Class.Null ∷ Class.Null ∷ Class.Null ∷ [] }
    ensures bools { map class_of (codes "true" ∷ codes "False" ∷ codes "TRUE" ∷ codes "yes" ∷ [])
        ≡ Class.Bool ∷ Class.Bool
        ∷ Class.Bool ∷ Class.Str ∷ [] }
    ensures ints { map class_of
        (codes "-12" ∷ codes "0o17" ∷ codes "0x1F" ∷ codes "0x" ∷ codes "+" ∷ []) ≡ Class.Int
        ∷ Class.Int
        ∷ Class.Int ∷ Class.Str ∷ Class.Str ∷ [] }
    ensures floats { map class_of
        (codes "1." ∷ codes "-.5E-3" ∷ codes "1e3" ∷ codes "1e" ∷ codes "." ∷ []) ≡ Class.Float
        ∷ Class.Float
        ∷ Class.Float ∷ Class.Str ∷ Class.Str ∷ [] }
    ensures not_finite { map class_of
        (codes ".inf" ∷ codes "-.INF" ∷ codes "+.Inf" ∷ codes ".nan" ∷ codes "-.nan" ∷ [])
        ≡ Class.Float
        ∷ Class.Float ∷ Class.Float ∷ Class.Float ∷ Class.Str ∷ [] }
{}
