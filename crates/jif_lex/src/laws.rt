//! Laws of tokens, for whoever reasons about them. The calls do nothing.

ghost use Rattle.std.specs.Prelude.{◌≡◌, ◌≢◌, ◌<◌, ◌≤◌, ◌⊎◌, ℕ, List, length, codes};
ghost use Rattle.jif_lex.specs.declared.token.Token.{Token};
ghost use Rattle.jif_lex.specs.Tokens.{Reading, ReadsAs, tokens, bad_byte, bad_number};
ghost use Rattle.jif_lex.specs.declared.lexer.LexError.{LexError};
ghost use Rattle.jif_lex.specs.declared.lexer.LexError.TheVariants.{OutOfMemory};
ghost use Rattle.jif_lex.specs.Lexing.{LexFails};
ghost use Rattle.jif_lex.specs.TokenLists.{AreTokens};
ghost use Rattle.jif_lex.specs.Spelled.{Spelled, spelled_text, spelled_kinds, AreApart, HasKinds};
ghost use Rattle.jif_lex.specs.SpelledExamples.{small_line, number_and_name, two_slashes, three_equals};

use js_base::limits::PROGRAM_BYTES;

/// A text has one reading only: the same tokens, or the same fault at the same place.
pub fn lex_laws()
    ensures { (text : List ℕ) (first second : Reading) → ReadsAs text first → ReadsAs text second →
        first ≡ second }
{}

/// Each text has a reading.
pub fn reading_laws()
    ensures some_reading { (text : List ℕ) → (reading : Reading) × ReadsAs text reading }

    // So it has tokens, or has none for one of the causes beside want of memory.
    ensures tokens_or_fault { (text : List ℕ) →
        ((list : List Token) × (length text ≤ PROGRAM_BYTES) × ReadsAs text (tokens list))
        ⊎ ((why : LexError) × (why ≢ OutOfMemory) × LexFails text why) }

    // A fault stands at a byte of the text.
    ensures bad_byte { (text : List ℕ) (at : ℕ) → ReadsAs text (bad_byte at) → at < length text }
    ensures bad_number { (text : List ℕ) (at : ℕ) → ReadsAs text (bad_number at) → at < length text }
{}

/// The tokens of a text that is not too long are few, and each is small.
pub fn token_laws()
    ensures { (text : List ℕ) (list : List Token) →
        length text ≤ PROGRAM_BYTES → ReadsAs text (tokens list) → AreTokens list }
{}

/// A text that is put together from the spellings of tokens, each apart from the next part, has these tokens.
pub fn spelled_laws()
    ensures reads { (parts : List Spelled) → AreApart parts →
        HasKinds (spelled_text parts) (spelled_kinds parts) }

    // A line of seven tokens, and tokens that run together.
    ensures worked_text { spelled_text small_line ≡ codes "int x=-7;\n" }
    ensures worked_line { AreApart small_line }
    ensures worked_number { ¬ AreApart number_and_name }
    ensures worked_comment { ¬ AreApart two_slashes }
    ensures worked_symbols { ¬ AreApart three_equals }
{}
