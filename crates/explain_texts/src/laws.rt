//! Explanations that are worked out. The calls do nothing: their contracts have them.

ghost use Rattle.std.specs.Prelude.{◌≡◌, ◌++◌, [], Some, codes};
ghost use Rattle.jif_parse.specs.declared.parse_error.ParseError.TheVariants.{Unexpected};
ghost use Rattle.jif_resolve.specs.declared.resolve_error.ResolveError.TheVariants.{NoMain};
ghost use Rattle.explain_texts.specs.declared.asked.Asking.TheVariants.{Beginning, Flowing, Releasing, Trusting};
ghost use Rattle.explain_texts.specs.Heads.{byte_message, number_message, parsed_told, resolved_told, told};
ghost use Rattle.explain_texts.specs.ReasonLines.{pair_line, principal_line};
ghost use Rattle.explain_texts.specs.Remedies.{unexpected_remedy, wrong_type_remedy};
ghost use Rattle.explain_texts.specs.Told.{told_text, without_end};

/// What is told of small texts.
pub fn head_examples()
    ensures open_comment { byte_message (codes "a; /* b") 3 ≡ codes "this comment is never closed" }
    ensures no_token { byte_message (codes "a # b") 2 ≡ codes "no token begins here" }
    ensures letter { number_message (codes "x = 12a;") 4 ≡ codes "a letter follows this number at once" }
    ensures above { number_message (codes "9223372036854775808;") 0 ≡ codes "this number is above 9223372036854775807" }
    // A text without tokens ends too early.
    ensures early { parsed_told (codes "  ") [] (Unexpected 0) ≡ told (Some 2) (codes "the program ends too early") [] }
    // What has no place is told behind the name of the file.
    ensures placeless { told_text (codes "p.jif") [] (resolved_told [] NoMain)
        ≡ codes "p.jif: there is no void main without parameters\ntry: add void main{}() { .. }" }
    ensures ended { without_end (codes "a\nb\n") ≡ codes "a\nb" }
{}

/// What to try, of the forms that everybody tries first.
pub fn remedy_examples()
    ensures local { unexpected_remedy (codes "int") (codes "x") (codes ";")
        ≡ codes "try: a local gets its value where it is declared: int x = 0;\n" }
    ensures call { unexpected_remedy (codes "+") (codes "f") (codes "(")
        ≡ codes "try: a call stands alone: int x = 0; x = f(..);\n" }
    ensures braces { unexpected_remedy (codes "}") (codes "else") (codes "if")
        ≡ codes "try: put braces: else { if (..) { .. } }\n" }
    ensures nothing { unexpected_remedy (codes "o") (codes ")") (codes "{") ≡ [] }
    ensures kept { wrong_type_remedy (codes "q") (codes "=") (codes "f") (codes "(")
        ≡ codes "try: a result is kept in a local: int x = 0; x = f(..); q = x;\n" }
    ensures dropped { wrong_type_remedy (codes "q") (codes "=") (codes "f") (codes ";")
        ≡ codes "try: give an index or a call, or drop it\n" }
{}

/// Lines of reasons.
pub fn line_examples()
    ensures flow { pair_line (record { asking = Flowing; target = codes "deal"; method = codes "main" }) (codes "Alice")
        (codes "Bob and Vault and Purse") (codes "field reserve (line 2), through local r (line 6)")
        ≡ codes "Alice keeps it from Bob and Vault and Purse, and the label of deal does not: "
        ++ codes "field reserve (line 2), through local r (line 6)\n" }
    ensures begin { pair_line (record { asking = Beginning; target = codes "m"; method = codes "main" }) (codes "Alice")
        (codes "Bob") (codes "field a (line 1), through the guard of line 4")
        ≡ codes "Alice keeps from Bob that it is called, and the begin label of m does not: "
        ++ codes "field a (line 1), through the guard of line 4\n" }
    ensures release { pair_line (record { asking = Releasing; target = []; method = codes "main" }) (codes "Alice")
        (codes "Bob") (codes "field a (line 1)")
        ≡ codes "Alice keeps it from Bob, and no authority of main may release that: field a (line 1)\n" }
    ensures trusted { principal_line (record { asking = Trusting; target = []; method = codes "main" }) (codes "Alice")
        (codes "the begin label of main (line 3)")
        ≡ codes "Alice does not trust what leads here, and has to, since the authority of Alice is used: "
        ++ codes "the begin label of main (line 3)\n" }
    ensures given { principal_line (record { asking = Flowing; target = codes "t"; method = codes "main" })
        (codes "Alice") (codes "field p (line 2)")
        ≡ codes "Alice trusts t, and not what it is given: field p (line 2)\n" }
{}
