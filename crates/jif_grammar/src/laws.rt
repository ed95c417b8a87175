//! Laws of the grammar, for whoever reads programs. The calls do nothing.

ghost use Rattle.std.specs.Prelude.{◌≡◌, ◌+◌, ◌<◌, ◌≤◌, ℕ, List, [], length, take, Option, Some};
ghost use Rattle.std.specs.Prelude.{None};
ghost use Rattle.jif_lex.specs.declared.token.Token.{Token};
ghost use Rattle.jif_lex.specs.declared.token.TokenKind.{TokenKind};
ghost use Rattle.label_lattice.specs.Written.{Part, kinds, names_tokens, part_tokens};
ghost use Rattle.jif_grammar.specs.declared.what.What.{What};
ghost use Rattle.jif_grammar.specs.Phrases.{LabelPhrase, ExprPhrase, BlockPhrase, ParamPhrase, ItemPhrase};
ghost use Rattle.jif_grammar.specs.Phrases.{ProgramPhrase};
ghost use Rattle.jif_grammar.specs.Due.{Due, due_after};
ghost use Rattle.jif_grammar.specs.Marks.{IsTooDeep, HasTooMany};
ghost use Rattle.jif_grammar.specs.Spelling.{args_spelling, optional_label_spelling, param_spelling};
ghost use Rattle.jif_grammar.specs.Spelling.{params_spelling, authority_spelling, head_spelling, item_spelling};
ghost use Rattle.jif_grammar.specs.Spelling.{spelling};
ghost use Rattle.jif_grammar.specs.Unmarked.{names_then, part_then, label_then, optional_label_then, expr_then};
ghost use Rattle.jif_grammar.specs.Unmarked.{args_then, block_then, param_then, params_then, authority_then};
ghost use Rattle.jif_grammar.specs.Unmarked.{head_then, item_then, program_then};
ghost use Rattle.jif_grammar.specs.Grouping.{IsProgram};
ghost use Rattle.jif_grammar.specs.DraftShapes.{DraftShape};
ghost use Rattle.jif_grammar.specs.Drafts.{label_width, expr_width, block_width};
ghost use Rattle.jif_grammar.specs.Programs.{Spells, IsProgramText, IsProgramOf, GoesOn, IsBeginning, tally_at};
ghost use Rattle.jif_grammar.specs.Programs.{IsWithinUpTo, Refusal, unexpected, too_deep, too_many, rank_of_what};
ghost use Rattle.jif_grammar.specs.Programs.{IsRefused};
ghost use Rattle.jif_grammar.specs.Verdicts.{refusal_of};

/// Tokens are a program in one way only, or are refused for one cause only, and never both. What has begun at a token
/// is the same in each program that goes on from there.
pub fn grammar_laws()
    ensures one_reading { (tokens : List Token) (first second : ProgramPhrase) →
        Spells tokens first → Spells tokens second → first ≡ second }
    ensures one_draft { (tokens : List Token) (first second : DraftShape) →
        IsProgramOf tokens first → IsProgramOf tokens second → first ≡ second }
    ensures one_refusal { (tokens : List Token) (first second : Refusal) →
        IsRefused tokens first → IsRefused tokens second → first ≡ second }
    ensures never_both { (tokens : List Token) (draft : DraftShape) (refusal : Refusal) →
        IsProgramOf tokens draft → ¬ IsRefused tokens refusal }
    ensures same_marks { (tokens : List Token) (first second : ProgramPhrase) →
        GoesOn tokens first → GoesOn tokens second →
        take (length tokens) (spelling first) ≡ take (length tokens) (spelling second) }
    ensures one_tally { (tokens : List Token) (n : ℕ) (first second : ProgramPhrase) → n < length tokens →
        GoesOn (take (n + 1) tokens) first → GoesOn (take (n + 1) tokens) second →
        tally_at first n ≡ tally_at second n }
{}

/// What is enough for a refusal: one program that goes on from the token, or, where the token is unexpected, from those
/// before it.
pub fn refusal_laws()
    ensures too_deep_at { (tokens : List Token) (n : ℕ) (program : ProgramPhrase) → n < length tokens →
        GoesOn (take (n + 1) tokens) program → IsWithinUpTo program n → IsTooDeep (tally_at program n) →
        IsRefused tokens (too_deep n) }
    ensures too_many_at { (tokens : List Token) (n : ℕ) (program : ProgramPhrase) (what : What) →
        n < length tokens →
        GoesOn (take (n + 1) tokens) program → IsWithinUpTo program n → HasTooMany what (tally_at program n) →
        ¬ IsTooDeep (tally_at program n) →
        ((other : What) → rank_of_what other < rank_of_what what → ¬ HasTooMany other (tally_at program n)) →
        IsRefused tokens (too_many what n) }
    ensures unexpected_at { (tokens : List Token) (n : ℕ) (program : ProgramPhrase) → n ≤ length tokens →
        GoesOn (take n tokens) program → IsWithinUpTo program n →
        (n < length tokens → ¬ IsBeginning (take (n + 1) tokens)) →
        ((other : ProgramPhrase) → n ≡ length tokens → ¬ Spells tokens other) →
        IsRefused tokens (unexpected n) }
{}

/// What is due after tokens is known exactly where a program begins with them, and it is nothing exactly where they are
/// a program. So what is due, token by token, finds the first token with which no program goes on.
pub fn due_laws()
    ensures due_at_beginning { (tokens : List Token) → IsBeginning tokens →
        (first : List Due) × (due_after (kinds tokens) ≡ Some first) }
    ensures beginning_of_due { (tokens : List Token) (first : List Due) →
        due_after (kinds tokens) ≡ Some first → IsBeginning tokens }
    ensures nothing_due_at_end { (tokens : List Token) (program : ProgramPhrase) →
        Spells tokens program → due_after (kinds tokens) ≡ Some [] }
    ensures program_of_nothing_due { (tokens : List Token) →
        due_after (kinds tokens) ≡ Some [] → (program : ProgramPhrase) × Spells tokens program }
{}

/// The walk by what is due tells what tokens are refused for, and nothing of a program. So tokens are one or the other.
pub fn verdict_laws()
    ensures refused { (tokens : List Token) (refusal : Refusal) →
        refusal_of tokens ≡ Some refusal → IsRefused tokens refusal }
    ensures whole { (tokens : List Token) → refusal_of tokens ≡ None →
        (program : ProgramPhrase) × IsProgramText tokens program }
    ensures accepted { (tokens : List Token) (program : ProgramPhrase) →
        refusal_of tokens ≡ None → Spells tokens program → IsProgramText tokens program }
    ensures spelled { (tokens : List Token) (program : ProgramPhrase) →
        IsProgram program → kinds tokens ≡ program_then program [] → Spells tokens program }
{}

/// How many tokens less are left behind a phrase.
pub fn width_laws()
    ensures names { (names : List (List ℕ)) (rest : List TokenKind) →
        length (names_then names rest) ≡ length (names_tokens names) + length rest }
    ensures parts { (part : Part) (rest : List TokenKind) →
        length (part_then part rest) ≡ length (part_tokens part) + length rest }
    ensures labels { (label : LabelPhrase) (rest : List TokenKind) →
        length (label_then label rest) ≡ label_width label + length rest }
    ensures optional_labels { (label : Option LabelPhrase) (rest : List TokenKind) →
        length (optional_label_then label rest) ≡ length (optional_label_spelling 0 label) + length rest }
    ensures exprs { (e : ExprPhrase) (rest : List TokenKind) →
        length (expr_then e rest) ≡ expr_width e + length rest }
    ensures args { (args : List ExprPhrase) (rest : List TokenKind) →
        length (args_then args rest) ≡ length (args_spelling 0 args) + length rest }
    ensures blocks { (block : BlockPhrase) (rest : List TokenKind) →
        length (block_then block rest) ≡ block_width block + length rest }
    ensures one_param { (param : ParamPhrase) (rest : List TokenKind) →
        length (param_then param rest) ≡ length (param_spelling param) + length rest }
    ensures params { (params : List ParamPhrase) (rest : List TokenKind) →
        length (params_then params rest) ≡ length (params_spelling params) + length rest }
    ensures authority { (names : List (List ℕ)) (rest : List TokenKind) →
        length (authority_then names rest) ≡ length (authority_spelling names) + length rest }
    ensures heads { (kind : Option LabelPhrase) (name : List ℕ) (begin : LabelPhrase) (rest : List TokenKind) →
        length (head_then kind name begin rest) ≡ length (head_spelling kind name begin) + length rest }
    ensures items { (item : ItemPhrase) (rest : List TokenKind) →
        length (item_then item rest) ≡ length (item_spelling item) + length rest }
{}
