//! Laws of hosts without tags. The calls do nothing: their contracts are the laws.

ghost use Rattle.std.specs.Prelude.{◌≡◌, ◌≢◌, ◌∷◌, ◌++◌, [], ℕ, ℤ, Bool, List, Some, None};
ghost use Rattle.js_base.specs.declared.ids.HostId.{HostId};
ghost use Rattle.label_lattice.specs.declared.label.Label.{Label};
ghost use Rattle.capability.specs.declared.token.Token.{Token};
ghost use Rattle.host_code.specs.declared.instruction.Op.{Op};
ghost use Rattle.host_code.specs.declared.instruction.Op.TheVariants as op;
ghost use Rattle.host_code.specs.declared.message.Message.{Message};
ghost use Rattle.host_code.specs.declared.message.Message.TheVariants as message;
ghost use Rattle.host_code.specs.Code.{CodeShape, halt};
ghost use Rattle.host_code.specs.MessageText.{message_text};
ghost use Rattle.host_code.specs.Sound.{IsHost, IsSoundCode};
ghost use Rattle.host_code.specs.Riders.{Rider};
ghost use Rattle.host_code.specs.Thread.{ThreadShape};
ghost use Rattle.host_core.specs.Host.{HostState, Outcome, without_message, with_one_ignored};
ghost use Rattle.host_core.specs.Start.{host_at_start};
ghost use Rattle.host_core.specs.Taking.{after_taking};
ghost use Rattle.host_core.specs.Told.{told_key};
ghost use Rattle.host_core.specs.Turn.{after_operation};
ghost use Rattle.journal_laws.specs.Bare.{bare_host, bare_message, bare_outcome, bare_thread};
ghost use Rattle.journal_laws.specs.BareExamples.{ended, frame, right, stacked, wrong};
ghost use Rattle.event_text.specs.Words.{Word};
ghost use Rattle.journal_laws.specs.Plays.{HaveOwnNames, IsJournalOf};
ghost use Rattle.journal_laws.specs.PlayExamples.{answer, answered, asking, host_b, reading, send_line, take_line};
ghost use Rattle.journal_laws.specs.PlayExamples.{turn_line, waiting_for};
ghost use Rattle.journal_laws.specs.ToldPlays.{IsBarred, IsPlayed};
ghost use Rattle.journal_laws.specs.Steps.{Step, turns, takes, IsStepOfHost, told_step, bare_step};

/// What tags may change of a step.
pub fn bare_laws()
    // A message is printed as without its tag.
    ensures prints { (code : CodeShape) (message : Message) →
        message_text code (bare_message message) ≡ message_text code message }
    // Whether an lgoto passes changes no field and no variable, and nothing is sent either way.
    ensures lgoto { (code : CodeShape) (host : HostState) (from : HostId) (token : Token) (passes : Bool) →
        ((after_taking code host from (message.Lgoto token) passes).state.rows ≡ host.rows)
        × ((after_taking code host from (message.Lgoto token) passes).state.variables ≡ host.variables)
        × ((after_taking code host from (message.Lgoto token) passes).sent ≡ None) }
    // So it is of a token that is given back on its own host.
    ensures back { (code : CodeShape) (host : HostState) (thread : ThreadShape) (token : Token) (passes : Bool) →
        thread.held ≡ Some token → token.host.0 ≡ host.me.0 →
        ((after_operation code host thread op.Back passes).state.rows ≡ host.rows)
        × ((after_operation code host thread op.Back passes).state.variables ≡ host.variables)
        × ((after_operation code host thread op.Back passes).sent ≡ None) }
    // The table of a host does not look at tags: but for whether a check passes, what it makes of a bare host is what
    // it makes of the host, bare. So it is of each message,
    ensures taking { (code : CodeShape) (host : HostState) (from : HostId) (message : Message) (passes : Bool) →
        bare_outcome (after_taking code (bare_host host) from (bare_message message) passes)
        ≡ bare_outcome (after_taking code host from message passes) }
    // and of each instruction.
    ensures operation { (code : CodeShape) (host : HostState) (thread : ThreadShape) (operation : Op) (passes : Bool) →
        bare_outcome (after_operation code (bare_host host) (bare_thread thread) operation passes)
        ≡ bare_outcome (after_operation code host thread operation passes) }
    // Hosts that are alike, the same once they are bare, have the same fields and variables.
    ensures fields { (one other : HostState) → bare_host one ≡ bare_host other →
        (one.rows ≡ other.rows) × (one.variables ≡ other.variables) }
    // What a step leaves and sends is, bare, what the bare step makes of the bare host for one truth value.
    ensures step { (code : CodeShape) (host : HostState) (step : Step) (outcome : Outcome) →
        IsStepOfHost code host step outcome → (passes : Bool)
        × (bare_outcome (told_step code (bare_host host) (bare_step step) passes) ≡ bare_outcome outcome) }
    // So hosts that are alike leave and send what is alike, where they make steps that are alike and the truth value is
    // the same.
    ensures alike { (code : CodeShape) (one other : HostState) (step another : Step) (passes : Bool) →
        bare_host one ≡ bare_host other → bare_step step ≡ bare_step another →
        bare_outcome (told_step code one step passes) ≡ bare_outcome (told_step code other another passes) }
{}

/// What a journal does not tell, of a host with one entry on its stack.
pub fn bare_examples()
    // The token of the top entry ends the program, and one that differs in its tag is ignored,
    ensures right_taken { (code : CodeShape) (from : HostId) →
        IsStepOfHost code stacked (takes from (message.Lgoto right)) (without_message ended) }
    ensures wrong_ignored { (code : CodeShape) (from : HostId) →
        IsStepOfHost code stacked (takes from (message.Lgoto wrong)) (without_message (with_one_ignored stacked)) }
    // though both steps are alike, and what they leave is not.
    ensures alike_steps { (from : HostId) →
        bare_step (takes from (message.Lgoto right)) ≡ bare_step (takes from (message.Lgoto wrong)) }
    ensures unlike_hosts { bare_host ended ≢ bare_host (with_one_ignored stacked) }
    // An rgoto loses its tag and keeps what rides.
    ensures riding { (riders other : List Rider) →
        bare_message (message.RgotoWith frame halt right riders)
        ≡ bare_message (message.RgotoWith frame halt wrong other) → riders ≡ other }
    ensures riding_alike { (riders : List Rider) →
        bare_message (message.RgotoWith frame halt right riders)
        ≡ bare_message (message.RgotoWith frame halt wrong riders) }
{}

/// What a journal tells of the fields of its host.
pub fn field_laws()
    // A journal determines the fields and variables of its host, whatever the key of the host is and whatever tags the
    // tokens of its messages had.
    ensures determined { (code : CodeShape) (values : List (List ℤ)) (me : HostId) (key other : List ℕ)
        (lines : List (List Word)) (steps others : List Step) (last end : HostState) →
        IsSoundCode code → HaveOwnNames code → IsHost code me →
        IsJournalOf code (host_at_start code values key me) lines steps last →
        IsJournalOf code (host_at_start code values other me) lines others end →
        (last.rows ≡ end.rows) × (last.variables ≡ end.variables) }
    // So a host that is played from the journal, under any key, has these fields and variables, whatever it takes open
    // steps for.
    ensures played { (code : CodeShape) (values : List (List ℤ)) (me : HostId) (key other : List ℕ)
        (lines : List (List Word)) (shown : HostState) (steps : List Step) (last : HostState) →
        IsSoundCode code → HaveOwnNames code → IsHost code me →
        IsPlayed code (host_at_start code values other me) lines shown →
        IsJournalOf code (host_at_start code values key me) lines steps last →
        (last.rows ≡ shown.rows) × (last.variables ≡ shown.variables) }
    // Where a host that was played from the lines in front, with open steps chosen by the line behind, does not go on
    // by the next line, no host has these lines and this one, whatever its key is.
    ensures barred { (code : CodeShape) (values : List (List ℤ)) (me : HostId) (key : List ℕ)
        (front : List (List Word)) (line : List Word) (steps : List Step) (last : HostState) →
        IsSoundCode code → HaveOwnNames code → IsHost code me →
        IsBarred code (host_at_start code values told_key me) front line →
        ¬ IsJournalOf code (host_at_start code values key me) (front ++ line ∷ []) steps last }
    // And where a journal was played, whatever open steps were taken for, some host has it, under some key and for some
    // tags of the tokens that it takes, and ends with the same fields.
    ensures real { (code : CodeShape) (values : List (List ℤ)) (me : HostId) (lines : List (List Word))
        (shown : HostState) → IsSoundCode code → HaveOwnNames code → IsHost code me →
        IsPlayed code (host_at_start code values told_key me) lines shown →
        (key : List ℕ) × (steps : List Step) × (last : HostState)
        × IsJournalOf code (host_at_start code values key me) lines steps last × (last.rows ≡ shown.rows) }
{}

/// Which journals are those of a host that asks for a field and is answered.
pub fn play_examples()
    // Its two steps leave three lines,
    ensures whole { (label : Label) →
        IsJournalOf (reading label) asking (turn_line ∷ send_line ∷ take_line ∷ [])
        (turns ∷ takes host_b answer ∷ []) answered }
    // the line of what was sent may be missing at the end,
    ensures cut { (label : Label) →
        IsJournalOf (reading label) asking (turn_line ∷ []) (turns ∷ []) waiting_for }
    // and nowhere else.
    ensures holed { (label : Label) (steps : List Step) (last : HostState) →
        ¬ IsJournalOf (reading label) asking (turn_line ∷ take_line ∷ []) steps last }
{}
