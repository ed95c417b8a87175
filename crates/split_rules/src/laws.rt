//! Laws of the splitting. The calls do nothing.

ghost use Rattle.msg_cost.specs.Moves.{PlannedShape};
ghost use Rattle.host_code.specs.Sound.{IsSoundCode};
ghost use Rattle.split_rules.specs.Placed.{PlacedProgram, planned_from};
ghost use Rattle.split_rules.specs.SplitCode.{split_code};
ghost use Rattle.split_rules.specs.Splittable.{IsSplittable};
ghost use Rattle.split_rules.specs.Typable.{IsTypable};
ghost use Rattle.split_rules.specs.Allowed.{IsAllowed};
ghost use Rattle.split_rules.specs.Held.{IsWellHeld};
ghost use Rattle.split_rules.specs.Asking.{AreGranted, TellsNoMore};
ghost use Rattle.split_rules.specs.Pace.{PACE, Allowance, IsPaced};
ghost use Rattle.split_rules.specs.ThreadRun.{Thread, RunsInstructions, IsAtMain};
ghost use Rattle.split_rules.specs.TypedCode.{Table, IsTypedCode};
ghost use Rattle.split_rules.specs.Typing.{Follows, Divides};
ghost use Rattle.split_rules.specs.Positions.{Position, Entrance, IsStatementOfMethod, IsOf};
ghost use Rattle.split_rules.specs.Emissions.{counts_after};
ghost use Rattle.split_rules.specs.Opening.{IsOpenCode, HasOwnLabels, CoversRuns, MayRun, IsOpenTo, HasNeed};
ghost use Rattle.split_rules.specs.Opening.{NamesEntryWithin, IsCoveredBy};
ghost use Rattle.split_rules.specs.OpenExamples.{code_of, untrusted, trusted_by_first, thread_on_first, lent_table};
ghost use Rattle.split_rules.specs.OpenExamples.{sent_table, branched_table, looped_table, FirstOpens};
ghost use Rattle.split_rules.specs.TypingExamples.{first_instead, CanBeTyped, as_given, rides, sent_and_rides};
ghost use Rattle.split_rules.specs.TypingExamples.{sent_instead, kept_back, kept_from_call, lent_local};
ghost use Rattle.split_rules.specs.TypingExamples.{lent_past_local};
ghost use Rattle.split_rules.specs.Settled.{AreSettled};
ghost use Rattle.split_rules.specs.Walk.{program_emissions};
ghost use Rattle.std.specs.Prelude.{◌≡◌, ℕ, ◌+◌, ◌*◌, ◌≤◌, List, ◌∷◌, [], length, pos};
ghost use Rattle.js_base.specs.declared.ids.HostId.{HostId};
ghost use Rattle.js_base.specs.declared.ids.EntryId.{EntryId};
ghost use Rattle.js_base.specs.declared.ids.VarId.{VarId};
ghost use Rattle.label_lattice.specs.declared.label.Label.{Label};
ghost use Rattle.js_base.specs.declared.binary_operator.BinOp.TheVariants as operator;
ghost use Rattle.host_code.specs.declared.instruction.Op.{Op};
ghost use Rattle.host_code.specs.declared.instruction.Op.TheVariants as op;
ghost use Rattle.host_code.specs.declared.code_expr.Node.{Node};
ghost use Rattle.host_code.specs.declared.code_expr.Node.TheVariants as node;
ghost use Rattle.split_rules.specs.Expressions.{first_element};
ghost use Rattle.split_rules.specs.Walk.{entry_id};
ghost use Rattle.split_rules.specs.Worked.{sent_local, read_by_two, read_later, set_where_lent, lent_past, lent_back};
ghost use Rattle.split_rules.specs.Worked.{looped, branched, called, kept_and_read, indexed};
ghost use Rattle.split_rules.specs.Worked.{labelled_apart, operations_on, entry_hosts, label_words};
ghost use Rattle.split_rules.specs.Worked.{calling, returning, loop_end};
ghost use Rattle.split_rules.specs.Worked.{field_id, var_id, site_id, host_id, trusted_by};

/// Whatever the plan, the code of a split program is sound, and its entries stand and its branches lead where they
/// should, on their own hosts. Where hosts are trusted for what their statements start, the code is also typed: at each
/// instruction it is known under whose token a thread runs there and what is still due, and the instruction does what
/// is due next.
pub fn split_laws()
    ensures sound { (placed : PlacedProgram) → IsSplittable placed → IsSoundCode (split_code placed) }
    ensures settled { (placed : PlacedProgram) → IsSplittable placed →
        let emissions = program_emissions placed in
        AreSettled (length placed.hosts.hosts) (counts_after (record { entries = 0; branches = 0 }) emissions).branches
        emissions }
    ensures typed { (placed : PlacedProgram) →
        let planned = planned_from placed in
        IsSplittable placed → IsTypable planned →
        (table : Table) × IsTypedCode planned (split_code placed) table }
{}

/// Where a program passes the label check, and each statement's host is trusted for what the statement itself needs,
/// hosts are trusted for all that statements start, as typed code asks.
pub fn trust_laws()
    ensures typable { (placed : PlacedProgram) →
        IsAllowed placed → IsTypable (planned_from placed) }
{}

/// Where besides each field and each statement stands on a host that may hold it, other hosts grant what the code of a
/// host asks of them, by the checks of the host table, and no instruction tells another host what it may not see.
pub fn asking_laws()
    ensures granted { (placed : PlacedProgram) → IsSplittable placed → IsAllowed placed → IsWellHeld placed →
        AreGranted (split_code placed) }
    ensures tells { (placed : PlacedProgram) → IsSplittable placed → IsAllowed placed → IsWellHeld placed →
        TellsNoMore (split_code placed) }
{}

/// Where a program is split that passes the label check, a host that is trusted for all that is due at a place of its
/// code, whatever host the place is on, may change what the instruction there changes and what rides with it. It is
/// trusted for the entries that the instruction pushes, asks for or goes to, and for all that is due behind it. The
/// labels are those of the host file and the program. And wherever a thread comes to that enters at an entry, until it
/// gives back the token with which it entered, the need of the entry has the needs of all that is due there, and of the
/// entry that the instruction there names.
pub fn opening_laws()
    ensures opens { (placed : PlacedProgram) (table : Table) →
        let planned = planned_from placed in
        let code = split_code placed in
        IsSplittable placed → IsAllowed placed → IsTypedCode planned code table →
        IsOpenCode planned code table }
    ensures labels { (placed : PlacedProgram) → IsSplittable placed →
        HasOwnLabels placed.labelled (planned_from placed) (split_code placed) }
    ensures covers { (placed : PlacedProgram) (table : Table) →
        let planned = planned_from placed in
        let code = split_code placed in
        IsSplittable placed → IsAllowed placed → IsTypedCode planned code table →
        CoversRuns planned code table }
{}

/// The hosts of a split program run few instructions for each step: there are numbers at the places of the code by
/// which it is paced, and so from where the program begins a thread runs at most 512 for each step that it makes, and
/// 512 more.
pub fn pace_laws()
    ensures paced { (placed : PlacedProgram) → IsSplittable placed →
        (left : Allowance) × IsPaced (split_code placed) left }
    ensures runs_few { (placed : PlacedProgram) → IsSplittable placed → (count steps : ℕ) (first last : Thread) →
        IsAtMain (split_code placed) first →
        RunsInstructions (split_code placed) count steps first last → count ≤ PACE * (steps + 1) }
{}

/// The laws of positions leave one outcome: behind an instruction there is one position, and where a branch leads
/// another.
pub fn typing_laws()
    ensures one_next { (planned : PlannedShape) (entries : List Entrance) (me : HostId) (here : Position) (what : Op)
        (next other : Position) → Follows planned entries me here what next →
        Follows planned entries me here what other → next ≡ other }
    ensures one_division { (planned : PlannedShape) (me : HostId) (here : Position) (guard : List Node)
        (next target other other_target : Position) → Divides planned me here guard next target →
        Divides planned me here guard other other_target → (next ≡ other) × (target ≡ other_target) }
{}

/// Whether there are positions by which code is typed in which values ride: that of the walk over some small programs,
/// and other code in its place.
pub fn typing_examples()
    // A local is not sent before the thread is handed over, but rides with it.
    ensures local_rides { CanBeTyped sent_local as_given }
    // It may be sent as well.
    ensures local_sent { CanBeTyped sent_local sent_instead }
    // It rides where the entry behind is pushed between.
    ensures rides_past_push { CanBeTyped lent_local as_given }
    // A parameter rides with the call, behind the push of the entry where the result is kept.
    ensures parameter_rides { CanBeTyped called as_given }
    // What rides was not sent, and what was sent does not ride.
    ensures not_sent_and_rides { ¬ CanBeTyped sent_local sent_and_rides }
    // A thread is not handed over, and no method called, while something is left to be sent that does not ride.
    ensures not_kept_back { ¬ CanBeTyped sent_local kept_back }
    ensures not_kept_from_call { ¬ CanBeTyped called kept_from_call }
    // Nothing rides where another host is asked for the entry behind.
    ensures rides_on_asked { first_instead lent_past_local rides ≡ op.Let (var_id 0) (node.Number (pos 7) ∷ [])
        ∷ op.Ask (entry_id 2) (host_id 2) ∷ op.GoWith (entry_id 3) (host_id 1) (var_id 0 ∷ []) ∷ [] }
    ensures not_past_ask { ¬ CanBeTyped lent_past_local rides }
{}

/// The instructions of some small programs on each of their hosts, the hosts of their entries, and which statements are
/// theirs.
pub fn worked_laws()
    // A local rides to the host that reads it, which is handed the right to go on.
    ensures rides { operations_on sent_local 0 ≡ op.Let (var_id 0) (node.Number (pos 7) ∷ [])
        ∷ op.GoWith (entry_id 2) (host_id 1) (var_id 0 ∷ []) ∷ [] }
    ensures rides_to { operations_on sent_local 1 ≡ op.Read (field_id 0) first_element
        ∷ op.Put (field_id 0) first_element (node.Temp 0 ∷ node.Var (var_id 0) ∷ node.Binary operator.Add ∷ [])
        ∷ op.Back ∷ [] }
    ensures rides_entries { entry_hosts sent_local ≡ 0 ∷ 0 ∷ 1 ∷ [] }
    // It is sent to another host that reads it too.
    ensures two_read { operations_on read_by_two 0 ≡ op.Let (var_id 0) (node.Number (pos 7) ∷ [])
        ∷ op.Send (var_id 0) (host_id 2) ∷ op.GoWith (entry_id 2) (host_id 1) (var_id 0 ∷ []) ∷ [] }
    // It rides where the host that hands the right to go on gets it back.
    ensures rides_past { operations_on lent_local 0 ≡ op.Let (var_id 0) (node.Number (pos 7) ∷ [])
        ∷ op.Push (entry_id 2) ∷ op.GoWith (entry_id 3) (host_id 1) (var_id 0 ∷ [])
        ∷ op.Read (field_id 1) first_element
        ∷ op.Put (field_id 1) first_element (node.Temp 0 ∷ node.Number (pos 1) ∷ node.Binary operator.Add ∷ [])
        ∷ op.Back ∷ [] }
    // It does not where another host is asked to take it back, so it is sent.
    ensures sent_past { operations_on lent_past_local 0 ≡ op.Let (var_id 0) (node.Number (pos 7) ∷ [])
        ∷ op.Send (var_id 0) (host_id 1) ∷ op.Ask (entry_id 2) (host_id 2) ∷ op.Go (entry_id 3) (host_id 1) ∷ [] }
    // Nor where another statement stands between on the same host, or where a host that was lent the right to go on
    // gives it back.
    ensures sent_before { operations_on read_later 0 ≡ op.Let (var_id 0) (node.Number (pos 7) ∷ [])
        ∷ op.Send (var_id 0) (host_id 1) ∷ op.Put (field_id 1) first_element (node.Number (pos 1) ∷ [])
        ∷ op.Go (entry_id 2) (host_id 1) ∷ [] }
    ensures sent_back { operations_on set_where_lent 1 ≡ op.Let (var_id 0) (node.Number (pos 7) ∷ [])
        ∷ op.Send (var_id 0) (host_id 0) ∷ op.Back ∷ [] }
    // A result that is kept rides, and no parameter rides where the method stands on the host of the call.
    ensures result_rides { operations_on kept_and_read 0
        ≡ op.Frame (site_id 1) ∷ op.Arg (var_id 1) (node.Number (pos 3) ∷ [])
        ∷ op.Push (entry_id 3) ∷ op.Call (entry_id 2) (host_id 0)
        ∷ op.Let (var_id 0) (node.Var (var_id 2) ∷ [])
        ∷ op.GoWith (entry_id 4) (host_id 1) (var_id 0 ∷ [])
        ∷ op.Ret (var_id 2) (node.Var (var_id 1) ∷ []) ∷ op.Back ∷ [] }
    // Where the way back is long, the host of what follows is asked to take it back.
    ensures past { operations_on lent_past 0
        ≡ op.Ask (entry_id 2) (host_id 2) ∷ op.Go (entry_id 3) (host_id 1) ∷ [] }
    ensures past_entries { entry_hosts lent_past ≡ 0 ∷ 0 ∷ 2 ∷ 1 ∷ [] }
    // Otherwise the host that held it takes it back, and hands it on.
    ensures back { operations_on lent_back 0
        ≡ op.Push (entry_id 2) ∷ op.Go (entry_id 3) (host_id 1) ∷ op.Go (entry_id 4) (host_id 2) ∷ [] }
    ensures back_entries { entry_hosts lent_back ≡ 0 ∷ 0 ∷ 0 ∷ 1 ∷ 2 ∷ [] }
    // Behind its guard a loop pushes the entry that stands at the guard.
    ensures loops { operations_on looped 0 ≡ op.Read (field_id 0) first_element
        ∷ op.Branch (node.Temp 0 ∷ node.Number (pos 4) ∷ node.Binary operator.Less ∷ []) 0
        ∷ op.Push (entry_id 2)
        ∷ op.Push (entry_id 3) ∷ op.Go (entry_id 4) (host_id 1)
        ∷ op.Read (field_id 0) first_element
        ∷ op.Put (field_id 0) first_element (node.Temp 0 ∷ node.Number (pos 1) ∷ node.Binary operator.Add ∷ [])
        ∷ op.Back ∷ op.Back ∷ [] }
    ensures loop_entries { entry_hosts looped ≡ 0 ∷ 0 ∷ 0 ∷ 0 ∷ 1 ∷ [] }
    // Before its guard a branch pushes the entry behind it, and both blocks end by giving the token back.
    ensures branches { operations_on branched 0 ≡ op.Push (entry_id 2)
        ∷ op.Read (field_id 0) first_element
        ∷ op.Branch (node.Temp 0 ∷ node.Number (pos 4) ∷ node.Binary operator.Less ∷ []) 0
        ∷ op.Go (entry_id 3) (host_id 1)
        ∷ op.Read (field_id 0) first_element
        ∷ op.Put (field_id 0) first_element (node.Temp 0 ∷ node.Number (pos 1) ∷ node.Binary operator.Add ∷ [])
        ∷ op.Back ∷ op.Back ∷ [] }
    ensures branches_to { operations_on branched 1 ≡ op.Read (field_id 1) first_element
        ∷ op.Put (field_id 1) first_element (node.Temp 0 ∷ node.Number (pos 1) ∷ node.Binary operator.Add ∷ [])
        ∷ op.Back ∷ [] }
    ensures branch_entries { entry_hosts branched ≡ 0 ∷ 0 ∷ 0 ∷ 1 ∷ [] }
    // A call makes a frame, sets each parameter, and pushes the entry behind it, where the result is kept. The
    // parameter rides to the home of the method.
    ensures calls { operations_on called 0 ≡ op.Frame (site_id 1) ∷ op.Arg (var_id 1) (node.Number (pos 3) ∷ [])
        ∷ op.Push (entry_id 3) ∷ op.CallWith (entry_id 2) (host_id 1) (var_id 1 ∷ [])
        ∷ op.Let (var_id 0) (node.Var (var_id 2) ∷ []) ∷ op.Back ∷ [] }
    ensures gives_back { operations_on called 1
        ≡ op.Ret (var_id 2) (node.Var (var_id 1) ∷ node.Number (pos 1) ∷ node.Binary operator.Add ∷ [])
        ∷ op.Back ∷ [] }
    ensures call_entries { entry_hosts called ≡ 0 ∷ 0 ∷ 1 ∷ 0 ∷ [] }
    // What a method gives back is a statement of that method, and so of the program.
    ensures is_in { IsStatementOfMethod called.program (record { 0 = 1 }) returning }
    ensures is_of { IsOf called.program returning }
    // It is none of `main`, which calls the method.
    ensures is_not_in { ¬ IsStatementOfMethod called.program (record { 0 = 0 }) returning }
    // A statement inside a loop is one of the method's too.
    ensures is_inside { IsStatementOfMethod looped.program (record { 0 = 0 }) loop_end }
    // The index of an array is read before the value.
    ensures indexes { operations_on indexed 0 ≡ op.Read (field_id 0) first_element
        ∷ op.Read (field_id 1) (node.Number (pos 2) ∷ [])
        ∷ op.Put (field_id 1) (node.Temp 0 ∷ [])
        (node.Temp 1 ∷ node.Number (pos 1) ∷ node.Binary operator.Add ∷ [])
        ∷ op.Back ∷ [] }
    // Labels stand as they are first needed, each once: those of fields, of variables, and of entries.
    ensures labels { label_words labelled_apart (trusted_by 2 ∷ trusted_by 3 ∷ []) ≡ 1 ∷ 2 ∷ 3 ∷ 4 ∷ [] }
{}

/// What hosts may bring about in some small programs, and what needs have.
pub fn opening_examples()
    // A host that nobody trusts may run the first of two statements, before which an entry is pushed where the second
    // is due. It has not the need of that entry, so the push is not open to it, though the host that pushes has.
    ensures before_pushed { IsOpenTo lent_back untrusted (lent_table.at 0 1) }
    ensures pushed_denied { ¬ FirstOpens lent_back lent_table untrusted 0 (op.Push (entry_id 2)) }
    ensures pushed_own { HasNeed (code_of lent_back) (trusted_by 3) (entry_id 2) }
    // It is open to each host that is trusted by those whom the second statement needs, whichever host pushes.
    ensures pushed { FirstOpens lent_back lent_table trusted_by_first 0 (op.Push (entry_id 2)) }
    // The same where the host of what follows is asked for the entry.
    ensures asked_denied { ¬ FirstOpens lent_past lent_table untrusted 0 (op.Ask (entry_id 2) (host_id 2)) }
    ensures asked { FirstOpens lent_past lent_table trusted_by_first 0 (op.Ask (entry_id 2) (host_id 2)) }
    // A variable that the first principal trusts is sent. To send it is open to a host that the first principal trusts,
    // and not to one that nobody trusts, though it is to the host that sends, and what follows is open to all.
    ensures behind_sent { IsOpenTo sent_local untrusted (sent_table.at 0 2) }
    ensures sent_denied { ¬ FirstOpens sent_local sent_table untrusted 1 (op.Send (var_id 0) (host_id 1)) }
    ensures sent { FirstOpens sent_local sent_table trusted_by_first 1 (op.Send (var_id 0) (host_id 1)) }
    // Nor is it open to that one to hand a thread over with the variable, in whatever frame and whatever else rides.
    ensures riding_denied { (there : EntryId) (others : List VarId) →
        ¬ FirstOpens sent_local sent_table untrusted 1 (op.GoWith there (host_id 1) (var_id 0 ∷ others)) }
    ensures riding_called_denied { (there : EntryId) (first : VarId) (others : List VarId) →
        ¬ FirstOpens sent_local sent_table untrusted 1 (op.CallWith there (host_id 1) (first ∷ var_id 0 ∷ others)) }
    // Both places behind a branch have to be open: here the one where the guard holds is, and the target is not.
    ensures branch_next { IsOpenTo branched untrusted (branched_table.at 0 3) }
    ensures branch_denied { (guard : List Node) →
        ¬ FirstOpens branched branched_table untrusted 2 (op.Branch guard 4) }
    // Behind a loop nothing is due, so its target is open to all, and the place where the guard holds is not.
    ensures loop_target { IsOpenTo looped untrusted (looped_table.at 0 8) }
    ensures loop_denied { (guard : List Node) →
        ¬ FirstOpens looped looped_table untrusted 1 (op.Branch guard 8) }
    // A statement of another method than `main` is run by a host that has its own need, and one of no method by nobody.
    ensures of_method { MayRun called untrusted returning }
    ensures calling_denied { ¬ MayRun called untrusted calling }
    ensures of_none { (label : Label) → ¬ MayRun looped label returning }
    // The need of an entry has that of each entry that is pushed, asked for or gone to on the way, and of all that is
    // due.
    ensures pushed_without { ¬ NamesEntryWithin (code_of lent_back) 0 (op.Push (entry_id 2)) }
    ensures pushed_within { NamesEntryWithin (code_of lent_back) 1 (op.Push (entry_id 2)) }
    ensures asked_without { ¬ NamesEntryWithin (code_of lent_back) 0 (op.Ask (entry_id 2) (host_id 0)) }
    ensures gone_without { ¬ NamesEntryWithin (code_of lent_back) 0 (op.Go (entry_id 2) (host_id 0)) }
    ensures called_without { ¬ NamesEntryWithin (code_of lent_back) 0 (op.Call (entry_id 2) (host_id 0)) }
    ensures gone_riding { (riders : List VarId) →
        ¬ NamesEntryWithin (code_of lent_back) 0 (op.GoWith (entry_id 2) (host_id 0) riders) }
    ensures called_riding { (riders : List VarId) →
        ¬ NamesEntryWithin (code_of lent_back) 0 (op.CallWith (entry_id 2) (host_id 0) riders) }
    ensures due_without { ¬ IsCoveredBy lent_back (code_of lent_back) lent_table 0 (thread_on_first 0) }
{}
