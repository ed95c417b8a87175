//! What the threads of a host with a sound part do, whatever is delivered.

ghost use Rattle.std.specs.Prelude.{◌≡◌, ◌≢◌, ℕ, ℤ, List, Some, IsSome, length};
ghost use Rattle.js_base.specs.declared.ids.HostId.{HostId};
ghost use Rattle.js_base.specs.declared.ids.EntryId.{EntryId};
ghost use Rattle.host_code.specs.declared.code.Entry.{Entry};
ghost use Rattle.host_code.specs.declared.instruction.Instr.{Instr};
ghost use Rattle.host_code.specs.Code.{CodeShape, halt, entry_at, instruction_at};
ghost use Rattle.host_code.specs.Sound.{IsHost, IsSoundCode};
ghost use Rattle.host_code.specs.Thread.{ThreadShape};
ghost use Rattle.host_core.specs.Host.{HostState, Outcome};
ghost use Rattle.host_core.specs.Start.{host_at_start};
ghost use Rattle.host_core.specs.Turn.{IsTurn};
ghost use Rattle.part_verify.specs.Keeping.{KeepsWithin};
ghost use Rattle.part_verify.specs.Marks.{HostEvent, HostRun, Marks, marks_at_start};
ghost use Rattle.part_verify.specs.SoundPart.{IsSoundPart};

/// Laws of the threads of a host that runs a sound part. The call does nothing.
pub fn thread_laws()
    // Whatever was delivered to a host with a sound part, a thread that started at an entry keeps within the need of
    // this entry. Nothing is said of a thread that started at the entry that ends the program.
    ensures within { (code : CodeShape) (me : HostId) (store : List (List ℤ)) (key : List ℕ) (events : List HostEvent)
        (host : HostState) (marks : Marks) (there : EntryId) (entry : Entry) (thread : ThreadShape) (one : Instr)
        (outcome : Outcome) → IsSoundCode code → IsHost code me → IsSoundPart code me →
        HostRun code (host_at_start code store key me) (marks_at_start code me) events host marks →
        host.running ≡ Some thread → marks.running ≡ Some there → there ≢ halt → entry_at code there ≡ Some entry →
        instruction_at code me thread.at ≡ Some one → IsTurn code host outcome →
        KeepsWithin code entry.need one outcome.sent }

    // Each thread that runs or waits has started at an entry.
    ensures marked { (code : CodeShape) (me : HostId) (store : List (List ℤ)) (key : List ℕ) (events : List HostEvent)
        (host : HostState) (marks : Marks) → IsSoundCode code → IsHost code me → IsSoundPart code me →
        HostRun code (host_at_start code store key me) (marks_at_start code me) events host marks →
        (IsSome host.running → IsSome marks.running) × (length marks.waiting ≡ length host.waiting) }
{}
