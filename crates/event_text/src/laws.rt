//! The laws of scripts: what bytes say, or why they say nothing.

ghost use Rattle.std.specs.Prelude.{◌≡◌, ◌≢◌, ◌≤◌, ◌⊎◌, ◌↔◌, ◌==◌, ◌+◌, ℕ, ℤ, true, List, length, Some, Ok, Err, All};
ghost use Rattle.std.specs.Int.{bit_at};
ghost use Rattle.std.specs.List.{list_any};
ghost use Rattle.js_base.specs.declared.ids.HostId.{HostId};
ghost use Rattle.host_code.specs.Code.{CodeShape};
ghost use Rattle.host_code.specs.Sound.{IsSoundCode};
ghost use Rattle.event_text.specs.declared.event.Event.{Event};
ghost use Rattle.event_text.specs.declared.script.EventsError.{EventsError};
ghost use Rattle.event_text.specs.declared.script.EventsError.TheVariants.{OutOfMemory};
ghost use Rattle.event_text.specs.Events.{event_of};
ghost use Rattle.event_text.specs.EventText.{IsSaid, event_text};
ghost use Rattle.event_text.specs.Lines.{words};
ghost use Rattle.event_text.specs.Misbehaving.{with_hosts};
ghost use Rattle.event_text.specs.OwnTokens.{IsOwnEvent};
ghost use Rattle.event_text.specs.Settings.{FieldForm};
ghost use Rattle.event_text.specs.ScriptText.{front_lines, script_text, on_lines, IsPrintable};
ghost use Rattle.event_text.specs.Script.{ScriptShape, script_of, EventsFail};
ghost use Rattle.event_text.specs.Start.{start_of, StartFails};

use js_base::limits::SCRIPT_BYTES;

/// Laws of scripts and of files of starting values, for whoever reasons about them. The call does nothing.
pub fn script_laws()
    // All bytes are a script, or are too long, or have a first line that is bad.
    ensures some_script { (code : CodeShape) (bytes : List ℕ) →
        ((script : ScriptShape) × (length bytes ≤ SCRIPT_BYTES) × (script_of code bytes ≡ Ok script))
        ⊎ ((why : EventsError) × (why ≢ OutOfMemory) × EventsFail code bytes why) }

    // So do all bytes give starting values.
    ensures some_start { (fields : List FieldForm) (bytes : List ℕ) →
        ((start : List (List ℤ)) × (length bytes ≤ SCRIPT_BYTES) × (start_of fields bytes ≡ Ok start))
        ⊎ ((why : EventsError) × (why ≢ OutOfMemory) × StartFails fields bytes why) }

    // An event that some line says is said by the line that it is printed as, as long as the same hosts misbehave.
    ensures said_again { (code : CodeShape) (bad : ℕ) (event : Event) → IsSaid code bad event →
        event_of code bad (words (event_text code event)) ≡ Some event }

    // So whoever has a script may print its events again.
    ensures events_said { (code : CodeShape) (bytes : List ℕ) (script : ScriptShape) →
        script_of code bytes ≡ Ok script → All (λ one. IsSaid code script.bad one.1) script.events }

    // A script that is printed is read as that script, whatever a script of the code can say.
    ensures script_again { (code : CodeShape) (bad : ℕ) (start : List (List ℤ)) (events : List Event) →
        IsSoundCode code → IsPrintable code bad start events →
        script_of code (script_text code bad start events) ≡ Ok (record {
          bad = bad;
          start = start;
          events = on_lines (length (front_lines code bad start) + 1) events;
        }) }

    // The bits that are set are those of the hosts that the lines name.
    ensures bad_bits { (hosts : List HostId) (number : ℕ) →
        (bit_at (with_hosts 0 hosts) number ≡ 1) ↔ (list_any (λ host. host.0 == number) hosts ≡ true) }

    // What a script presents as a misbehaving host's own names one that it says misbehaves.
    ensures own { (code : CodeShape) (bytes : List ℕ) (script : ScriptShape) → script_of code bytes ≡ Ok script →
        All (λ one. IsOwnEvent code.hosts script.bad one.1) script.events }

    // A bad line is one of those of the text.
    ensures script_line { (code : CodeShape) (bytes : List ℕ) (line : ℕ) → script_of code bytes ≡ Err line →
        (1 ≤ line) × (line ≤ length bytes) }
    ensures start_line { (fields : List FieldForm) (bytes : List ℕ) (line : ℕ) → start_of fields bytes ≡ Err line →
        (1 ≤ line) × (line ≤ length bytes) }
{}
