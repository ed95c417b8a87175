//! Laws of what a node begins with.

ghost use Rattle.std.specs.Prelude.{◌≡◌, ℕ, List, Option, Some};
ghost use Rattle.front_end.specs.Loads.{FilesChange};
ghost use Rattle.front_end.specs.Stages.{StageEnd, stopped};
ghost use Rattle.front_end.specs.Verdicts.{Print};
ghost use Rattle.js_base.specs.declared.status.Status.{Status};
ghost use Rattle.node_starts.specs.NodeSources.{NodeStart};
ghost use Rattle.node_engine.specs.ReadyNodes.{NodeStarts, ReadyNode, ReadyNodes};
ghost use Rattle.node_engine.specs.Nodes.{LoadedNode};
ghost use Rattle.node_engine.specs.Options.{Asked};

use event_text::script_laws;
use front_end::source_laws;
use host_decl::host_file_laws;
use part_verify::verify_laws;

/// Laws of what a node begins with. The call does nothing.
pub fn node_laws()
    // What the files of a node hold gives one node, or is refused with one status.
    ensures one_node { (asked : Asked) (source hosts start : List ℕ) (first second : StageEnd NodeStart) →
        NodeStarts asked source hosts start first → NodeStarts asked source hosts start second → first ≡ second }

    // Whatever they hold, one of the two is due.
    ensures some_node { (asked : Asked) (source hosts start : List ℕ) →
        (end : StageEnd NodeStart) × NodeStarts asked source hosts start end }

    // Where no node is, the verdict refuses, and reports nothing.
    ensures no_report { (asked : Asked) (source hosts start : List ℕ) (answer : Status) (text : List ℕ) →
        NodeStarts asked source hosts start (stopped (Print answer text)) → ⊥ }

    // So it is with a file of keys, where one is asked for.
    ensures one_ready { (asked : Asked) (source hosts start keys : List ℕ) (first second : StageEnd ReadyNode) →
        ReadyNodes asked source hosts start keys first → ReadyNodes asked source hosts start keys second →
        first ≡ second }
    ensures some_ready { (asked : Asked) (source hosts start keys : List ℕ) →
        (end : StageEnd ReadyNode) × ReadyNodes asked source hosts start keys end }
    ensures no_ready_report { (asked : Asked) (source hosts start keys : List ℕ) (answer : Status) (text : List ℕ) →
        ReadyNodes asked source hosts start keys (stopped (Print answer text)) → ⊥ }

    // Two nodes that are due by what files hold are the same.
    ensures one_loaded { (asked : Asked) (files : FilesChange) (holds : List ℕ → Option (List ℕ))
        (first second : StageEnd ReadyNode) → files.held ≡ Some holds →
        LoadedNode asked files first → LoadedNode asked files second → first ≡ second }
{
    source_laws();
    host_file_laws();
    verify_laws();
    script_laws();
}
