//! The laws of host files: one meaning, or one refusal, never both, and never neither.

ghost use Rattle.std.specs.Prelude.{◌≡◌, ◌≢◌, ◌<◌, ◌≤◌, ◌⊎◌, ◌*◌, ℕ, List, String, All, length};
ghost use Rattle.std.specs.declared.alloc.Global.{Global};
ghost use Rattle.js_base.specs.declared.ids.HostId.{HostId};
ghost use Rattle.host_decl.specs.declared.error.HostsError.{HostsError};
ghost use Rattle.host_decl.specs.declared.error.HostsError.TheVariants.{OutOfMemory, BadLabel, BadLink};
ghost use Rattle.host_decl.specs.Hosts.{HostsShape, AreHosts};
ghost use Rattle.host_decl.specs.Reading.{ReadsHosts, RefusesHosts};
ghost use Rattle.host_decl.specs.Refusal.{refusal_shape};

use jif_lex::{lex_laws, reading_laws};
use js_base::limits::{HOSTS, HOSTS_BYTES};
use label_lattice::{label_laws, written_laws};
use principals::principals_laws;

/// Laws of host files, for whoever reasons about them. The call does nothing.
pub fn host_file_laws()
    // A host file that has a meaning has one.
    ensures one_meaning { (bytes : List ℕ) (first second : HostsShape) → ReadsHosts bytes first →
        ReadsHosts bytes second → first ≡ second }

    // A host file that is refused is refused for one cause, except that memory may run out.
    ensures one_refusal { (bytes : List ℕ) (first second : HostsError) → RefusesHosts bytes first →
        RefusesHosts bytes second → first ≢ OutOfMemory → second ≢ OutOfMemory →
        refusal_shape first ≡ refusal_shape second }

    // A host file that has a meaning is refused only where memory runs out.
    ensures never_both { (bytes : List ℕ) (hosts : HostsShape) (why : HostsError) → ReadsHosts bytes hosts →
        RefusesHosts bytes why → why ≡ OutOfMemory }

    // Bytes are a host file that has a meaning, or are refused for a cause beside want of memory.
    ensures meaning_or_refusal { (bytes : List ℕ) →
        ((hosts : HostsShape) × ReadsHosts bytes hosts)
        ⊎ ((why : HostsError) × (why ≢ OutOfMemory) × RefusesHosts bytes why) }

    // The numbers in a refusal are those of few hosts and links.
    ensures bad_label { (bytes : List ℕ) (host : HostId) (name : String Global) →
        RefusesHosts bytes (BadLabel host name) → host.0 < HOSTS }
    ensures bad_link { (bytes : List ℕ) (number : ℕ) → RefusesHosts bytes (BadLink number) →
        number ≤ HOSTS * HOSTS }

    // What it means keeps what the hosts of every host file keep, and no name is longer than a host file may be.
    ensures sound { (bytes : List ℕ) (hosts : HostsShape) → ReadsHosts bytes hosts → AreHosts hosts }
    ensures short_names { (bytes : List ℕ) (hosts : HostsShape) → ReadsHosts bytes hosts →
        All (λ host. length host.name ≤ HOSTS_BYTES) hosts.hosts }
{
    lex_laws();
    reading_laws();
    label_laws();
    written_laws();
    principals_laws();
}
