//! Words with a bit for each host that may hold a field or a statement.

ghost use Rattle.std.specs.Prelude.{◌≡◌, ◌≢◌, ℕ, ◌<◌, ◌≤◌, ◌↔◌, IsTrue, length};
ghost use Rattle.std.specs.Int.{bit_at};
ghost use Rattle.label_lattice.specs.Label.{ConfFlows, IntegFlows, IsTrustedBy};
ghost use Rattle.label_lattice.specs.Lattice.{join_of};
ghost use Rattle.jif_tree.specs.Trees.{field_tree};
ghost use Rattle.place_rules.specs.PlaceRules.{MayHoldField, MayHoldStatement, IsWordOf};

use host_decl::HostRow;
use jif_tree::Field;
use js_base::limits::HOSTS;
use label_lattice::Label;

/// The hosts that may hold a field whose reads tell this label.
pub fn holders_of_field(hosts: &[HostRow], field: &Field, told: &Label) -> u16
    requires { length hosts.now ≤ HOSTS }
    ensures { IsWordOf (MayHoldField (field_tree field.now, told.now)) hosts.now result }
{
    let mut word = 0;
    for (place, host) in hosts.iter().enumerate() {
        if may_hold_field(host.label(), &field.label, told) {
            word = with_host(word, place);
        }
    }
    word
}

/// The hosts that may hold a statement whose execution tells this label, and whose host these have to trust.
pub fn holders_of_statement(hosts: &[HostRow], used: &Label, need: u64) -> u16
    requires { length hosts.now ≤ HOSTS }
    ensures { IsWordOf (MayHoldStatement (used.now, need)) hosts.now result }
{
    let mut word = 0;
    for (place, host) in hosts.iter().enumerate() {
        if may_hold_statement(host.label(), used, need) {
            word = with_host(word, place);
        }
    }
    word
}

/// Whether a host of the first label may hold a field of the second whose reads tell the third.
fn may_hold_field(host: &Label, field: &Label, told: &Label) -> bool
    ensures { IsTrue result ↔ (ConfFlows (join_of field.now told.now) host.now × IntegFlows host.now field.now) }
{
    host.integ_flows(field) && field.join(*told).conf_flows(host)
}

/// Whether a host of the first label may hold a statement whose execution tells the second, and whose host these have
/// to trust.
fn may_hold_statement(host: &Label, used: &Label, need: u64) -> bool
    ensures { IsTrue result ↔ (ConfFlows used.now host.now × IsTrustedBy host.now need) }
{
    host.is_trusted_by(need) && used.conf_flows(host)
}

/// The word with one more host.
fn with_host(word: u16, host: usize) -> u16
    requires { host < HOSTS }
    ensures set { bit_at result host ≡ 1 }
    ensures others { (other : ℕ) → other ≢ host → bit_at result other ≡ bit_at word other }
{
    word | (1 << host)
}
