//! The starting plan for a host.

ghost use Rattle.std.specs.Prelude.{◌≢◌, ◌<◌, All, IfOk};
ghost use Rattle.std.specs.List.{AllZip};
ghost use Rattle.js_base.specs.declared.limits.TheConstants.{HOSTS};
ghost use Rattle.placement.specs.Starting.{IsFirstHost, StartsOn, IsStartOf};

use js_base::bits::has_bit;
use js_base::{HostId, OutOfMemory};
use need_labels::Plan;
use place_rules::Allowed;
use std::alloc::Global;

/// The plan that puts all that this host may hold there, and anything else on the first host that may hold it.
pub fn starting_plan(alloc: Global, allowed: &Allowed, host: HostId) -> Result<Plan, OutOfMemory>
    requires fields { All (λ word. word ≢ 0) allowed.now.fields }
    requires statements { All (λ word. word ≢ 0) allowed.now.statements }
    requires host { host.0 < HOSTS }
    ensures { IfOk result (IsStartOf allowed.now host.0) }
{
    let fields = starting_hosts(alloc, allowed.fields(), host)?;
    let statements = starting_hosts(alloc, allowed.statements(), host)?;
    Ok(Plan::new(fields, statements))
}

/// The hosts on which a starting plan puts what the hosts of these words may hold.
fn starting_hosts(
    alloc: Global,
    words: &[u16],
    preferred: HostId,
) -> Result<Vec<HostId>, OutOfMemory>
    requires words { All (λ word. word ≢ 0) words.now }
    requires preferred { preferred.0 < HOSTS }
    ensures { IfOk result (λ hosts. AllZip (StartsOn preferred.0) words.now hosts.items) }
{
    let mut hosts = Vec::new(alloc);
    for word in words {
        hosts.push(starting_host(*word, preferred))?;
    }
    Ok(hosts)
}

/// The preferred host where the word has it, and otherwise its first host.
fn starting_host(word: u16, preferred: HostId) -> HostId
    requires word { word ≢ 0 }
    requires preferred { preferred.0 < HOSTS }
    ensures { StartsOn preferred.0 word result }
{
    if has_bit(u64::from(word), preferred.0) {
        preferred
    } else {
        first_host(word)
    }
}

/// The first host of a word.
fn first_host(word: u16) -> HostId
    requires { word ≢ 0 }
    ensures { IsFirstHost word result.0 }
{
    HostId(word.trailing_zeros() as u8)
}
