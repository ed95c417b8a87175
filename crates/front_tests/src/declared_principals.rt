//! Who acts for whom.

use crate::placed_programs::hosts_of;
use js_base::PrincipalId;
use principals::Principals;
use std::alloc::{AllocError, Global};
use std::test::Fail;

/// Alice, Bob, Carol and Dave. Alice acts for Bob, and Bob and Carol for each other.
const FOUR: &str = "principals = [\"Alice\", \"Bob\", \"Carol\", \"Dave\"]\n\
    acts_for = [[\"Bob\", \"Carol\"], [\"Alice\", \"Bob\"], [\"Carol\", \"Bob\"]]\n\
    [[host]]\nname = \"A\"\nlabel = \"{}\"\n";

/// Row by row: whom Alice, Bob, Carol and Dave act for.
const EXPECTED: &str = "\
    true true true false\n\
    false true true false\n\
    false true true false\n\
    false false false true\n";

/// The same of these principals.
fn acting(alloc: Global, principals: &Principals) -> Result<String, AllocError> {
    let mut text = String::new(alloc);
    for first in 0..principals.count() {
        for second in 0..principals.count() {
            let acts = principals.acts_for(PrincipalId(first), PrincipalId(second));
            let end = if second == 3 { "\n" } else { " " };
            text.push_str(format!(in alloc; "{acts}{end}")?.as_str())?;
        }
    }
    Ok(text)
}

#[test]
fn acts_for_over_chains_of_pairs(rt: HostRuntime) -> Result<(), Fail> {
    let hosts = hosts_of(rt.alloc(), FOUR)?;
    let principals = hosts.principals();
    assert_eq!(rt; principals.count(), 4);
    assert_eq!(rt; principals.find("Carol"), Some(PrincipalId(2)));
    assert_eq!(rt; principals.find("carol"), None);
    assert_eq!(rt; acting(rt.alloc(), principals)?.as_str(), EXPECTED);
    Ok(())
}
