//! What a cost is counted over, and how the token of a method goes from host to host there.

ghost use Rattle.std.specs.Prelude.{◌≡◌, ◌+◌, ◌<◌, ◌∷◌, List, drop, length};
ghost use Rattle.js_base.specs.declared.ids.StmtId.{StmtId};
ghost use Rattle.jif_tree.specs.LabelRules.{method_at};
ghost use Rattle.jif_tree.specs.Trees.{program_tree};
ghost use Rattle.msg_cost.specs.Kept.{AreTrustedTo, IsReadingWord};
ghost use Rattle.msg_cost.specs.Moves.{next_spot, called_home};
ghost use Rattle.msg_cost.specs.Views.{shape_of, seated_shape, ids_of};

use crate::seated::Seated;
use crate::spot::Spot;
use crate::trust::Trust;
use crate::{tokens, values};
use host_decl::Hosts;
use jif_tree::{Program, Stmt};
use js_base::limits::HOSTS;
use js_base::{HostId, MethodId, VarId};
use need_labels::{Needs, Plan};

/// A program, what its statements need, the hosts, and a plan.
#[derive(Clone, Copy)]
pub struct Planned<'a> {
    pub program: &'a Program,
    pub needs: &'a Needs,
    pub hosts: &'a Hosts,
    pub plan: &'a Plan,
}

impl<'a> Planned<'a> {
    /// The same, with no part moved.
    fn seated(&self) -> Seated<'a>
        ensures { seated_shape result ≡ shape_of self.now }
    {
        Seated {
            program: self.program,
            needs: self.needs,
            hosts: self.hosts,
            plan: self.plan,
            step: None,
        }
    }
}

/// Where the statement at a place of a block runs. The hosts' places up to which they are known to be trusted are
/// noted.
pub fn next_spot(
    planned: &Planned<'_>,
    spot: Spot,
    block: &[Stmt],
    place: usize,
    noted: &mut [usize; HOSTS],
) -> Spot
    requires here { place < length block.now }
    requires noted { AreTrustedTo (shape_of planned.now) block.now place noted.old }
    ensures result { (statement : StmtId) (others : List StmtId) →
        ids_of (drop place block.now) ≡ statement ∷ others →
        result ≡ next_spot (shape_of planned.now) spot statement others }
    ensures noted { AreTrustedTo (shape_of planned.now) block.now (place + 1) noted.new }
{
    let mut trust = Trust::Noted(*noted);
    let next = tokens::next_spot(&planned.seated(), spot, block, place, &mut trust);
    if let Trust::Noted(known) = trust {
        *noted = known;
    }
    next
}

/// The home of a method: the host of its head.
pub fn called_home(planned: &Planned<'_>, method: MethodId) -> HostId
    ensures { result ≡ called_home (shape_of planned.now) (method_at (program_tree planned.now.program.now) method) }
{
    tokens::called_home(&planned.seated(), method)
}

/// A word with a bit for each host on which a statement reads the variable.
pub fn reading_hosts(planned: &Planned<'_>, x: VarId) -> u64
    ensures { IsReadingWord (shape_of planned.now) x result }
{
    values::reading_hosts(&planned.seated(), x)
}
