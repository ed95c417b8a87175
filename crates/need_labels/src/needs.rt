//! What is needed of hosts.

use js_base::{StmtId, VarId};
use label_lattice::Label;
use std::marker::Model;

/// What the statements of a program need of their hosts, what the reads of its fields tell, and who reads its
/// variables.
#[derive(Drop)]
pub struct Needs {
    used: Vec<Label>,
    need: Vec<u64>,
    loc: Vec<Label>,
    readers: Vec<Vec<StmtId>>,
}

impl Model for Needs {
    ghost use Rattle.std.specs.Prelude.{map};
    ghost use Rattle.need_labels.specs.Needs.{NeedsShape};

    ghost Value = { NeedsShape };

    ghost view = { λ n. record {
      used = n.used.items;
      need = n.need.items;
      loc = n.loc.items;
      readers = map (λ row. row.items) n.readers.items;
    } };
}

impl Needs {
    ghost use Rattle.std.specs.Prelude.{◌≡◌, [], map, slice_get, unwrap_or};

    /// These needs.
    pub(crate) fn new(
        used: Vec<Label>,
        need: Vec<u64>,
        loc: Vec<Label>,
        readers: Vec<Vec<StmtId>>,
    ) -> Needs
        ensures { result ≡ record {
          used = used.items;
          need = need.items;
          loc = loc.items;
          readers = map (λ row. row.items) readers.items;
        } }
    {
        Needs {
            used,
            need,
            loc,
            readers,
        }
    }

    /// For each statement the label of all that its execution tells its host.
    pub fn used(&self) -> &[Label]
        ensures { result.now ≡ self.now.used }
    {
        &self.used
    }

    /// For each statement a word with a bit for each principal that has to trust its host.
    pub fn need(&self) -> &[u64]
        ensures { result.now ≡ self.now.need }
    {
        &self.need
    }

    /// For each field the label of all that its reads tell its host.
    pub fn loc(&self) -> &[Label]
        ensures { result.now ≡ self.now.loc }
    {
        &self.loc
    }

    /// The statements whose own expressions read a variable, in the order of the text; none where there is no such
    /// variable.
    pub fn readers(&self, variable: VarId) -> &[StmtId]
        ensures { result.now ≡ unwrap_or (slice_get self.now.readers variable.0) [] }
    {
        match self.readers.get(variable.0 as usize) {
            Some(row) => row,
            None => &[],
        }
    }
}
