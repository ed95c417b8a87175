//! The code of all hosts.

ghost use Rattle.std.specs.Prelude.{◌≡◌, ◌<◌, Some, None, option_copied, slice_get};
ghost use Rattle.std.specs.String.{string_bytes};
ghost use Rattle.host_code.specs.Code.{part_of, instruction_at, field_at, variable_at, entry_at, site_at};
ghost use Rattle.host_code.specs.Sound.{IsSoundCode};

use crate::instruction::Instr;
use js_base::{EntryId, FieldId, HostId, SiteId, VarId};
use label_lattice::Label;
use std::marker::Model;

/// The items of a list and the bytes of a name, at most.
pub const MOST_ITEMS: usize = 4_294_967_295;

/// A host of the code.
#[derive(Drop)]
pub struct CodeHost {
    name: String,
    label: Label,
}

impl Model for CodeHost {
    ghost use Rattle.std.specs.String.{string_bytes};
    ghost use Rattle.host_code.specs.Code.{CodeHostShape};

    ghost Value = { CodeHostShape };

    ghost view = { λ h. record { name = string_bytes h.name; label = h.label } };
}

impl CodeHost {
    /// A host of this name, and the most that it may see and who trusts it.
    pub fn new(name: String, label: Label) -> CodeHost
        ensures { result ≡ record { name = string_bytes name; label = label } }
    {
        CodeHost { name, label }
    }

    /// Its name.
    pub fn name(&self) -> &str
        ensures { result.now ≡ self.now.name }
    {
        self.name.as_str()
    }

    /// The most that it may see, and who trusts it.
    pub fn label(&self) -> &Label
        ensures { result.now ≡ self.now.label }
    {
        &self.label
    }
}

/// A field or an array of the code.
#[derive(Drop)]
pub struct CodeField {
    name: String,
    label: u32,
    size: u32,
    array: bool,
    first: i64,
    host: HostId,
}

impl Model for CodeField {
    ghost use Rattle.std.specs.String.{string_bytes};
    ghost use Rattle.host_code.specs.Code.{CodeFieldShape};

    ghost Value = { CodeFieldShape };

    ghost view = { λ f. record {
      name = string_bytes f.name;
      label = f.label;
      size = f.size;
      array = f.array;
      first = f.first;
      host = f.host;
    } };
}

impl CodeField {
    /// A field with the place of its label among the code's labels, of so many elements (1 for a plain field), each of
    /// which starts with `first`, on a host.
    pub fn new(name: String, label: u32, size: u32, array: bool, first: i64, host: HostId) -> Self
        ensures { result ≡ record {
          name = string_bytes name;
          label = label;
          size = size;
          array = array;
          first = first;
          host = host;
        } }
    {
        CodeField {
            name,
            label,
            size,
            array,
            first,
            host,
        }
    }

    /// Its name.
    pub fn name(&self) -> &str
        ensures { result.now ≡ self.now.name }
    {
        self.name.as_str()
    }

    /// The place of its label among the code's labels.
    pub fn label(&self) -> u32
        ensures { result ≡ self.now.label }
    {
        self.label
    }

    /// How many elements it has, 1 for a plain field.
    pub fn size(&self) -> u32
        ensures { result ≡ self.now.size }
    {
        self.size
    }

    /// Whether it was declared as an array.
    pub fn is_array(&self) -> bool
        ensures { result ≡ self.now.array }
    {
        self.array
    }

    /// What each of its elements starts with.
    pub fn first(&self) -> i64
        ensures { result ≡ self.now.first }
    {
        self.first
    }

    /// The host that holds it.
    pub fn host(&self) -> HostId
        ensures { result ≡ self.now.host }
    {
        self.host
    }
}

/// A parameter, a local or a result of a method.
#[derive(Drop)]
pub struct CodeVar {
    name: String,
    label: u32,
}

impl Model for CodeVar {
    ghost use Rattle.std.specs.String.{string_bytes};
    ghost use Rattle.host_code.specs.Code.{CodeVariableShape};

    ghost Value = { CodeVariableShape };

    ghost view = { λ v. record { name = string_bytes v.name; label = v.label } };
}

impl CodeVar {
    /// A variable of the name `METHOD.NAME`, with the place of its label among the code's labels.
    pub fn new(name: String, label: u32) -> CodeVar
        ensures { result ≡ record { name = string_bytes name; label = label } }
    {
        CodeVar { name, label }
    }

    /// Its name, with that of its method: `METHOD.NAME`, or `METHOD.return` for a result.
    pub fn name(&self) -> &str
        ensures { result.now ≡ self.now.name }
    {
        self.name.as_str()
    }

    /// The place of its label among the code's labels.
    pub fn label(&self) -> u32
        ensures { result ≡ self.now.label }
    {
        self.label
    }
}

/// A place in a host's code at which a thread may start.
#[derive(Clone, Copy)]
pub struct Entry {
    pub host: HostId,
    /// The number of its instruction among those of the host.
    pub at: u32,
    /// The place of its program label among the code's labels.
    pub label: u32,
    /// A word with a bit for each principal who has to trust a host that enters here.
    pub need: u64,
}

/// The instructions of one host.
#[derive(Drop)]
pub struct Part {
    instructions: Vec<Instr>,
}

impl Model for Part {
    ghost use Rattle.std.specs.Prelude.{List};
    ghost use Rattle.host_code.specs.declared.instruction.Instr.{Instr};

    ghost Value = { List Instr };

    ghost view = { λ p. p.instructions.items };
}

impl Part {
    /// A part of these instructions.
    pub fn new(instructions: Vec<Instr>) -> Part
        ensures { result ≡ instructions.items }
    {
        Part { instructions }
    }

    /// The instructions in order.
    pub fn instructions(&self) -> &[Instr]
        ensures { result.now ≡ self.now }
    {
        &self.instructions
    }
}

/// What code is made of: the hosts, the labels that the rest names by their places, the fields and variables, the
/// entries, the host of each call site, and each host's instructions. The program starts on the root host, at the entry
/// of `main`.
#[derive(Drop)]
pub struct CodeParts {
    pub hosts: Vec<CodeHost>,
    pub labels: Vec<Label>,
    pub fields: Vec<CodeField>,
    pub vars: Vec<CodeVar>,
    pub entries: Vec<Entry>,
    /// From site 1 on.
    pub sites: Vec<HostId>,
    pub parts: Vec<Part>,
    pub root: HostId,
    pub main: EntryId,
}

/// The code of all hosts. All that it names is there and where it has to be, so that each host can run its part.
#[derive(Drop)]
pub struct Code {
    all: CodeParts,
}

impl Model for Code {
    ghost use Rattle.host_code.specs.Code.{CodeShape};
    ghost use Rattle.host_code.specs.CodeParts.{shape_of};
    ghost use Rattle.host_code.specs.Sound.{IsSoundCode};

    ghost Value = { CodeShape };

    ghost view = { λ c. shape_of c.all };

    ghost invariant = { λ c. IsSoundCode (shape_of c.all) };
}

impl Code {
    ghost use Rattle.host_code.specs.CodeParts.{shape_of};

    /// The code of these parts, which have to fit each other.
    pub fn new(parts: CodeParts) -> Code
        requires { IsSoundCode (shape_of parts) }
        ensures { result ≡ shape_of parts }
    {
        Code { all: parts }
    }

    /// The hosts in order, 1 to 16.
    pub fn hosts(&self) -> &[CodeHost]
        ensures hosts { result.now ≡ self.now.hosts }
        ensures sound { IsSoundCode self.now }
    {
        &self.all.hosts
    }

    /// The labels in order.
    pub fn labels(&self) -> &[Label]
        ensures labels { result.now ≡ self.now.labels }
        ensures sound { IsSoundCode self.now }
    {
        &self.all.labels
    }

    /// The fields in order.
    pub fn fields(&self) -> &[CodeField]
        ensures fields { result.now ≡ self.now.fields }
        ensures sound { IsSoundCode self.now }
    {
        &self.all.fields
    }

    /// The variables in order.
    pub fn vars(&self) -> &[CodeVar]
        ensures vars { result.now ≡ self.now.variables }
        ensures sound { IsSoundCode self.now }
    {
        &self.all.vars
    }

    /// The entries in order. The first ends the program.
    pub fn entries(&self) -> &[Entry]
        ensures entries { result.now ≡ self.now.entries }
        ensures sound { IsSoundCode self.now }
    {
        &self.all.entries
    }

    /// The hosts of the call sites, from site 1 on.
    pub fn sites(&self) -> &[HostId]
        ensures sites { result.now ≡ self.now.sites }
        ensures sound { IsSoundCode self.now }
    {
        &self.all.sites
    }

    /// The host on which the program starts.
    pub fn root(&self) -> HostId
        ensures root { result ≡ self.now.root }
        ensures sound { IsSoundCode self.now }
    {
        self.all.root
    }

    /// The entry of `main`.
    pub fn main(&self) -> EntryId
        ensures main { result ≡ self.now.main }
        ensures sound { IsSoundCode self.now }
    {
        self.all.main
    }

    /// A host, where there is one of the number.
    pub fn host(&self, host: HostId) -> Option<&CodeHost>
        ensures { option_copied result ≡ slice_get self.now.hosts host.0 }
    {
        self.all.hosts.get(host.0 as usize)
    }

    /// A field, where there is one of the number.
    pub fn field(&self, field: FieldId) -> Option<&CodeField>
        ensures { option_copied result ≡ field_at self.now field }
    {
        self.all.fields.get(field.0 as usize)
    }

    /// A variable, where there is one of the number.
    pub fn var(&self, var: VarId) -> Option<&CodeVar>
        ensures { option_copied result ≡ variable_at self.now var }
    {
        self.all.vars.get(var.0 as usize)
    }

    /// An entry, where there is one of the number.
    pub fn entry(&self, entry: EntryId) -> Option<Entry>
        ensures { result ≡ entry_at self.now entry }
    {
        self.all.entries.get(entry.0 as usize).copied()
    }

    /// The host of a call site, where there is one of the number, which counts from 1.
    pub fn site(&self, site: SiteId) -> Option<HostId>
        ensures { result ≡ site_at self.now site }
    {
        match site.0 {
            0 => None,
            number => self.all.sites.get(number as usize - 1).copied(),
        }
    }

    /// A label, where there is one of the number.
    pub fn label(&self, label: u32) -> Option<&Label>
        ensures { option_copied result ≡ slice_get self.now.labels label }
    {
        self.all.labels.get(label as usize)
    }

    /// A host's instructions, none where there is no such host.
    pub fn part(&self, host: HostId) -> &[Instr]
        ensures { result.now ≡ part_of self.now host }
    {
        match self.all.parts.get(host.0 as usize) {
            Some(part) => part.instructions(),
            None => &[],
        }
    }

    /// The instruction of a host at a place, where there is one.
    pub fn instruction(&self, host: HostId, at: u32) -> Option<&Instr>
        ensures { option_copied result ≡ instruction_at self.now host at }
    {
        self.part(host).get(at as usize)
    }
}
