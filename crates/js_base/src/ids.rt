//! The numbers by which programs and code name their parts. Each counts from 0 in the order of the text or of the host
//! file, except that call sites count from 1: site 0 is the frame of `main`.

/// A declared principal, below `PRINCIPALS`.
#[derive(Clone, Copy, Debug, PartialEq, Eq)]
pub struct PrincipalId(pub u8);

/// A host, below `HOSTS`.
#[derive(Clone, Copy, Debug, PartialEq, Eq)]
pub struct HostId(pub u8);

/// A field or an array.
#[derive(Clone, Copy, Debug, PartialEq, Eq)]
pub struct FieldId(pub u32);

/// A parameter, a local or the result of a method.
#[derive(Clone, Copy, Debug, PartialEq, Eq)]
pub struct VarId(pub u32);

/// A method.
#[derive(Clone, Copy, Debug, PartialEq, Eq)]
pub struct MethodId(pub u32);

/// A statement, or the head of a method.
#[derive(Clone, Copy, Debug, PartialEq, Eq)]
pub struct StmtId(pub u32);

/// A place in a host's code at which a thread may start.
#[derive(Clone, Copy, Debug, PartialEq, Eq)]
pub struct EntryId(pub u32);

/// A call in the text, counted from 1.
#[derive(Clone, Copy, Debug, PartialEq, Eq)]
pub struct SiteId(pub u32);

/// The frame of the `count`-th call, from 0, that was made at a call site.
#[derive(Clone, Copy, Debug, PartialEq, Eq)]
pub struct FrameId {
    pub site: SiteId,
    pub count: u64,
}

/// The `count`-th request, from 0, that instruction `at` of the asking host made.
#[derive(Clone, Copy, Debug, PartialEq, Eq)]
pub struct RequestId {
    pub at: u32,
    pub count: u64,
}
