//! The limits of what is read and made.

/// Bytes of a program's text.
pub const PROGRAM_BYTES: usize = 1_048_576;
/// Bytes of a host file.
pub const HOSTS_BYTES: usize = 65_536;
/// Bytes of a file of starting values or of events.
pub const SCRIPT_BYTES: usize = 16_777_216;
/// Bytes of a split file.
pub const SPLIT_FILE_BYTES: usize = 67_108_864;
/// Declared principals.
pub const PRINCIPALS: usize = 63;
/// Hosts of a host file.
pub const HOSTS: usize = 16;
/// The cost of a link, at least 1.
pub const LINK_COST: u32 = 1_000;
/// Fields and arrays of a program.
pub const FIELDS: usize = 256;
/// Methods of a program.
pub const METHODS: usize = 128;
/// Parameters of a method.
pub const PARAMETERS: usize = 8;
/// Elements of an array, at least 1.
pub const ARRAY_SIZE: u32 = 65_536;
/// Elements of all fields and arrays together.
pub const ELEMENTS: u32 = 262_144;
/// Parameters and locals of a method.
pub const VARIABLES: usize = 256;
/// Statements of a program, the heads of its methods included.
pub const STATEMENTS: usize = 4_096;
/// Nodes of all expressions of a statement.
pub const EXPRESSION_NODES: usize = 256;
/// Constructs that are open at one place of a program.
pub const NESTING: usize = 64;
/// Bytes of a message's frame after its length.
pub const FRAME_BYTES: usize = 4_096;
/// The largest number of a program.
pub const LARGEST_NUMBER: i64 = 9_223_372_036_854_775_807;
