//! Why a host file was refused.

use js_base::{HostId, OutOfMemory};
use principals::PrincipalError;
use std::alloc::AllocFailed;
use thiserror::Error;

/// Why a host file was refused. Of several causes the first in this order comes, except that memory may run out at any
/// time: too long, not TOML, a bad key, the principals, no host, too many hosts, a host twice, a bad label, a bad link.
#[derive(Debug, PartialEq, Eq, Drop, Error)]
pub enum HostsError {
    /// Memory ran out.
    #[error("out of memory")]
    OutOfMemory,
    /// It is not UTF-8, or not a TOML document.
    #[error("not TOML")]
    NotToml,
    /// The first key that is unknown, missing or of a wrong form: the file's own keys first, then those of the hosts in
    /// order, then those of the links in order, within each table by the bytes of the key.
    #[error("bad key {0}")]
    BadKey(String),
    /// The first host whose text of a label is not a label, or names a principal that is not declared, and its name.
    #[error("bad label of host {1}")]
    BadLabel(HostId, String),
    /// The principals cannot be declared. Where memory ran out it is `OutOfMemory`.
    #[error("{0}")]
    Principals(PrincipalError),
    /// There are more than 16 hosts.
    #[error("too many hosts")]
    TooManyHosts,
    /// The first name of a host that repeats an earlier one.
    #[error("host {0} twice")]
    HostTwice(String),
    /// There is no host.
    #[error("no host")]
    NoHost,
    /// The first link, counted from 0, with an unknown host, with one host at both ends, with a cost that is not 1 to
    /// 1,000, or with the ends of an earlier link.
    #[error("bad link {0}")]
    BadLink(u32),
    /// It has more than 65,536 bytes.
    #[error("too long")]
    TooLong,
}

impl From<OutOfMemory> for HostsError {
    ghost use Rattle.std.specs.Prelude.{◌≡◌};
    ghost use Rattle.host_decl.specs.declared.error.HostsError.TheVariants as error;

    ghost from_gives = { λ _ e. e ≡ error.OutOfMemory };

    fn from(_error: OutOfMemory) -> HostsError {
        HostsError::OutOfMemory
    }
}

impl<T: Drop> From<AllocFailed<T>> for HostsError {
    ghost use Rattle.std.specs.Prelude.{◌≡◌};
    ghost use Rattle.host_decl.specs.declared.error.HostsError.TheVariants as error;

    ghost from_gives = { λ _ e. e ≡ error.OutOfMemory };

    fn from(_error: AllocFailed<T>) -> HostsError {
        HostsError::OutOfMemory
    }
}
