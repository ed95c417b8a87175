//! Laws of what a host may ask, for whoever reasons about requests. The call does nothing.

ghost use Rattle.std.specs.Prelude.{◌⊎◌};
ghost use Rattle.js_base.specs.declared.ids.HostId.{HostId};
ghost use Rattle.host_code.specs.Code.{CodeShape};
ghost use Rattle.entry_check.specs.Checks.{May};
ghost use Rattle.entry_check.specs.declared.ask.Ask.{Ask};

/// Of any request, with any code, it holds that the host may ask it or that it may not.
pub fn check_laws()
    ensures decided { (code : CodeShape) (me : HostId) (asked : Ask) (from : HostId) →
        May code me asked from ⊎ ¬ May code me asked from }
{}
