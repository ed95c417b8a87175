//! Laws of the check, for who reasons about it.

ghost use Rattle.std.specs.Prelude.{◌≡◌, ◌≢◌, ◌⊎◌};
ghost use Rattle.js_base.specs.declared.ids.HostId.{HostId};
ghost use Rattle.host_code.specs.Code.{CodeShape};
ghost use Rattle.part_verify.specs.declared.errors.VerifyError.{VerifyError};
ghost use Rattle.part_verify.specs.declared.errors.VerifyError.TheVariants.{OutOfMemory};
ghost use Rattle.part_verify.specs.SoundPart.{IsSoundPart};
ghost use Rattle.part_verify.specs.Refusing.{IsPartRefusedFor};

/// Laws of what a part is refused for. The call does nothing.
pub fn verify_laws()
    // But for want of memory a part is refused for one thing only.
    ensures one_refusal { (code : CodeShape) (me : HostId) (first second : VerifyError) →
        first ≢ OutOfMemory → second ≢ OutOfMemory →
        IsPartRefusedFor code me first → IsPartRefusedFor code me second → first ≡ second }

    // A sound part is refused for nothing else.
    ensures never_both { (code : CodeShape) (me : HostId) (error : VerifyError) →
        IsSoundPart code me → IsPartRefusedFor code me error → error ≡ OutOfMemory }

    // Any part is sound, or refused for something else.
    ensures sound_or_refused { (code : CodeShape) (me : HostId) → IsSoundPart code me
        ⊎ ((error : VerifyError) × (error ≢ OutOfMemory) × IsPartRefusedFor code me error) }
{}
