//! Laws of frames.

ghost use Rattle.std.specs.Prelude.{◌≡◌, ◌≢◌, ◌≤◌, ◌*◌, ◌+◌, true, ℕ, ℤ, ◌⊎◌, ◌∷◌, [], ◌++◌, List, length, replicate};
ghost use Rattle.std.specs.Prelude.{Ok, Err};
ghost use Rattle.js_base.specs.declared.limits.TheConstants.{HOSTS};
ghost use Rattle.js_base.specs.declared.ids.HostId.{HostId};
ghost use Rattle.js_base.specs.declared.ids.FieldId.{FieldId};
ghost use Rattle.js_base.specs.declared.ids.VarId.{VarId};
ghost use Rattle.js_base.specs.declared.ids.EntryId.{EntryId};
ghost use Rattle.js_base.specs.declared.ids.FrameId.{FrameId};
ghost use Rattle.js_base.specs.declared.ids.RequestId.{RequestId};
ghost use Rattle.capability.specs.declared.token.Token.{Token};
ghost use Rattle.host_code.specs.declared.message.Message.{Message};
ghost use Rattle.host_code.specs.declared.message.Message.TheVariants as message;
ghost use Rattle.host_code.specs.Riders.{Rider};
ghost use Rattle.host_code.specs.Code.{CodeShape};
ghost use Rattle.host_code.specs.Messages.{MessageFits};
ghost use Rattle.byte_format.specs.Numbers.{AreBytes};
ghost use Rattle.wire_msg.specs.declared.error.WireError.{WireError};
ghost use Rattle.wire_msg.specs.declared.error.WireError.TheVariants as refusal;
ghost use Rattle.wire_msg.specs.declared.frame.Frame.{Frame};
ghost use Rattle.wire_msg.specs.declared.frame.Frame.TheVariants as frame;
ghost use Rattle.wire_msg.specs.Frames.{has_host, IsTag, IsSent};
ghost use Rattle.wire_msg.specs.Faults.{first_fault, fault_in};
ghost use Rattle.wire_msg.specs.Spelling.{frame_bytes};
ghost use Rattle.wire_msg.specs.Reading.{reading_of};
ghost use Rattle.wire_msg.specs.Examples.{first_host, last_host, small_request, riding_seven, riding_fields};

/// Laws of frames, for who reasons about them. The call does nothing.
pub fn wire_laws()
    // Bytes are those of one frame of one sender at most.
    ensures spelled_once { (from other : HostId) (first second : Frame) → IsSent from first → IsSent other second →
        frame_bytes from first ≡ frame_bytes other second → (from ≡ other) × (first ≡ second) }

    // The bytes of a frame are read as this frame, and what is read as a frame is its bytes.
    ensures read_again { (from : HostId) (sent : Frame) → IsSent from sent →
        reading_of (frame_bytes from sent) ≡ Ok (from, sent) }
    ensures only_spelled { (bytes : List ℕ) (from : HostId) (sent : Frame) → AreBytes bytes →
        reading_of bytes ≡ Ok (from, sent) → IsSent from sent × (bytes ≡ frame_bytes from sent) }

    // A message that fits code of no more hosts than there may be can be sent.
    ensures fitting { (code : CodeShape) (sent : Message) → length code.hosts ≤ HOSTS → MessageFits code sent →
        has_host (frame.Message sent) ≡ true }

    // Bytes are those of a frame, or have one refusal, and are then those of no frame.
    ensures frame_or_refusal { (bytes : List ℕ) → AreBytes bytes →
        ((from : HostId) × (sent : Frame) × IsSent from sent × (bytes ≡ frame_bytes from sent)
        × (reading_of bytes ≡ Ok (from, sent)))
        ⊎ ((what : WireError) × (reading_of bytes ≡ Err what)
        × ((from : HostId) (sent : Frame) → IsSent from sent → bytes ≢ frame_bytes from sent)) }

    // What bytes are refused for, told by places and lengths alone.
    ensures refused { (bytes : List ℕ) → fault_in (reading_of bytes) ≡ first_fault bytes }

    // How many bytes a frame of each kind has.
    ensures worked_get { (from : HostId) (request : RequestId) (field : FieldId) (index : ℤ) →
        length (frame_bytes from (frame.Message (message.Get request field index))) ≡ 30 }
    ensures worked_set { (from : HostId) (request : RequestId) (field : FieldId) (index value : ℤ) →
        length (frame_bytes from (frame.Message (message.Set request field index value))) ≡ 38 }
    ensures worked_forward { (from : HostId) (request : RequestId) (id : FrameId) (variable : VarId) (value : ℤ) →
        length (frame_bytes from (frame.Message (message.Forward request id variable value))) ≡ 42 }
    ensures worked_sync { (from : HostId) (request : RequestId) (id : FrameId) (entry : EntryId) (token : Token) →
        IsTag token.tag → length (frame_bytes from (frame.Message (message.Sync request id entry token))) ≡ 75 }
    ensures worked_rgoto { (from : HostId) (id : FrameId) (entry : EntryId) (token : Token) →
        IsTag token.tag → length (frame_bytes from (frame.Message (message.Rgoto id entry token))) ≡ 63 }
    ensures worked_rgoto_with { (from : HostId) (id : FrameId) (entry : EntryId) (token : Token) (riders : List Rider) →
        IsTag token.tag →
        length (frame_bytes from (frame.Message (message.RgotoWith id entry token riders))) ≡ 64 + 12 * length riders }
    ensures worked_lgoto { (from : HostId) (token : Token) → IsTag token.tag →
        length (frame_bytes from (frame.Message (message.Lgoto token))) ≡ 47 }
    ensures worked_value { (from : HostId) (request : RequestId) (value : ℤ) →
        length (frame_bytes from (frame.Message (message.Value request value))) ≡ 26 }
    ensures worked_ack { (from : HostId) (request : RequestId) →
        length (frame_bytes from (frame.Message (message.Ack request))) ≡ 18 }
    ensures worked_token { (from : HostId) (request : RequestId) (token : Token) → IsTag token.tag →
        length (frame_bytes from (frame.Message (message.Token request token))) ≡ 59 }
    ensures worked_done { (from : HostId) → frame_bytes from frame.Done ≡ 0 ∷ 0 ∷ 0 ∷ 2 ∷ from.0 ∷ 10 ∷ [] }

    // An ack, byte by byte.
    ensures worked_bytes { frame_bytes first_host (frame.Message (message.Ack small_request))
        ≡ 0 ∷ 0 ∷ 0 ∷ 14 ∷ 0 ∷ 8 ∷ 0 ∷ 0 ∷ 1 ∷ 2 ∷ 0 ∷ 0 ∷ 0 ∷ 0 ∷ 0 ∷ 0 ∷ 3 ∷ 4 ∷ [] }

    // An rgoto with which one value rides.
    ensures worked_riding { frame_bytes first_host (frame.Message riding_seven)
        ≡ 0 ∷ 0 ∷ 0 ∷ 72 ∷ 0 ∷ 11 ∷ (riding_fields 0 1 ++ replicate 11 0 ++ 7 ∷ []) }

    // Refusals in their order.
    ensures worked_nothing { reading_of [] ≡ Err refusal.Short }
    ensures worked_length { reading_of (255 ∷ 255 ∷ 255 ∷ []) ≡ Err refusal.Short }
    ensures worked_long { reading_of (0 ∷ 0 ∷ 16 ∷ 1 ∷ []) ≡ Err refusal.TooLong }
    ensures worked_longest { reading_of (0 ∷ 0 ∷ 16 ∷ 0 ∷ []) ≡ Err refusal.Short }
    ensures worked_cut { reading_of (0 ∷ 0 ∷ 0 ∷ 2 ∷ 99 ∷ []) ≡ Err refusal.Short }
    ensures worked_empty { reading_of (0 ∷ 0 ∷ 0 ∷ 0 ∷ 3 ∷ 10 ∷ []) ≡ Err refusal.Short }
    ensures worked_no_kind { reading_of (0 ∷ 0 ∷ 0 ∷ 1 ∷ 99 ∷ []) ≡ Err refusal.Short }
    ensures worked_sender { reading_of (0 ∷ 0 ∷ 0 ∷ 2 ∷ 16 ∷ 0 ∷ []) ≡ Err refusal.BadField }
    ensures worked_first_kind { reading_of (0 ∷ 0 ∷ 0 ∷ 2 ∷ 15 ∷ 0 ∷ []) ≡ Err refusal.BadKind }
    ensures worked_last_kind { reading_of (0 ∷ 0 ∷ 0 ∷ 3 ∷ 15 ∷ 12 ∷ 0 ∷ []) ≡ Err refusal.BadKind }
    ensures worked_fields { reading_of (0 ∷ 0 ∷ 0 ∷ 3 ∷ 15 ∷ 6 ∷ 16 ∷ []) ≡ Err refusal.Short }
    ensures worked_cut_token { reading_of (0 ∷ 0 ∷ 0 ∷ 42 ∷ 15 ∷ 6 ∷ 16 ∷ replicate 39 0) ≡ Err refusal.Short }
    ensures worked_token_host { reading_of (0 ∷ 0 ∷ 0 ∷ 44 ∷ 15 ∷ 6 ∷ 16 ∷ replicate 41 0) ≡ Err refusal.BadField }
    ensures worked_cut_count { reading_of (0 ∷ 0 ∷ 0 ∷ 59 ∷ 15 ∷ 11 ∷ replicate 16 0 ++ 16 ∷ replicate 40 0)
        ≡ Err refusal.Short }
    ensures worked_riding_host { reading_of (0 ∷ 0 ∷ 0 ∷ 60 ∷ 15 ∷ 11 ∷ riding_fields 16 1) ≡ Err refusal.BadField }
    ensures worked_none_ride { reading_of (0 ∷ 0 ∷ 0 ∷ 60 ∷ 15 ∷ 11 ∷ riding_fields 0 0) ≡ Err refusal.BadField }
    ensures worked_nine_ride { reading_of (0 ∷ 0 ∷ 0 ∷ 60 ∷ 15 ∷ 11 ∷ riding_fields 0 9) ≡ Err refusal.BadField }
    ensures worked_eight_ride { reading_of (0 ∷ 0 ∷ 0 ∷ 60 ∷ 15 ∷ 11 ∷ riding_fields 0 8) ≡ Err refusal.Short }
    ensures worked_cut_pair { reading_of (0 ∷ 0 ∷ 0 ∷ 72 ∷ 15 ∷ 11 ∷ riding_fields 0 2 ++ replicate 12 0)
        ≡ Err refusal.Short }
    ensures worked_pair_left { reading_of (0 ∷ 0 ∷ 0 ∷ 73 ∷ 15 ∷ 11 ∷ riding_fields 0 1 ++ replicate 13 0)
        ≡ Err refusal.Trailing }
    ensures worked_left { reading_of (0 ∷ 0 ∷ 0 ∷ 3 ∷ 15 ∷ 10 ∷ 0 ∷ []) ≡ Err refusal.Trailing }
    ensures worked_behind { reading_of (0 ∷ 0 ∷ 0 ∷ 2 ∷ 15 ∷ 10 ∷ 0 ∷ []) ≡ Err refusal.Trailing }
    ensures worked_read { reading_of (0 ∷ 0 ∷ 0 ∷ 2 ∷ 15 ∷ 10 ∷ []) ≡ Ok (last_host, frame.Done) }
{}
