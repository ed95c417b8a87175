//! Laws of split files.

ghost use Rattle.std.specs.Prelude.{◌≡◌, ◌≢◌, ℕ, ◌<◌, ◌⊎◌, ◌++◌, ◌∷◌, [], List, length, slice_index, Ok, Err, codes};
ghost use Rattle.std.specs.List.{flat_map};
ghost use Rattle.js_base.specs.declared.ids.HostId.{HostId};
ghost use Rattle.host_code.specs.declared.instruction.Op.TheVariants as op;
ghost use Rattle.host_code.specs.Code.{CodeShape};
ghost use Rattle.byte_format.specs.Lists.{list_bytes};
ghost use Rattle.split_file.specs.declared.fault.Fault.TheVariants as fault;
ghost use Rattle.split_file.specs.declared.error.SplitError.{SplitError};
ghost use Rattle.split_file.specs.declared.error.SplitError.TheVariants as refusal;
ghost use Rattle.split_file.specs.Spelling.{host_bytes, label_bytes, field_bytes, variable_bytes, entry_bytes};
ghost use Rattle.split_file.specs.Spelling.{host_id_bytes, operation_bytes, part_bytes, version_of, file_as};
ghost use Rattle.split_file.specs.Spelling.{split_file};
ghost use Rattle.split_file.specs.Reading.{operation_at, riders_at};
ghost use Rattle.split_file.specs.File.{IsRealCode, file_code};
ghost use Rattle.split_file.specs.Examples.{empty_main, only_back, file_head, first_host, riding_go, riding_main};

/// Laws of split files, for who reasons about them. The call does nothing.
pub fn split_file_laws()
    // A file is that of one code at most.
    ensures spelled_once { (first second : CodeShape) → IsRealCode first → IsRealCode second →
        split_file first ≡ split_file second → first ≡ second }

    // The file of a code is read as this code, and what is read as a code is its file.
    ensures read_again { (code : CodeShape) → IsRealCode code → file_code (split_file code) ≡ Ok code }
    ensures only_spelled { (bytes : List ℕ) (code : CodeShape) → ((i : ℕ) → slice_index bytes i < 256) →
        file_code bytes ≡ Ok code → IsRealCode code × (bytes ≡ split_file code) }

    // Bytes are the file of a code, or have one refusal that is no want of memory, and are then the file of no code.
    ensures code_or_refusal { (bytes : List ℕ) → ((i : ℕ) → slice_index bytes i < 256) →
        ((code : CodeShape) × IsRealCode code × (bytes ≡ split_file code) × (file_code bytes ≡ Ok code))
        ⊎ ((refused : SplitError) × (refused ≢ refusal.OutOfMemory) × (file_code bytes ≡ Err refused)
        × ((code : CodeShape) → IsRealCode code → bytes ≢ split_file code)) }

    // Version 2 is that of code in which values ride, and of no other: other code behind it is refused at the version.
    ensures idle_version { (code : CodeShape) → IsRealCode code → version_of code ≡ 1 →
        file_code (file_as 2 code) ≡ Err (refusal.BadField 8) }

    // The file of a `main` that does nothing, on two hosts: 10 bytes, and so many for each part.
    ensures worked_hosts { length (list_bytes host_bytes empty_main.hosts) ≡ 1038 }
    ensures worked_labels { length (list_bytes label_bytes empty_main.labels) ≡ 516 }
    ensures worked_fields { length (list_bytes field_bytes empty_main.fields) ≡ 4 }
    ensures worked_variables { length (list_bytes variable_bytes empty_main.variables) ≡ 4 }
    ensures worked_entries { length (list_bytes entry_bytes empty_main.entries) ≡ 38 }
    ensures worked_sites { length (list_bytes host_id_bytes empty_main.sites) ≡ 4 }
    ensures worked_parts { (length (part_bytes only_back) ≡ 13) × (length (part_bytes []) ≡ 4) }
    ensures worked_file { length (split_file empty_main) ≡ 1636 }

    // A file in which a value rides.
    ensures worked_versions { (version_of empty_main ≡ 1) × (version_of riding_main ≡ 2) }
    ensures worked_riding { operation_bytes riding_go
        ≡ 15 ∷ 0 ∷ 0 ∷ 0 ∷ 2 ∷ 1 ∷ 0 ∷ 0 ∷ 0 ∷ 1 ∷ 0 ∷ 0 ∷ 0 ∷ 0 ∷ [] }
    ensures worked_riding_file { length (split_file riding_main) ≡ 1689 }

    // Operations 15 and 16 are those of version 2 alone, and there are no others.
    ensures worked_plain_go { (code : CodeShape) (me : HostId) (temporaries places : ℕ) →
        operation_at 1 code me temporaries places (15 ∷ []) ≡ Err (fault.BadField 1) }
    ensures worked_plain_call { (code : CodeShape) (me : HostId) (temporaries places : ℕ) →
        operation_at 1 code me temporaries places (16 ∷ []) ≡ Err (fault.BadField 1) }
    ensures worked_riding_call { (code : CodeShape) (me : HostId) (temporaries places : ℕ) →
        operation_at 2 code me temporaries places (16 ∷ []) ≡ Err fault.Short }
    ensures worked_no_operation { (code : CodeShape) (me : HostId) (temporaries places : ℕ) →
        operation_at 2 code me temporaries places (17 ∷ []) ≡ Err (fault.BadField 1) }

    // A call goes to its own host only where no values ride.
    ensures worked_own_call { operation_at 2 riding_main first_host 0 1 (11 ∷ 0 ∷ 0 ∷ 0 ∷ 1 ∷ 0 ∷ [])
        ≡ Ok (op.Call (record { 0 = 1 }) first_host, []) }
    ensures worked_own_riding_call { operation_at 2 riding_main first_host 0 1 (16 ∷ 0 ∷ 0 ∷ 0 ∷ 1 ∷ 0 ∷ [])
        ≡ Err (fault.BadField 1) }

    // 1 to 8 values ride, and another count is out of range before its variables are looked at.
    ensures worked_none_ride { (variables : ℕ) → riders_at variables (0 ∷ 0 ∷ 0 ∷ 0 ∷ []) ≡ Err (fault.BadField 4) }
    ensures worked_nine_ride { (variables : ℕ) → riders_at variables (0 ∷ 0 ∷ 0 ∷ 9 ∷ []) ≡ Err (fault.BadField 4) }
    ensures worked_eight_ride { (variables : ℕ) → riders_at variables (0 ∷ 0 ∷ 0 ∷ 8 ∷ []) ≡ Err fault.Short }

    // Refusals as soon as the bytes are there.
    ensures worked_short { file_code (codes "JIFSPLI") ≡ Err refusal.Short }
    ensures worked_magic { file_code (codes "JIFSPLIX") ≡ Err refusal.BadMagic }
    ensures worked_half_version { file_code (codes "JIFSPLIT" ++ 0 ∷ []) ≡ Err refusal.Short }
    ensures worked_version { file_code (codes "JIFSPLIT" ++ 0 ∷ 3 ∷ []) ≡ Err refusal.BadVersion }
    ensures worked_riding_version { file_code (codes "JIFSPLIT" ++ 0 ∷ 2 ∷ []) ≡ Err refusal.Short }
    ensures worked_no_host { file_code (file_head ++ 0 ∷ 0 ∷ 0 ∷ 0 ∷ []) ≡ Err (refusal.BadField 10) }
    ensures worked_many_hosts { file_code (file_head ++ 0 ∷ 0 ∷ 0 ∷ 17 ∷ []) ≡ Err (refusal.BadField 10) }
    ensures worked_no_name { file_code (file_head ++ 0 ∷ 0 ∷ 0 ∷ 2 ∷ 0 ∷ 0 ∷ 0 ∷ 0 ∷ []) ≡ Err (refusal.BadField 14) }
    ensures worked_half_name { file_code (file_head ++ 0 ∷ 0 ∷ 0 ∷ 2 ∷ 0 ∷ 0 ∷ 0 ∷ 2 ∷ 65 ∷ []) ≡ Err refusal.Short }
    ensures worked_half_label { file_code (file_head ++ 0 ∷ 0 ∷ 0 ∷ 2 ∷ 0 ∷ 0 ∷ 0 ∷ 1 ∷ 65 ∷ []) ≡ Err refusal.Short }
{}
