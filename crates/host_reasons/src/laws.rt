//! Laws of bad keys, and messages that are worked out. The calls do nothing: their contracts have them.

ghost use Rattle.std.specs.Prelude.{◌≡◌, ◌≢◌, ◌++◌, ℕ, List, [], None, String, codes, string_bytes};
ghost use Rattle.std.specs.Fmt.{decimal};
ghost use Rattle.std.specs.declared.alloc.Global.{Global};
ghost use Rattle.toml.specs.Data.{Members};
ghost use Rattle.explain_texts.specs.Heads.{told};
ghost use Rattle.explain_texts.specs.Told.{ToldShape};
ghost use Rattle.host_decl.specs.declared.error.HostsError.{HostsError};
ghost use Rattle.host_decl.specs.declared.error.HostsError.TheVariants.{BadKey, OutOfMemory};
ghost use Rattle.host_decl.specs.Reading.{RefusesHosts};
ghost use Rattle.host_decl.specs.Refusal.{HostsRefusal, bad_key, not_toml, refusal_shape};
ghost use Rattle.host_decl.specs.Schema.{IsFirstBadKey, file_tables};
ghost use Rattle.host_decl.specs.declared.schema.Form.TheVariants.{Key, Tables};
ghost use Rattle.host_decl.specs.declared.schema.TableKind.TheVariants.{File, Host, Link};
ghost use Rattle.host_reasons.specs.declared.bad_key.KeyFault.TheVariants.{Missing, Unknown, OtherForm};
ghost use Rattle.host_reasons.specs.BadKeys.{BadKeyShape, IsBadKeyOf};
ghost use Rattle.host_reasons.specs.HostsTold.{HasBadKey, HostsTold, key_message, label_message};

/// Laws of the first bad key of a host file.
pub fn host_reason_laws()
    // A file has one first bad key at most.
    ensures one_bad_key { (file : Members) (first second : BadKeyShape) → IsBadKeyOf file first →
        IsBadKeyOf file second → first ≡ second }
    // It is the one for which the file is refused.
    ensures same_key { (file : Members) (key : List ℕ) (bad : BadKeyShape) → IsFirstBadKey (file_tables file) key →
        IsBadKeyOf file bad → bad.key ≡ key }
    // A file that is refused for a key has one.
    ensures some_bad_key { (file : Members) (key : List ℕ) → IsFirstBadKey (file_tables file) key →
        (bad : BadKeyShape) × IsBadKeyOf file bad × (bad.key ≡ key) }
{}

/// Laws of what is told of a host file that is refused.
pub fn host_told_laws()
    // One thing is told. Where it is no TOML that is so but for the place.
    ensures one_told { (bytes : List ℕ) (why : HostsRefusal) (first second : ToldShape) → why ≢ not_toml →
        HostsTold bytes why first → HostsTold bytes why second → first ≡ second }
    // And something is told, of whatever bytes are refused so.
    ensures some_told { (bytes : List ℕ) (why : HostsError) → RefusesHosts bytes why →
        why ≢ OutOfMemory → (what : ToldShape) × HostsTold bytes (refusal_shape why) what }
    // Where the bytes are refused for a key, the table of that key is told, and in which way it is bad.
    ensures key_told { (bytes : List ℕ) (key : String Global) (what : ToldShape) → RefusesHosts bytes (BadKey key) →
        HostsTold bytes (bad_key (string_bytes key)) what →
        (bad : BadKeyShape) × HasBadKey bytes bad × (bad.key ≡ string_bytes key)
        × (what ≡ told None (key_message bad) []) }
{}

/// Messages, word by word.
pub fn host_reason_examples()
    ensures missing { key_message (record { kind = Host; number = 1; key = codes "label"; fault = Missing })
        ≡ codes "[[host]] number " ++ (decimal 2 ++ codes ": key 'label' is missing") }
    ensures unknown { key_message (record { kind = File; number = 0; key = codes "hosts"; fault = Unknown })
        ≡ codes "the file: there is no key 'hosts'" }
    ensures other_form { key_message (record { kind = File; number = 0; key = codes "host"; fault = OtherForm Tables })
        ≡ codes "the file: key 'host' has to be an array of tables" }
    ensures link { key_message (record { kind = Link; number = 0; key = codes "key"; fault = OtherForm Key })
        ≡ codes "[[link]] number " ++ (decimal 1
        ++ codes ": key 'key' has to be a text of 64 hexadecimal digits") }
    ensures label { label_message (codes "A") (codes "{Alice")
        ≡ codes "host A: '{Alice' is no label of these principals" }
{}
