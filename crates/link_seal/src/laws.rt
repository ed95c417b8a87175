//! Laws of sealed frames.

ghost use Rattle.std.specs.Prelude.{◌≡◌, ◌≢◌, ◌⊎◌, ◌<◌, ◌≤◌, ◌+◌, ℕ, List, [], ◌∷◌, Ok, Err};
ghost use Rattle.std.specs.Prelude.{All, codes, length, replicate, take};
ghost use Rattle.byte_format.specs.Numbers.{AreBytes};
ghost use Rattle.js_base.specs.declared.ids.HostId.{HostId};
ghost use Rattle.link_seal.specs.declared.errors.OpenError.TheVariants as refusal;
ghost use Rattle.link_seal.specs.declared.sizes.TheConstants.{MOST_FRAMES};
ghost use Rattle.link_seal.specs.declared.hmac_sha256.TheConstants.{INNER_PAD};
ghost use Rattle.link_seal.specs.Hmac.{hmac_of, key_block, with_pad};
ghost use Rattle.link_seal.specs.Examples.{small_link, ended_link, small_text};
ghost use Rattle.link_seal.specs.Links.{LinkShape, new_link, after_one, text_of, sealed, next_sealed, CanSeal};
ghost use Rattle.link_seal.specs.Opening.{frame_in, opens};
ghost use Rattle.link_seal.specs.Accepting.{accepted, frames_of, AreFirstFrames, SomeForged};

/// Laws of sealed frames, for who reasons about them. The call does nothing.
pub fn seal_laws()
    // What an opener opens is what was sealed of this frame for its link with its next number.
    ensures opened { (link : LinkShape) (bytes frame : List ℕ) → AreBytes bytes → opens link bytes ≡ Ok frame →
        CanSeal link.next frame × (bytes ≡ next_sealed link frame) }

    // What is sealed with the number that is next is opened again.
    ensures again { (link : LinkShape) (frame : List ℕ) → CanSeal link.next frame →
        opens link (next_sealed link frame) ≡ Ok frame }

    // What is sealed with another number is refused, as a frame is that comes once more or out of its turn.
    ensures out_of_turn { (link : LinkShape) (number : ℕ) (frame : List ℕ) → CanSeal number frame → number ≢ link.next →
        opens link (sealed link.key link.from link.to number frame) ≡ Err (refusal.WrongNumber link.next) }

    // Bytes are those of one frame under one number of a link at most.
    ensures sealed_once { (key : List ℕ) (from to : HostId) (number other : ℕ) (first second : List ℕ) →
        number < MOST_FRAMES → other < MOST_FRAMES →
        sealed key from to number first ≡ sealed key from to other second → (number ≡ other) × (first ≡ second) }

    // Let any frames be sealed for a link, one after the other, and let any strings come to its opener. The frames that
    // it accepts, in order, are the first of those that were sealed. Or some string that it accepts has the tag of its
    // text, and yet is none of those that were sealed.
    ensures prefix { (key : List ℕ) (from to : HostId) (frames strings : List (List ℕ)) →
        length frames ≤ MOST_FRAMES → All AreBytes strings →
        let link = new_link key from to in
        let taken = accepted link strings in
        AreFirstFrames (frames_of taken) frames ⊎ SomeForged link frames taken }

    // The pads, and the key with zeros behind it.
    ensures worked_pad { with_pad INNER_PAD (0 ∷ 54 ∷ 255 ∷ []) ≡ 54 ∷ 0 ∷ 201 ∷ [] }
    ensures worked_key { key_block (7 ∷ 8 ∷ []) ≡ 7 ∷ 8 ∷ replicate 62 0 }

    // The first and the third test case of RFC 4231.
    ensures worked_hmac { hmac_of (replicate 20 11) (codes "Hi There")
        ≡ 176 ∷ 52 ∷ 76 ∷ 97 ∷ 216 ∷ 219 ∷ 56 ∷ 83 ∷ 92 ∷ 168 ∷ 175 ∷ 206 ∷ 175 ∷ 11 ∷ 241 ∷ 43
        ∷ 136 ∷ 29 ∷ 194 ∷ 0 ∷ 201 ∷ 131 ∷ 61 ∷ 167 ∷ 38 ∷ 233 ∷ 55 ∷ 108 ∷ 46 ∷ 50 ∷ 207 ∷ 247 ∷ [] }
    ensures worked_blocks { hmac_of (replicate 20 170) (replicate 50 221)
        ≡ 119 ∷ 62 ∷ 169 ∷ 30 ∷ 54 ∷ 128 ∷ 14 ∷ 70 ∷ 133 ∷ 77 ∷ 184 ∷ 235 ∷ 208 ∷ 145 ∷ 129 ∷ 167
        ∷ 41 ∷ 89 ∷ 9 ∷ 139 ∷ 62 ∷ 248 ∷ 193 ∷ 34 ∷ 217 ∷ 99 ∷ 85 ∷ 20 ∷ 206 ∷ 213 ∷ 101 ∷ 254 ∷ [] }

    // The sizes, and a text and a length byte by byte.
    ensures worked_size { (key : List ℕ) (from to : HostId) (number : ℕ) (frame : List ℕ) →
        length (sealed key from to number frame) ≡ length frame + 46 }
    ensures worked_text { (key : List ℕ) → text_of (small_link key).from (small_link key).to 258 (7 ∷ 8 ∷ [])
        ≡ 1 ∷ 2 ∷ 0 ∷ 0 ∷ 0 ∷ 0 ∷ 0 ∷ 0 ∷ 1 ∷ 2 ∷ 7 ∷ 8 ∷ [] }
    ensures worked_length { (key : List ℕ) →
        take 4 (next_sealed (small_link key) (replicate 18 0)) ≡ 0 ∷ 0 ∷ 0 ∷ 60 ∷ [] }

    // Refusals in their order, whatever the key is.
    ensures worked_nothing { (key : List ℕ) → opens (small_link key) [] ≡ Err refusal.Short }
    ensures worked_three { (key : List ℕ) → opens (small_link key) (255 ∷ 255 ∷ 255 ∷ []) ≡ Err refusal.Short }
    ensures worked_long { (key : List ℕ) → opens (small_link key) (0 ∷ 0 ∷ 16 ∷ 47 ∷ []) ≡ Err refusal.TooLong }
    ensures worked_longest { (key : List ℕ) → opens (small_link key) (0 ∷ 0 ∷ 16 ∷ 46 ∷ []) ≡ Err refusal.Short }
    ensures worked_small { (key : List ℕ) →
        opens (small_link key) (0 ∷ 0 ∷ 0 ∷ 41 ∷ replicate 42 0) ≡ Err refusal.Short }
    ensures worked_cut { (key : List ℕ) → opens (small_link key) (0 ∷ 0 ∷ 0 ∷ 42 ∷ replicate 41 0) ≡ Err refusal.Short }
    ensures worked_behind { (key : List ℕ) →
        opens (small_link key) (0 ∷ 0 ∷ 0 ∷ 42 ∷ replicate 43 0) ≡ Err refusal.Trailing }
    ensures worked_tag { (key text tag : List ℕ) → tag ≢ hmac_of key text →
        frame_in (small_link key) text tag ≡ Err refusal.BadTag }
    ensures worked_from { (key : List ℕ) → let text = small_text 2 2 1 in
        frame_in (small_link key) text (hmac_of key text) ≡ Err refusal.WrongLink }
    ensures worked_to { (key : List ℕ) → let text = small_text 1 1 0 in
        frame_in (small_link key) text (hmac_of key text) ≡ Err refusal.WrongLink }
    ensures worked_number { (key : List ℕ) → let text = small_text 1 2 1 in
        frame_in (small_link key) text (hmac_of key text) ≡ Err (refusal.WrongNumber 0) }
    ensures worked_ended { (key : List ℕ) → let link = ended_link key in
        let text = text_of link.from link.to MOST_FRAMES [] in
        frame_in link text (hmac_of key text) ≡ Err (refusal.WrongNumber MOST_FRAMES) }
    ensures worked_frame { (key : List ℕ) → let text = small_text 1 2 0 in
        frame_in (small_link key) text (hmac_of key text) ≡ Ok (9 ∷ []) }

    // A frame that comes twice is accepted once, and the one behind it is accepted.
    ensures worked_twice { (key first second : List ℕ) → CanSeal 0 first → CanSeal 1 second →
        let link = small_link key in
        let one = next_sealed link first in
        let other = next_sealed (after_one link) second in
        accepted link (one ∷ one ∷ other ∷ [])
        ≡ record { string = one; frame = first } ∷ record { string = other; frame = second } ∷ [] }
{}
