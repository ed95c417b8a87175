//! What messages name at the end of some bytes.
#![tactic(auto, using(crate::proofs::Appends::appends))]

ghost use Rattle.std.specs.Prelude.{◌≡◌, ◌++◌, OnOk};
ghost use Rattle.wire_msg.specs.Spelling.{request_bytes, frame_id_bytes, token_bytes};

use byte_format::{put_byte, put_number, put_word};
use capability::Token;
use js_base::{FrameId, OutOfMemory, RequestId};

/// Adds a request.
pub fn put_request(out: &mut Vec<u8>, request: RequestId) -> Result<(), OutOfMemory>
    ensures { OnOk result (out.new.items ≡ out.old.items ++ request_bytes request) }
{
    put_number(out, request.at)?;
    put_word(out, request.count)
}

/// Adds a frame of the program.
pub fn put_frame_id(out: &mut Vec<u8>, frame: FrameId) -> Result<(), OutOfMemory>
    ensures { OnOk result (out.new.items ≡ out.old.items ++ frame_id_bytes frame) }
{
    put_number(out, frame.site.0)?;
    put_word(out, frame.count)
}

/// Adds a token.
pub fn put_token(out: &mut Vec<u8>, token: &Token) -> Result<(), OutOfMemory>
    ensures { OnOk result (out.new.items ≡ out.old.items ++ token_bytes token.now) }
{
    put_byte(out, token.host.0)?;
    put_frame_id(out, token.frame)?;
    put_number(out, token.entry.0)?;
    put_word(out, token.serial)?;
    out.extend_from_slice(&token.tag)?;
    Ok(())
}
