//! A text is written whole.

ghost use Rattle.std.specs.Prelude.{◌≡◌, true, false, OnOk, OnErr};
ghost use Rattle.std.specs.Io.KnownBytes.{Appends};
ghost use Rattle.gq_streams.specs.Watched.{inner_of, has_failed, AppendsPrefix};

use crate::watched::Watched;
use std::io::Write;

/// A text was not written whole: the writer failed, or took none of some bytes.
#[derive(Drop)]
pub struct WriteFault;

/// Writes the whole text by a loop over `write`. At a fault the writer has failed, and a prefix of the text was
/// written. A writer that buffers is flushed by the caller.
pub fn write_whole<W: Write>(writer: &mut Watched<W>, text: &[u8]) -> Result<(), WriteFault>
    requires { has_failed writer.old ≡ false }
    ensures ok { OnOk result (Appends (W.contents (inner_of writer.old))
        (W.contents (inner_of writer.new)) text.now) }
    ensures fine { OnOk result (has_failed writer.new ≡ false) }
    ensures failed { OnErr result (has_failed writer.new ≡ true) }
    ensures prefix { OnErr result (AppendsPrefix (W.contents (inner_of writer.old))
        (W.contents (inner_of writer.new)) text.now) }
{
    let mut done = 0;
    while done < text.len() {
        match writer.write(&text[done..]) {
            Ok(n) => {
                if n == 0 {
                    return Err(WriteFault);
                }
                done += n;
            }
            Err(_) => return Err(WriteFault),
        }
    }
    Ok(())
}
