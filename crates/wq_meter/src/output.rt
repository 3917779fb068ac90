//! Writing a text in full, one call after the other. The time is linear in the length of the text. Each call but the
//! last takes at least one byte.
ghost use Rattle.std.specs.Prelude.{◌≡◌, ◌+◌, ◌≤◌, length, OnOk, OnErr, IsOkUnless};
ghost use Rattle.wq_meter.specs.Meter.{count_after, WritesPrefix, WritesWhole};

use crate::fault::Fault;
use crate::metered::Metered;
use std::io::Write;

/// Writes all of `text`, in at most as many calls as it has bytes.
///
/// The only error is `Fault::Write`, if a write failed or took no byte. Then a proper prefix of the text is written.
pub fn write_text<W: Write>(writer: &mut Metered<W>, text: &[u8]) -> Result<(), Fault>
    // What is written.
    ensures whole { OnOk result (WritesWhole W.contents writer.old writer.new text.now) }
    ensures prefix { OnErr result (WritesPrefix W.contents writer.old writer.new text.now) }

    // What is asked of the writer, whatever the result.
    ensures calls { writer.new.calls ≤ writer.old.calls + length text.now }

    // Which fault it is.
    ensures failed { OnErr result (writer.new.failures ≡ count_after writer.old.failures 1) }
    ensures not_failed { OnOk result (writer.new.failures ≡ writer.old.failures) }
    ensures only_error { IsOkUnless result Fault.Write }
{
    let mut written = 0;
    while written < text.len() {
        written += writer.write(&text[written..])?;
    }
    Ok(())
}
