//! Reading a text to its end, or to one byte past a limit. The extra byte shows that the text is too long, and the
//! limit stops an endless reader. The time and the memory are linear in the bytes that arrive. Each call of the reader,
//! except the last, brings at least one of them.
ghost use Rattle.std.specs.Prelude.{◌≡◌, ◌≢◌, ◌+◌, ◌<◌, ◌≤◌, length, take, min, Err, IfOk, OnOk, OnErr, IsOkUnless};
ghost use Rattle.std.specs.Result.{result_unwrap_or};
ghost use Rattle.std.specs.Io.KnownBytes.{Consumes, IsAtEnd, Keeps};
ghost use Rattle.wq_meter.specs.Input.{HasGivenBytes};
ghost use Rattle.wq_meter.specs.Meter.{count_after, LosesPrefix};

use crate::fault::Fault;
use crate::metered::Metered;
use std::alloc::Allocator;
use std::io::Read;

/// The most bytes that one call of the reader asks for.
const CHUNK_SIZE: usize = 4096;

/// The room for a text once the first chunk is full: 128 KiB.
const LONG_TEXT: usize = 131_072;

/// Reads to the end of the input, but at most `limit + 1` bytes, in at most as many calls. A result that is longer than
/// `limit` means that the input is too long.
///
/// The errors are `Fault::Read`, if a read failed, and `Fault::Memory`, if memory ran out. What was read before is
/// lost.
pub fn read_text<R: Read, A: Allocator + Copy>(
    alloc: A,
    reader: &mut Metered<R>,
    limit: u32,
) -> Result<Vec<u8, A>, Fault>
    // What arrives, and what is left.
    ensures given { IfOk result (λ text. HasGivenBytes R.remaining reader.old reader.new limit text.items) }
    ensures lost { LosesPrefix R.remaining reader.old reader.new (limit + 1) }

    // What is asked of the reader, whatever the result.
    ensures calls { reader.new.calls ≤ reader.old.calls + (limit + 1) }
    ensures bytes { reader.new.bytes ≤ reader.old.bytes + (limit + 1) }

    // Which fault it is.
    ensures failed { result ≡ Err Fault.Read → reader.new.failures ≡ count_after reader.old.failures 1 }
    ensures not_failed { result ≢ Err Fault.Read → reader.new.failures ≡ reader.old.failures }
    ensures never_writes { result ≢ Err Fault.Write }
{
    let mut text = Vec::new(alloc);
    let mut chunk = [0u8; CHUNK_SIZE];
    let mut room = limit as usize + 1;
    while room > 0 {
        let count = read_chunk(reader, &mut chunk, room)?;
        if count == 0 {
            return Ok(text);
        }
        text.extend_from_slice(&chunk[..count])?;
        make_room(&mut text);
        room -= count;
    }
    Ok(text)
}

/// Makes room for a long text if exactly the first chunk is full, so that it is rarely moved. If this allocation fails,
/// the text asks for less as it grows.
fn make_room<A: Allocator>(text: &mut Vec<u8, A>)
    ensures { text.new.items ≡ text.old.items }
{
    if text.len() == CHUNK_SIZE {
        text.reserve(LONG_TEXT - CHUNK_SIZE).ok();
    }
}

/// Reads once, at most `most` bytes, to the front of `chunk`.
fn read_chunk<R: Read>(
    reader: &mut Metered<R>,
    chunk: &mut [u8],
    most: usize,
) -> Result<usize, Fault>
    requires some { 0 < most }
    requires room { 0 < length chunk.old }
    ensures within { IfOk result (λ count. count ≤ min most (length chunk.new)) }
    ensures consumed { IfOk result (λ count. Consumes (R.remaining reader.old.device)
        (R.remaining reader.new.device) (take count chunk.new)) }
    ensures end { IfOk result (λ count. count ≡ 0 → IsAtEnd (R.remaining reader.new.device)) }
    ensures kept { OnErr result (Keeps (R.remaining reader.old.device) (R.remaining reader.new.device)) }
    ensures calls { reader.new.calls ≡ count_after reader.old.calls 1 }
    ensures bytes { reader.new.bytes ≡ count_after reader.old.bytes (result_unwrap_or result 0) }
    ensures failed { OnErr result (reader.new.failures ≡ count_after reader.old.failures 1) }
    ensures not_failed { OnOk result (reader.new.failures ≡ reader.old.failures) }
    ensures only_error { IsOkUnless result Fault.Read }
{
    let asked = most.min(chunk.len());
    reader.read(&mut chunk[..asked])
}
