//! Reading the texts of a command in order, each to its end or to the first byte past its limit.
//!
//! All that is promised of the readers of a command is promised here, once for all commands. The time is that of
//! reading.

ghost use Rattle.std.specs.Prelude.{◌≡◌, ◌≢◌, ◌≤◌, ◌+◌, ◌⊎◌, Err, Some, IfOk};
ghost use Rattle.wq_meter.specs.Input.{HasFailed, HasGiven};
ghost use Rattle.wq_meter.specs.Meter.{LosesPrefix};
ghost use Rattle.wq_meter.specs.Shell.{AfterIf, AreFrom, AreKept, Came, GivesIf, HasFailedIf, HasGivenIf, most};

use crate::fault::Fault;
use crate::input::read_text;
use crate::metered::Metered;
use crate::texts::{Limits, Texts};
use std::alloc::Allocator;
use std::io::Read;

/// Reads a text within its limit, if there is one.
fn read_if<R: Read, A: Allocator + Copy>(
    alloc: A,
    reader: &mut Metered<R>,
    limit: Option<u32>,
) -> Result<Vec<u8, A>, Fault>
    ensures came { IfOk result (λ text. Came R.remaining reader.old reader.new limit text.items) }
    ensures lost { LosesPrefix R.remaining reader.old reader.new (most limit) }
    ensures calls { reader.new.calls ≤ reader.old.calls + most limit }
    ensures bytes { reader.new.bytes ≤ reader.old.bytes + most limit }
    ensures failed { result ≡ Err Fault.Read → HasFailedIf reader.old reader.new limit }
    ensures not_failed { result ≢ Err Fault.Read → reader.new.failures ≡ reader.old.failures }
    ensures never_writes { result ≢ Err Fault.Write }
{
    match limit {
        Some(limit) => read_text(alloc, reader, limit),
        None => Ok(Vec::new(alloc)),
    }
}

/// Reads the texts of a command in order, each within its limit.
///
/// The errors are `Fault::Read`, if a read failed, and `Fault::Memory`, if memory ran out.
pub fn read_texts<D: Read, S: Read, T: Read, A: Allocator + Copy>(
    alloc: A,
    limits: Limits,
    first: &mut Metered<D>,
    second: &mut Metered<S>,
    third: &mut Metered<T>,
) -> Result<Texts<A>, Fault>
    // What arrives: what is kept of the texts that the readers had.
    ensures read { IfOk result (λ texts. AreKept limits
        (AreFrom (GivesIf D.remaining first.old first.new (Some limits.first))
        (GivesIf S.remaining second.old second.new limits.second)
        (GivesIf T.remaining third.old third.new limits.third)) texts) }

    // What is asked of the readers, whatever the result.
    ensures lost { LosesPrefix D.remaining first.old first.new (most (Some limits.first))
        × LosesPrefix S.remaining second.old second.new (most limits.second)
        × LosesPrefix T.remaining third.old third.new (most limits.third) }
    ensures order { AfterIf D.remaining first.old first.new (Some limits.first) second.old second.new
        × AfterIf D.remaining first.old first.new (Some limits.first) third.old third.new
        × AfterIf S.remaining second.old second.new limits.second third.old third.new }
    ensures reads { (first.new.calls ≤ first.old.calls + most (Some limits.first))
        × (second.new.calls ≤ second.old.calls + most limits.second)
        × (third.new.calls ≤ third.old.calls + most limits.third) }
    ensures bytes_read { (first.new.bytes ≤ first.old.bytes + most (Some limits.first))
        × (second.new.bytes ≤ second.old.bytes + most limits.second)
        × (third.new.bytes ≤ third.old.bytes + most limits.third) }

    // Which fault it is, and which reader's.
    ensures read_failed { result ≡ Err Fault.Read →
        (HasFailed first.old first.new × (second.new ≡ second.old) × (third.new ≡ third.old))
        ⊎ (HasGiven D.remaining first.old first.new limits.first
        × HasFailedIf second.old second.new limits.second
        × (third.new ≡ third.old))
        ⊎ (HasGiven D.remaining first.old first.new limits.first
        × HasGivenIf S.remaining second.old second.new limits.second
        × HasFailedIf third.old third.new limits.third) }
    ensures no_read_failed { result ≢ Err Fault.Read → (first.new.failures ≡ first.old.failures)
        × (second.new.failures ≡ second.old.failures) × (third.new.failures ≡ third.old.failures) }
    ensures never_writes { result ≢ Err Fault.Write }
{
    let one = read_if(alloc, first, Some(limits.first))?;
    let two = read_if(alloc, second, limits.second)?;
    let three = read_if(alloc, third, limits.third)?;
    Ok(Texts::new(one, two, three))
}
