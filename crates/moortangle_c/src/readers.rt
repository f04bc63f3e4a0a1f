// The readers.
ghost use Rattle.std.specs.Prelude.{map, pos};
ghost use Rattle.format.specs.Kinds.{Unsigned, Signed};
ghost use Rattle.format.specs.Reading.{Reads, LooksUp, Searches, Checks};
ghost use Rattle.flat_answers.specs.Flat.{flat_record, flat_value, flat_correction, flat_place, flat_stream};
ghost use Rattle.moortangle_c.specs.Tells.{Tells};

use crate::at;
use flat_answers::{Correction, Place, Record, Stream, Value, record_of};
use moortangle::{find, record, stream};

#[unsafe(no_mangle)]
pub extern "C" fn moortangle_read(
    buffer: &[u8],
    start: u64,
    stop: u64,
    kind: u32,
    list: &mut [u32],
) -> Record
    ensures { Tells flat_record (λ x. Reads buffer.now start stop Unsigned kind (map pos list.old) x (map pos list.new)) result }
{
    record_of(record::read(buffer, at(start), at(stop), kind, list))
}

#[unsafe(no_mangle)]
pub extern "C" fn moortangle_read_corrections(
    buffer: &[u8],
    start: u64,
    stop: u64,
    kind: u32,
    list: &mut [i32],
) -> Record
    ensures { Tells flat_record (λ x. Reads buffer.now start stop Signed kind list.old x list.new) result }
{
    record_of(record::read_corrections(buffer, at(start), at(stop), kind, list))
}

#[unsafe(no_mangle)]
pub extern "C" fn moortangle_look_up(
    buffer: &[u8],
    start: u64,
    stop: u64,
    kind: u32,
    place: u64,
) -> Value
    ensures { Tells flat_value (LooksUp buffer.now start stop Unsigned kind place) result }
{
    Value::from(find::look_up(buffer, at(start), at(stop), kind, place as usize))
}

#[unsafe(no_mangle)]
pub extern "C" fn moortangle_look_up_correction(
    buffer: &[u8],
    start: u64,
    stop: u64,
    kind: u32,
    place: u64,
) -> Correction
    ensures { Tells flat_correction (LooksUp buffer.now start stop Signed kind place) result }
{
    Correction::from(find::look_up_correction(buffer, at(start), at(stop), kind, place as usize))
}

#[unsafe(no_mangle)]
pub extern "C" fn moortangle_search(buffer: &[u8], start: u64, stop: u64, instant: u32) -> Place
    ensures { Tells flat_place (Searches buffer.now start stop instant) result }
{
    Place::from(find::search(buffer, at(start), at(stop), instant))
}

#[unsafe(no_mangle)]
pub extern "C" fn moortangle_check(buffer: &[u8]) -> Stream
    ensures { Tells flat_stream (Checks buffer.now) result }
{
    Stream::from(stream::check(buffer))
}
