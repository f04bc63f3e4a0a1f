// The writers.
ghost use Rattle.std.specs.Prelude.{map, pos};
ghost use Rattle.format.specs.Kinds.{Unsigned, Signed};
ghost use Rattle.format.specs.Writing.{Writes, WritesEnd};
ghost use Rattle.flat_answers.specs.Flat.{flat_written};
ghost use Rattle.moortangle_c.specs.Tells.{Tells};

use crate::at;
use flat_answers::Written;
use moortangle::{end, record};

#[unsafe(no_mangle)]
pub extern "C" fn moortangle_write(
    buffer: &mut [u8],
    start: u64,
    code: u32,
    parameter: u32,
    kind: u32,
    values: &[u32],
) -> Written
    ensures { Tells flat_written (λ x. Writes buffer.old start Unsigned code parameter kind (map pos values.now) x buffer.new) result }
{
    Written::from(record::write(buffer, at(start), code, parameter, kind, values))
}

#[unsafe(no_mangle)]
pub extern "C" fn moortangle_write_corrections(
    buffer: &mut [u8],
    start: u64,
    code: u32,
    parameter: u32,
    kind: u32,
    values: &[i32],
) -> Written
    ensures { Tells flat_written (λ x. Writes buffer.old start Signed code parameter kind values.now x buffer.new) result }
{
    Written::from(record::write_corrections(buffer, at(start), code, parameter, kind, values))
}

#[unsafe(no_mangle)]
pub extern "C" fn moortangle_write_end(buffer: &mut [u8], start: u64) -> Written
    ensures { Tells flat_written (λ x. WritesEnd buffer.old start x buffer.new) result }
{
    Written::from(end::write_end(buffer, at(start)))
}
