// A record's heading, read at a cursor: code, kind, Rice's k and the count, each judged as it comes; or an end mark.
#![tactic(auto)]

ghost use Rattle.std.specs.Prelude.{◌≡◌, length};
ghost use Rattle.headings.specs.Headings.{code_of};
ghost use Rattle.bits.specs.Cursor.{Within};
ghost use Rattle.wanted.specs.Wanted.{wanted_of};
ghost use Rattle.read_headings.specs.Fields.{ToldCodeField, ToldKindField, ToldParameterField};
ghost use Rattle.read_headings.specs.Told.{asked, ToldHeading};

use bits::Cursor;
use headings::{Code, Heading, Kind};
use reading::{Refusal, Refused};

// What stands at a cursor, and the cursor after it: a heading with its count, before the body; or an end mark.
#[derive(Clone, Copy)]
pub enum Begun {
    Body(Heading, usize, Cursor),
    End(Cursor),
}

// A refusal of the field at a cursor, told at the field's first bit.
fn refused(why: Refusal, field: Cursor) -> Refused
    ensures { result ≡ record { why = why; at = field.at } }
{
    Refused {
        why,
        at: field.at(),
    }
}

// The code, of which Rice's k is still 0; or None, where an end mark stands.
fn code_field(c: Cursor, s: &[u8]) -> Result<(Option<Code>, Cursor), Refused>
    requires { Within c (length s.now) }
    ensures { ToldCodeField s.now c result }
{
    let Some((v, d)) = c.field(s, 4) else {
        return Err(refused(Refusal::CutShort, c));
    };
    if v == 0 {
        return Ok((None, d));
    }
    match headings::code_of(v, 0) {
        Some(code) => Ok((Some(code), d)),
        None => Err(refused(Refusal::Unknown, c)),
    }
}

fn kind_field(
    c: Cursor,
    s: &[u8],
    wanted: Option<Kind>,
    code: Code,
) -> Result<(Kind, Cursor), Refused>
    requires { Within c (length s.now) }
    ensures { ToldKindField (wanted_of wanted) (code_of code) s.now c result }
{
    let Some((v, d)) = c.field(s, 2) else {
        return Err(refused(Refusal::CutShort, c));
    };
    let wrong = refused(Refusal::Unknown, c);
    let Ok(kind) = Kind::try_from(v) else {
        return Err(wrong);
    };
    if wanted::unwanted(wanted, kind) {
        return Err(wrong);
    }
    if wanted::amiss(code, kind) {
        return Err(wrong);
    }
    Ok((kind, d))
}

// The code with its parameter.
fn parameter_field(c: Cursor, s: &[u8], code: Code) -> Result<(Code, Cursor), Refused>
    requires { Within c (length s.now) }
    ensures { ToldParameterField code s.now c result }
{
    let Code::Rice(_) = code else {
        return Ok((code, c));
    };
    match c.field(s, 5) {
        Some((k, d)) => Ok((Code::Rice(k), d)),
        None => Err(refused(Refusal::CutShort, c)),
    }
}

pub fn read(c: Cursor, s: &[u8], wanted: Option<Kind>, room: usize) -> Result<Begun, Refused>
    requires { Within c (length s.now) }
    ensures { ToldHeading (asked wanted room) s.now c result }
{
    let (found, d) = code_field(c, s)?;
    let Some(code) = found else {
        return Ok(Begun::End(d));
    };
    let (kind, e) = kind_field(d, s, wanted, code)?;
    let (whole, f) = parameter_field(e, s, code)?;
    let (n, g) = read_counts::read(f, s, room)?;
    let heading = Heading { code: whole, kind };
    Ok(Begun::Body(heading, n, g))
}
