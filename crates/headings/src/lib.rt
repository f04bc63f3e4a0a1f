// A record's heading: the chosen code, which carries its parameter where it has one, and the kind of list.
#![tactic(auto)]

ghost use Rattle.std.specs.Prelude.{◌≡◌, ◌≤◌};
ghost use Rattle.format.specs.Kinds.{kind_number};
ghost use Rattle.format.specs.Records.{code_number};
ghost use Rattle.headings.specs.Headings.{code_of, carried, carried_width, kind_of, family_meant, ToldCode, ToldKind, ToldNumber, Chooses};

use limits::LARGEST_PARAMETER;

pub mod bodies;

#[derive(Clone, Copy, PartialEq, Eq)]
pub enum Code {
    Gamma,
    Delta,
    Rice(u32),
    VariableByte,
    Interpolative,
}

#[derive(Clone, Copy, PartialEq, Eq)]
pub enum Kind {
    Plain,
    Instants,
    Corrections,
}

// Whose values are not signed, or are: plain values and instants share the entries, corrections have their own.
#[derive(Clone, Copy, PartialEq, Eq)]
pub enum Family {
    Unsigned,
    Signed,
}

#[derive(Clone, Copy)]
pub struct Heading {
    pub code: Code,
    pub kind: Kind,
}

// A number that no kind has.
#[derive(Clone, Copy)]
pub struct UnknownKind;

impl From<Kind> for u32 {
    ghost from_gives = { λ kind n. (n ≡ kind_number (kind_of kind)) × (n ≤ 2) };

    fn from(kind: Kind) -> u32 {
        match kind {
            Kind::Plain => 0,
            Kind::Instants => 1,
            Kind::Corrections => 2,
        }
    }
}

impl TryFrom<u32> for Kind {
    type Error = UnknownKind;

    ghost try_from_gives = { ToldNumber };

    #[tactic(auto, using(crate::specs::Laws::Choices::plain_numbered, crate::specs::Laws::Choices::instants_numbered, crate::specs::Laws::Choices::corrections_numbered, crate::specs::Laws::Choices::none_numbered))]
    fn try_from(number: u32) -> Result<Kind, UnknownKind> {
        match number {
            0 => Ok(Kind::Plain),
            1 => Ok(Kind::Instants),
            2 => Ok(Kind::Corrections),
            _ => Err(UnknownKind),
        }
    }
}

// The kind of a number that is one of the family's.
#[tactic(auto, using(crate::specs::Laws::Choices::plain_is, crate::specs::Laws::Choices::instants_is, crate::specs::Laws::Choices::corrections_is, crate::specs::Laws::Choices::not_signed, crate::specs::Laws::Choices::not_unsigned))]
pub fn kind_of(family: Family, number: u32) -> Option<Kind>
    ensures { ToldKind (family_meant family) number result }
{
    match family {
        Family::Unsigned => match number {
            0 => Some(Kind::Plain),
            1 => Some(Kind::Instants),
            _ => None,
        },
        Family::Signed => match number {
            2 => Some(Kind::Corrections),
            _ => None,
        },
    }
}

// The code of a number and a parameter, as a caller or a record gives them.
#[tactic(auto, using(crate::specs::Laws::Choices::gamma_is, crate::specs::Laws::Choices::delta_is, crate::specs::Laws::Choices::rice_is, crate::specs::Laws::Choices::rice_over, crate::specs::Laws::Choices::variable_byte_is, crate::specs::Laws::Choices::interpolative_is, crate::specs::Laws::Choices::no_code))]
pub fn code_of(code: u32, parameter: u32) -> Option<Code>
    ensures { ToldCode code parameter result }
{
    if code == 1 {
        return Some(Code::Gamma);
    }
    if code == 2 {
        return Some(Code::Delta);
    }
    if code == 3 {
        let too_large = LARGEST_PARAMETER < parameter;
        if too_large {
            return None;
        }
        return Some(Code::Rice(parameter));
    }
    if code == 4 {
        return Some(Code::VariableByte);
    }
    let interpolative = code == 5;
    if interpolative {
        return Some(Code::Interpolative);
    }
    None
}

// What a writer is told: the entry's family, and three numbers. The interpolative code goes with instants alone.
pub fn choose(family: Family, code: u32, parameter: u32, kind: u32) -> Option<Heading>
    ensures { Chooses (family_meant family) code parameter kind result }
{
    let chosen = code_of(code, parameter)?;
    let kind_chosen = kind_of(family, kind)?;
    if code == 5 && kind != 1 {
        return None;
    }
    Some(Heading {
        code: chosen,
        kind: kind_chosen,
    })
}

// A number alone, and no `From`: Rice's k is not in it.
pub fn code_number(code: Code) -> u32
    ensures { (result ≡ code_number (code_of code)) × (result ≤ 5) }
{
    match code {
        Code::Gamma => 1,
        Code::Delta => 2,
        Code::Rice(_) => 3,
        Code::VariableByte => 4,
        Code::Interpolative => 5,
    }
}

// The parameter that is told: 0 for a code that has none.
pub fn parameter(code: Code) -> u32
    ensures { result ≡ carried code }
{
    match code {
        Code::Rice(k) => k,
        Code::Gamma | Code::Delta | Code::VariableByte | Code::Interpolative => 0,
    }
}

// In how many bits the parameter is written.
pub fn parameter_width(code: Code) -> usize
    ensures { (result ≡ carried_width code) × (result ≤ 5) }
{
    match code {
        Code::Rice(_) => 5,
        Code::Gamma | Code::Delta | Code::VariableByte | Code::Interpolative => 0,
    }
}
