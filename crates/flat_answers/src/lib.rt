// Each answer of an entry flattened into a struct, because C has no enum that carries numbers.
#![tactic(auto)]

ghost use Rattle.std.specs.Prelude.{◌≡◌};
ghost use Rattle.find_in_records.specs.Told.{looked_up, looked_up_correction, searched};
ghost use Rattle.read_streams.specs.Told.{checked};
ghost use Rattle.writing.specs.Wrote.{outcome_of};
ghost use Rattle.flat_answers.specs.Flat.{flat_written, flat_value, flat_correction, flat_place, flat_stream};
ghost use Rattle.flat_answers.specs.Reads.{FewValues, flat_read};

use bits::BitPos;
use read_records::Found;
use read_streams::Checked;
use reading::Refused;
use writing::Unwritten;

// What a writer answers: document 01's number, and what it tells.
#[repr(C)]
#[derive(Clone, Copy)]
pub struct Written {
    pub answer: u32,
    pub told: u64,
}

// What a reader answers. The heading is that of the record; an end mark and a refusal have none.
#[repr(C)]
#[derive(Clone, Copy)]
pub struct Record {
    pub answer: u32,
    pub told: u64,
    pub end: u32,
    pub code: u32,
    pub kind: u32,
    pub parameter: u32,
    pub count: u32,
}

// C has no generic struct and no Result: so each family has its own, and every answer its number in a field.
#[repr(C)]
#[derive(Clone, Copy)]
pub struct Value {
    pub answer: u32,
    pub told: u64,
    pub value: u32,
}

#[repr(C)]
#[derive(Clone, Copy)]
pub struct Correction {
    pub answer: u32,
    pub told: u64,
    pub value: i32,
}

#[repr(C)]
#[derive(Clone, Copy)]
pub struct Place {
    pub answer: u32,
    pub told: u64,
    pub below: u64,
}

#[repr(C)]
#[derive(Clone, Copy)]
pub struct Stream {
    pub answer: u32,
    pub told: u64,
    pub records: u64,
    pub values: u64,
}

impl From<Result<BitPos, Unwritten>> for Written {
    ghost from_gives = { λ answer flat. flat ≡ flat_written (outcome_of answer) };

    fn from(answer: Result<BitPos, Unwritten>) -> Written {
        match answer {
            Ok(after) => Written {
                answer: 0,
                told: after.bit() as u64,
            },
            Err(Unwritten::TooMany) => Written { answer: 1, told: 0 },
            Err(Unwritten::OutOfRange(place)) => Written {
                answer: 2,
                told: place as u64,
            },
            Err(Unwritten::Falls(place)) => Written {
                answer: 3,
                told: place as u64,
            },
            Err(Unwritten::Unknown) => Written { answer: 4, told: 0 },
            Err(Unwritten::Full) => Written { answer: 5, told: 0 },
            Err(Unwritten::Outside) => Written {
                answer: 12,
                told: 0,
            },
        }
    }
}

// A record has at most 4,096 values, so that its count is a u32. No `From` may ask this of an answer.
pub fn record_of(answer: Result<Found, Refused>) -> Record
    requires { FewValues answer }
    ensures { result ≡ flat_read answer }
{
    match answer {
        Ok(Found::Record(h, n, next)) => {
            let code = h.code;
            let kind = h.kind;
            Record {
                answer: 0,
                told: next.bit() as u64,
                end: 0,
                code: headings::code_number(code),
                kind: u32::from(kind),
                parameter: headings::parameter(code),
                count: n as u32,
            }
        }
        Ok(Found::End(next)) => Record {
            answer: 0,
            told: next.bit() as u64,
            end: 1,
            code: 0,
            kind: 0,
            parameter: 0,
            count: 0,
        },
        Err(refused) => Record {
            answer: u32::from(refused.why),
            told: refused.at.bit() as u64,
            end: 0,
            code: 0,
            kind: 0,
            parameter: 0,
            count: 0,
        },
    }
}

impl From<Result<u32, Refused>> for Value {
    ghost from_gives = { λ answer flat. flat ≡ flat_value (looked_up answer) };

    fn from(answer: Result<u32, Refused>) -> Value {
        match answer {
            Ok(value) => Value {
                answer: 0,
                told: 0,
                value,
            },
            Err(refused) => Value {
                answer: u32::from(refused.why),
                told: refused.at.bit() as u64,
                value: 0,
            },
        }
    }
}

impl From<Result<i32, Refused>> for Correction {
    ghost from_gives = { λ answer flat. flat ≡ flat_correction (looked_up_correction answer) };

    fn from(answer: Result<i32, Refused>) -> Correction {
        match answer {
            Ok(value) => Correction {
                answer: 0,
                told: 0,
                value,
            },
            Err(refused) => Correction {
                answer: u32::from(refused.why),
                told: refused.at.bit() as u64,
                value: 0,
            },
        }
    }
}

impl From<Result<usize, Refused>> for Place {
    ghost from_gives = { λ answer flat. flat ≡ flat_place (searched answer) };

    fn from(answer: Result<usize, Refused>) -> Place {
        match answer {
            Ok(below) => Place {
                answer: 0,
                told: 0,
                below: below as u64,
            },
            Err(refused) => Place {
                answer: u32::from(refused.why),
                told: refused.at.bit() as u64,
                below: 0,
            },
        }
    }
}

impl From<Result<Checked, Refused>> for Stream {
    ghost from_gives = { λ answer flat. flat ≡ flat_stream (checked answer) };

    fn from(answer: Result<Checked, Refused>) -> Stream {
        match answer {
            Ok(found) => Stream {
                answer: 0,
                told: 0,
                records: found.records as u64,
                values: found.values as u64,
            },
            Err(refused) => Stream {
                answer: u32::from(refused.why),
                told: refused.at.bit() as u64,
                records: 0,
                values: 0,
            },
        }
    }
}
