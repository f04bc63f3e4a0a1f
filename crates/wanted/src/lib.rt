// Which kinds a reader takes: the one that it asks for, if it asks for one, and with the interpolative code instants alone.
#![tactic(auto)]

ghost use Rattle.format.specs.Records.{Wants};
ghost use Rattle.headings.specs.Headings.{code_of, kind_of};
ghost use Rattle.lists.specs.Tests.{Unless};
ghost use Rattle.wanted.specs.Wanted.{wanted_of, Goes};

use headings::{Code, Kind};

pub fn unwanted(wanted: Option<Kind>, kind: Kind) -> bool
    ensures { Unless (Wants (wanted_of wanted) (kind_of kind)) result }
{
    match wanted {
        Some(asked) => kind != asked,
        None => false,
    }
}

// Whether the code is the interpolative one and the kind is not instants.
pub fn amiss(code: Code, kind: Kind) -> bool
    ensures { Unless (Goes (code_of code) (kind_of kind)) result }
{
    let by_words = code != Code::Interpolative;
    if by_words {
        return false;
    }
    kind != Kind::Instants
}
