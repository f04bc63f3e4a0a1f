// A record read, looked up in and searched, and a stream checked: the public entries. A kind is a number, of which any gets its answer; C calls
// an entry for each family.
#![tactic(auto)]

ghost use Rattle.read_entries.specs.Asked.{ToldAsked};

use headings::{Kind, kind_of};
use lists::Item;
use reading::{Refusal, Refused};

pub mod find;
pub mod record;
pub mod stream;

// The kind of a number, unless it is none of this family's: document 01 tells that at 0.
pub(crate) fn asked<T: Item>(number: u32) -> Result<Kind, Refused>
    ensures { ToldAsked T.of_family number result }
{
    match kind_of(T::family(), number) {
        Some(kind) => Ok(kind),
        None => Err(Refused::told_0(Refusal::Unknown)),
    }
}
