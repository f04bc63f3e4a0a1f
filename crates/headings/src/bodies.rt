// How the list after a heading is laid out.
ghost use Rattle.std.specs.Prelude.{◌≡◌, ◌≤◌};
ghost use Rattle.format.specs.Limits.{largest_parameter};
ghost use Rattle.headings.specs.Headings.{carried};
ghost use Rattle.headings.specs.Bodies.{ToldBody, InstantsIf, NotIfSigned};

use crate::{Code, Kind};
use std::marker::Model;

// Rice's k, from 0 to 31: 5 bits hold no more, and a writer's k is judged when its heading is chosen.
#[derive(Clone, Copy)]
pub struct Parameter {
    k: usize,
}

impl Model for Parameter {
    ghost use Rattle.std.specs.Prelude.{ℕ, ◌≤◌};
    ghost use Rattle.format.specs.Limits.{largest_parameter};

    ghost Value = { ℕ };

    ghost view = { λ p. p.k };

    ghost invariant = { λ p. p.k ≤ largest_parameter };

    ghost inverse = { λ k. record { k = k } };
}

impl Parameter {
    pub fn new(k: usize) -> Parameter
        requires { k ≤ largest_parameter }
        ensures { result ≡ k }
    {
        Parameter { k }
    }

    pub fn get(self) -> usize
        ensures { (result ≡ self) × (result ≤ largest_parameter) }
    {
        self.k
    }
}

// The codes that lay a list out word by word. The check takes a call to use up what holds a model, as Rice's k has one, so whoever calls
// twice with the same words hands over a copy made by `let`.
#[derive(Clone, Copy)]
pub enum Words {
    Gamma,
    Delta,
    Rice(Parameter),
    VariableByte,
}

// The words in which a code lays a list out; or that it has none, and goes by halves.
pub fn words_of(code: Code) -> Option<Words>
    requires { carried code ≤ largest_parameter }
    ensures { ToldBody code result }
{
    match code {
        Code::Gamma => Some(Words::Gamma),
        Code::Delta => Some(Words::Delta),
        Code::Rice(k) => Some(Words::Rice(Parameter::new(k as usize))),
        Code::VariableByte => Some(Words::VariableByte),
        Code::Interpolative => None,
    }
}

pub fn is_instants(kind: Kind) -> bool
    ensures instants_if { InstantsIf kind result }
    ensures signed { NotIfSigned kind result }
{
    kind == Kind::Instants
}
