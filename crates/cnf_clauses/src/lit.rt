ghost use Rattle.std.specs.Prelude.{◌≡◌, ◌<◌, ◌^◌};
ghost use Rattle.cnf_clauses.specs.Literal.{opposite, code_of};

use std::fmt;
use std::marker::Model;

/// A variable or its negation, packed into 32 bits: twice the variable, and one more for a negation.
///
/// A contract sees its variable `var`, counted from 0 and below 2^31, and whether it is `negated`.
#[derive(Clone, Copy, PartialEq, Eq)]
pub struct Lit {
    code: u32,
}

impl Model for Lit {
    ghost use Rattle.std.specs.Prelude.{ℕ};
    ghost use Rattle.cnf_clauses.specs.Literal.{Literal, literal_of, code_of, code_of-literal_of};

    ghost Value = { Literal };

    ghost use Rattle.std.proofs.Common.{ap};
    ghost use Rattle.cnf_clauses.specs.declared.lit.Lit.TheInside.{Inside};

    ghost view = { λ l. literal_of l.code };

    ghost inverse = { λ l. record { code = code_of l } };

    ghost inverse_ok = { λ a h. ap (λ (n : ℕ). let i : Inside = record { code = n } in i) (code_of-literal_of a.code) };
}

impl Lit {
    /// The literal of a variable below 2^31.
    pub fn new(var: u32, negated: bool) -> Lit
        requires { var < 2 ^ 31 }
        ensures { result ≡ record { var = var; negated = negated } }
    {
        Lit {
            code: 2 * var + u32::from(negated),
        }
    }

    /// The variable.
    pub fn var(self) -> u32
        ensures value { result ≡ self.var }
        ensures small { result < 2 ^ 31 }
    {
        self.code / 2
    }

    /// Whether the literal is a negation.
    pub fn is_negated(self) -> bool
        ensures { result ≡ self.negated }
    {
        self.code % 2 == 1
    }

    /// The other literal of the same variable.
    pub fn opposite(self) -> Lit
        ensures { result ≡ opposite self }
    {
        Lit {
            code: self.code ^ 1,
        }
    }

    /// The literal's number: twice its variable, and one more for a negation.
    pub fn code(self) -> u32
        ensures { result ≡ code_of self }
    {
        self.code
    }
}

impl fmt::Debug for Lit {
    fn fmt<W: fmt::Write>(&self, f: &mut fmt::Formatter<W>) -> fmt::Result {
        write!(
            f,
            "Lit {{ var: {}, negated: {} }}",
            self.var(),
            self.is_negated()
        )
    }
}

/// The number of a clause or of a line of a log: the formula's clauses first, then the lines.
#[derive(Clone, Copy, PartialEq, Eq, Debug)]
pub struct ClauseId(pub u32);
