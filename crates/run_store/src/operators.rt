//! Operators on the values of a state.

ghost use Rattle.std.specs.Prelude.{◌≡◌};
ghost use Rattle.ada_meaning.specs.Operations as meaning;
ghost use Rattle.ada_meaning.specs.Stored as stored;
ghost use Rattle.run_store.specs.Shows.{Shows};
ghost use Rattle.run_values.specs.Values.{plain_then, unary_then};

use crate::store::Store;
use ada_base::{Op, Reason};
use run_outside::Port;
use run_values::{
    End, Leave, base_of, bit, digits_in, divides, is_true, magnitude, modular_unary, negated,
    overflows, result_of,
};
use typed_tree::{Class, Sign};

impl<P: Port + Drop> Store<P> {
    /// An operator on two values, with its checks (4.5).
    #[tactic(auto, unfolding(ada_meaning::specs::Stored::bind, ada_meaning::specs::Stored::ret, ada_meaning::specs::Stored::leaves))]
    pub fn operate(&self, op: Op, at: u32, class: Class, x: i64, y: i64) -> Result<i64, End>
        ensures { Shows P.Tells (meaning.operate stored.doings stored.checks op at class x y) result self.now self.now }
    {
        let _ = at;
        if divides(op) && !is_true(y) {
            return Err(End::Left(Leave::Raises(Reason::ConstraintError)));
        }
        match result_of(op, class, x, y) {
            Some(value) => Ok(value),
            None => {
                if overflows(op) {
                    Err(End::Left(Leave::Raises(Reason::ConstraintError)))
                } else {
                    Ok(0)
                }
            }
        }
    }

    /// A unary operator, with its check (4.5.4, 4.5.6).
    #[tactic(auto, unfolding(ada_meaning::specs::Stored::bind, ada_meaning::specs::Stored::ret, ada_meaning::specs::Stored::leaves))]
    pub fn unary(&self, sign: Sign, at: u32, class: Class, value: i64) -> Result<i64, End>
        ensures { Shows P.Tells (unary_then sign at class value) result self.now self.now }
    {
        match digits_in(class) {
            Some(k) => Ok(modular_unary(sign, k, value)),
            None => self.plain_unary(sign, at, class, value),
        }
    }

    #[tactic(auto, unfolding(ada_meaning::specs::Stored::bind, ada_meaning::specs::Stored::ret, ada_meaning::specs::Stored::leaves))]
    fn plain_unary(&self, sign: Sign, at: u32, class: Class, value: i64) -> Result<i64, End>
        ensures { Shows P.Tells (plain_then sign at class value) result self.now self.now }
    {
        let _ = at;
        match sign {
            Sign::Not => Ok(bit(!is_true(value))),
            Sign::Minus => match negated(base_of(class), value) {
                Some(other) => Ok(other),
                None => Err(End::Left(Leave::Raises(Reason::ConstraintError))),
            },
            Sign::Abs => match magnitude(base_of(class), value) {
                Some(other) => Ok(other),
                None => Err(End::Left(Leave::Raises(Reason::ConstraintError))),
            },
        }
    }
}
