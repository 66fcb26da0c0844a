//! The least of a program's faults: of the least token, then of the least code, then the first.
#![tactic(auto)]

ghost use Rattle.std.specs.Prelude.{◌≡◌, [], MatchOption};
ghost use Rattle.name_faults.specs.Least.{IsToldOf, better, least_of};
ghost use Rattle.name_rules.specs.Resolved as spec;

use ada_base::Items;
use name_rules::log::{Bound, Fault, Rule};

/// The place of a rule in the order of the refusals.
fn code(rule: Rule) -> u64
    ensures { result ≡ spec.code rule }
{
    match rule {
        Rule::Unknown => 0,
        Rule::Twice => 1,
        Rule::NotVisible => 2,
        Rule::WrongEnd => 3,
        Rule::PolicyName => 4,
        Rule::WrongType => 5,
        Rule::NotStatic => 6,
        Rule::StaticRange => 7,
        Rule::ChunkRule => 8,
        Rule::ReduceRule => 9,
        Rule::Limit { of: Bound::Objects } => 11,
        Rule::Limit { of: Bound::Cells } => 12,
        Rule::Limit { of: Bound::Arms } => 13,
        Rule::Limit {
            of: Bound::Dimensions,
        } => 14,
        Rule::Limit { of: Bound::Levels } => 15,
    }
}

fn key(fault: Fault) -> u64
    ensures { result ≡ spec.key fault }
{
    u64::from(fault.at) * 16 + u64::from(code(fault.rule))
}

fn less(best: Fault, fault: Fault) -> Fault
    ensures { result ≡ better best fault }
{
    if key(best) <= key(fault) { best } else { fault }
}

/// The least of some faults, of which it gives the first.
#[tactic(auto, using(crate::proofs::Steps::least_empty, crate::proofs::Steps::least_first, crate::proofs::Steps::least_step, crate::proofs::Steps::least_end, crate::proofs::Steps::least_stop))]
fn first_least(faults: &Items<Fault>) -> Option<Fault>
    ensures { result ≡ least_of faults.now }
{
    let Some(first) = faults.get(0) else {
        return None;
    };
    let n = faults.len();
    let mut best = *first;
    let mut i = 1;
    'all: while i < n {
        match faults.get(i) {
            None => return Some(best),
            Some(fault) => {
                best = less(best, *fault);
                i += 1;
            }
        }
    }
    Some(best)
}

/// The least of some faults, or None where there is none.
#[tactic(auto, using(crate::proofs::Smallest::least_told, crate::proofs::Smallest::least_none))]
pub fn least(faults: &Items<Fault>) -> Option<Fault>
    ensures { MatchOption result (faults.now ≡ []) (λ f. IsToldOf faults.now f) }
{
    first_least(faults)
}
