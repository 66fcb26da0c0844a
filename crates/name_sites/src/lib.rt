//! The laws that no two parallel constructs of a text have one number, and that numbers go from the outside in. The function
//! here has no body: its contract is what is proved.
#![tactic(auto)]

ghost use Rattle.name_sites.specs.Law.{SitesLaw};

/// The typed program of a text names each number at most once as that of a parallel loop (5.5), a parallel block (5.6.1) or
/// a parallel reduction (4.5.10), and only numbers of lines of its table of sites; in the threads of a construct it names only
/// greater ones than that of the construct.
pub fn laws()
    ensures sites { SitesLaw }
{}
