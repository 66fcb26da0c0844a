//! Laws of the definitions of names and types. Every function here has no body: its contract is what is proved.
#![tactic(auto)]

ghost use Rattle.name_laws.specs.Alike.{SymbolLaw};
ghost use Rattle.name_laws.specs.Based.{BasedLaw};
ghost use Rattle.name_laws.specs.Cells.{CellsLaw};
ghost use Rattle.name_laws.specs.Classes.{ClassesLaw};
ghost use Rattle.name_laws.specs.Constants.{ConstantsLaw};
ghost use Rattle.name_laws.specs.Formed.{FormedLaw};
ghost use Rattle.name_laws.specs.Hiding.{HidingLaw, ScopeLaw};
ghost use Rattle.name_laws.specs.OwnNames.{MainNameLaw, OwnNameLaw};
ghost use Rattle.name_laws.specs.Statics.{StaticLaw};

/// Laws of all programs.
/// - hiding: a simple name stands for the last declaration of its name in scope, which isn't visible before it ends (8.3).
/// - scopes: declarations put declarations of their own identifiers into scope, and leave other names as they were (8.2).
/// - own_name: a subprogram's name is visible in its body, unless it is hidden there (6.1).
/// - main_name: the main procedure's name isn't visible in its declarative part and statements.
/// - cells: different objects of one owner have different cells (3.3).
/// - constants: the value of a static constant lies in its subtype (4.9).
/// - formed: each subtype of a typed program stands on earlier ones, no array type is empty, and each object has exactly
///   the cells of its subtype (3.2, 3.6, 3.8).
/// - statics: a static result of an operator is exact and in its base range, and an expression with such a value
///   leaves in its place that value alone (4.9).
/// - based: whatever an expression is found to be has its static value in its base range, where the bounds of the subtypes
///   and the values of the constants that are declared around it lie in theirs (3.5.4, 4.9).
/// - classes: every static expression that a typed program evaluates is a value of the base range of its class, and no
///   operator waits for its type (4.9, 3.4.1).
/// - symbols: two identifiers have one symbol exactly where they are spelled alike but for the case of letters (2.3).
pub fn laws()
    ensures hiding { HidingLaw }
    ensures scopes { ScopeLaw }
    ensures own_name { OwnNameLaw }
    ensures main_name { MainNameLaw }
    ensures cells { CellsLaw }
    ensures constants { ConstantsLaw }
    ensures formed { FormedLaw }
    ensures statics { StaticLaw }
    ensures based { BasedLaw }
    ensures classes { ClassesLaw }
    ensures symbols { SymbolLaw }
{}
