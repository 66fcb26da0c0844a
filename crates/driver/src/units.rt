//! The unit of a typed program.

ghost use Rattle.std.specs.Prelude.{◌≡◌, ◌++◌, ◌∷◌, [], IfOk, IsTrue, slice_get};
ghost use Rattle.ada_meaning.specs.Meaning.{object_layout};
ghost use Rattle.typed_tree.specs.Decoded.{decls_at};
ghost use Rattle.typed_tree.specs.Programs.{program};
ghost use Rattle.check_conflicts.specs.Answer.{AreGrants};
ghost use Rattle.check_effects.specs.Accepted.{IsAccepted};
ghost use Rattle.stack_code.specs.Valid.{IsCountable};
ghost use Rattle.driver.specs.Coded.{HasCode, IsBuilt, IsTyped};
ghost use Rattle.driver.specs.Compiled.{also_final, compiled, compiled_of, declared_variable, exception_names, final_of, finals_behind, name_of, kinds_of};

use crate::shapes::kinds_of;
use crate::unit::Unit;
use ada_base::{Items, Tokens};
use check_clashes::granted::Grants;
use lower_code::lowering::lower;
use lower_leases::{leases_of, variables_of};
use run_reports::{CellKind, Final};
use stack_code::{Code, Instr};
use std::alloc::{AllocError, Global};
use typed_tree::{Decl, Declared, Typed};

/// The unit of a typed program, whose names are those of these tokens. An Err is want of memory.
pub fn finish(
    alloc: Global,
    tokens: &Tokens,
    typed: Typed,
    grants: &Grants,
) -> Result<Unit, AllocError>
    requires accepted { IsAccepted (program typed) }
    requires named { IsTyped (program typed) }
    requires granted { AreGrants (program typed) grants.now }
    ensures unit { IfOk result (λ unit. compiled_of unit ≡ compiled tokens.now (program typed)) }
    ensures built { IfOk result IsBuilt }
{
    let finals = finals(alloc, tokens, &typed)?;
    let variables = variables_of(&typed, alloc)?;
    let exceptions = exceptions(alloc, tokens, typed.exceptions.as_slice())?;
    let code = lowered(alloc, &typed, grants)?;
    Ok(Unit {
        typed,
        finals,
        variables,
        exceptions,
        code,
    })
}

/// Whether what an instruction begins is done less often than numbers of 64 bits tell.
fn is_counted(instr: Instr) -> bool
    ensures { IsTrue result → IsCountable (instr ∷ []) }
{
    match instr {
        Instr::Repeat(times) => times < 9_223_372_036_854_775_808,
        _ => true,
    }
}

/// Whether each part of code is done less often than that. So it is in the code of any program: a part is repeated for each
/// component of a value, each of which has a cell, and there are at most 2^22 cells.
fn is_countable(code: &Code) -> bool
    ensures { IsTrue result → IsCountable code.now.instrs }
{
    let instrs = code.instrs.as_slice();
    for at in 0..instrs.len() {
        if !is_counted(instrs[at]) {
            return false;
        }
    }
    true
}

/// The code of a typed program, by what its threads are granted. An Err is want of memory, also where a number of the code is
/// beyond 32 bits, or where a part is repeated too often for numbers of 64 bits, which it is for no program.
fn lowered(alloc: Global, typed: &Typed, grants: &Grants) -> Result<Code, AllocError>
    requires { AreGrants (program typed.now) grants.now }
    ensures { IfOk result (HasCode (program typed.now)) }
{
    let leases = leases_of(typed, grants, alloc)?;
    lower_leases::laws();
    let code = lower(typed, leases, alloc)?;
    if !is_countable(&code) {
        return Err(AllocError);
    }
    Ok(code)
}

fn exceptions(
    alloc: Global,
    tokens: &Tokens,
    declared: &[Declared],
) -> Result<Items<Items<u8>>, AllocError>
    ensures { IfOk result (λ names. names ≡ exception_names tokens.now declared.now) }
{
    let mut names = Items::new(alloc);
    for exception in declared {
        let name = spelled(alloc, tokens.slice(exception.name))?;
        names.push(name)?;
    }
    Ok(names)
}

fn spelled(alloc: Global, text: &str) -> Result<Items<u8>, AllocError>
    ensures { IfOk result (λ name. name ≡ text.now) }
{
    let mut name = Items::new(alloc);
    name.extend(text.as_bytes())?;
    Ok(name)
}

fn finals(alloc: Global, tokens: &Tokens, typed: &Typed) -> Result<Items<Final>, AllocError>
    ensures { IfOk result (λ finals. finals ≡ finals_behind tokens.now (program typed.now) [] (program typed.now).body.decls) }
{
    match typed.nodes.body(typed.body) {
        None => Ok(Items::new(alloc)),
        Some(body) => {
            let finals = declared(alloc, tokens, typed, body.decls)?;
            Ok(finals)
        }
    }
}

/// The variables that are declared from a cell of a list of declarations on.
fn declared(
    alloc: Global,
    tokens: &Tokens,
    typed: &Typed,
    decls: u32,
) -> Result<Items<Final>, AllocError>
    ensures { IfOk result (λ finals. finals ≡ finals_behind tokens.now (program typed.now) [] (decls_at typed.now.nodes decls)) }
{
    let mut finals = Items::new(alloc);
    let mut next = decls;
    while let Some(cell) = typed.nodes.decls(next) {
        let object = variable_of(typed.nodes.decl(cell.first));
        also(alloc, tokens, typed, object, &mut finals)?;
        next = cell.rest;
    }
    Ok(finals)
}

/// One more variable, where there is one.
fn also(
    alloc: Global,
    tokens: &Tokens,
    typed: &Typed,
    object: Option<u32>,
    finals: &mut Items<Final>,
) -> Result<(), AllocError>
    ensures { IfOk result (λ u. finals.new ≡ also_final tokens.now (program typed.now) finals.old object) }
{
    match object {
        None => Ok(()),
        Some(object) => {
            let variable = variable(alloc, tokens, typed, object)?;
            finals.push(variable)?;
            Ok(())
        }
    }
}

/// The object of a declaration of a variable.
fn variable_of(decl: Option<Decl>) -> Option<u32>
    ensures { result ≡ declared_variable decl }
{
    match decl {
        Some(Decl::Default { object }) => Some(object),
        Some(Decl::Variable { object, .. }) => Some(object),
        _ => None,
    }
}

fn variable(alloc: Global, tokens: &Tokens, typed: &Typed, object: u32) -> Result<Final, AllocError>
    ensures { IfOk result (λ variable. variable ≡ final_of tokens.now (program typed.now) object) }
{
    let name = object_name(alloc, tokens, typed, object)?;
    let kinds = object_kinds(alloc, typed, object)?;
    Ok(Final { name, kinds })
}

fn object_name(
    alloc: Global,
    tokens: &Tokens,
    typed: &Typed,
    object: u32,
) -> Result<Items<u8>, AllocError>
    ensures { IfOk result (λ name. name ≡ name_of tokens.now (slice_get typed.now.objects object)) }
{
    match typed.objects.get(object as usize) {
        None => Ok(Items::new(alloc)),
        Some(found) => {
            let name = spelled(alloc, tokens.slice(found.name))?;
            Ok(name)
        }
    }
}

fn object_kinds(alloc: Global, typed: &Typed, object: u32) -> Result<Items<CellKind>, AllocError>
    ensures { IfOk result (λ kinds. kinds ≡ kinds_of (object_layout (program typed.now) object)) }
{
    let mut kinds = Items::new(alloc);
    if let Some(found) = typed.objects.get(object as usize) {
        kinds_of(typed, found.subtype, &mut kinds)?;
    }
    Ok(kinds)
}
