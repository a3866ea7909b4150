ghost use Rattle.std.specs.Prelude.{◌≡◌, ◌<◌, ◌+◌, pos, [], ◌∷◌, ◌++◌, length, suc, slice_set, OnOk, IfOk};
ghost use Rattle.sk_scheme.specs.Pieces as pieces;

use sk_base::Ty;
use sk_isa::Instr;
use sk_tree::Un;
use std::alloc::AllocError;

/// One more instruction.
pub fn put(code: &mut Vec<Instr>, instr: Instr) -> Result<(), AllocError>
    ensures { OnOk result (code.new.items ≡ code.old.items ++ instr ∷ []) }
{
    code.push(instr)?;
    Ok(())
}

/// Room for a jump that is written once its target is known: its place.
pub fn room(code: &mut Vec<Instr>) -> Result<usize, AllocError>
    ensures code { OnOk result (code.new.items ≡ code.old.items ++ Instr.Zero 0 ∷ []) }
    ensures place { IfOk result (λ place. place ≡ length code.old.items) }
{
    let place = code.len();
    put(code, Instr::Zero(0))?;
    Ok(place)
}

/// A jump where room was left for it.
pub fn fill(code: &mut Vec<Instr>, place: usize, jump: Instr)
    requires { place < length code.old.items }
    ensures { code.new.items ≡ slice_set code.old.items place jump }
{
    code[place] = jump;
}

/// A place as the target of a jump, or want of memory where it is too far.
pub fn address(place: usize) -> Result<u32, AllocError>
    ensures { IfOk result (λ address. address ≡ place) }
{
    match u32::try_from(place) {
        Ok(address) => Ok(address),
        Err(_) => Err(AllocError),
    }
}

/// The target that lies so many instructions behind a place.
pub fn ahead(place: usize, more: usize) -> Result<u32, AllocError>
    ensures { IfOk result (λ address. address ≡ place + more) }
{
    match place.checked_add(more) {
        Some(target) => address(target),
        None => Err(AllocError),
    }
}

/// Pushes 1 and goes on at an address, and where control comes to its third instruction, pushes 0.
pub fn flags(code: &mut Vec<Instr>, ends: u32) -> Result<(), AllocError>
    ensures { OnOk result (code.new.items ≡ code.old.items ++ Instr.Push (pos 1) ∷ Instr.Jump ends ∷ Instr.Push (pos 0) ∷ []) }
{
    put(code, Instr::Push(1))?;
    put(code, Instr::Jump(ends))?;
    put(code, Instr::Push(0))
}

/// One value more on the stack, or want of memory where they are too many.
pub fn above(depth: usize) -> Result<usize, AllocError>
    ensures { IfOk result (λ more. more ≡ suc depth) }
{
    match depth.checked_add(1) {
        Some(more) => Ok(more),
        None => Err(AllocError),
    }
}

/// The sum of two depths, or want of memory where it is too large.
pub fn sum(depth: usize, more: usize) -> Result<usize, AllocError>
    ensures { IfOk result (λ all. all ≡ depth + more) }
{
    depth.checked_add(more).ok_or(AllocError)
}

/// Reduces a value where an `int` is wanted and it is a `long`.
pub fn narrow(code: &mut Vec<Instr>, wanted: Ty, given: Ty) -> Result<(), AllocError>
    ensures { OnOk result (code.new.items ≡ code.old.items ++ pieces.narrowed wanted given) }
{
    match wanted {
        Ty::Long => Ok(()),
        Ty::Int => match given {
            Ty::Int => Ok(()),
            Ty::Long => put(code, Instr::Wrap),
        },
    }
}

/// The instruction of a prefix.
pub(crate) fn prefix(op: Un, ty: Ty) -> Instr
    ensures { result ≡ pieces.prefix_code op ty }
{
    match op {
        Un::Neg => Instr::Neg(ty),
        Un::Inv => Instr::Inv(ty),
        Un::Not => Instr::Not,
    }
}
