//! Functions as trees.
ghost use Rattle.std.specs.Prelude.{◌≡◌, [], ◌∷◌, ◌++◌, IfOk, OnOk};
ghost use Rattle.sk_tree.specs.declared.tree.What.TheVariants as what;
ghost use Rattle.sk_vm_rows.specs.Programs.{stated, int_param, instance, function, grown, counting_loop};

use crate::expressions::{binary, int, named};
use sk_base::{Op, Ty};
use sk_names::Name;
use sk_tree::{Expr, Function, Instance, Param, ParamKind, Skeleton, Statement, What};
use sqlite_items::{Boxed, Items};
use std::alloc::{AllocError, Global};

/// A statement on line 1.
pub fn stated(what: What) -> Statement
    ensures { result ≡ stated what }
{
    Statement { line: 1, what }
}

/// One parameter of type int.
pub fn int_param(alloc: Global, name: &[u8]) -> Result<Items<Param>, AllocError>
    ensures { IfOk result (λ params. params ≡ int_param name.now ∷ []) }
{
    let param = Param {
        kind: ParamKind::Scalar(Ty::Int),
        name: Name::from_slice(alloc, name)?,
    };
    Ok(Items::from_vec(vec![in alloc; param]?))
}

/// The declaration of a scalar.
fn declaration(alloc: Global, ty: Ty, name: &[u8], value: Expr) -> Result<Statement, AllocError>
    ensures { IfOk result (λ made. made ≡ stated (what.Declare ty name.now value)) }
{
    let name = Name::from_slice(alloc, name)?;
    Ok(stated(What::Declare(ty, name, value)))
}

/// Adds the declaration of a scalar.
pub fn push_declaration(
    alloc: Global,
    ty: Ty,
    name: &[u8],
    value: Expr,
    body: &mut Items<Statement>,
) -> Result<(), AllocError>
    ensures { OnOk result (body.new ≡ body.old ++ stated (what.Declare ty name.now value) ∷ []) }
{
    body.push(declaration(alloc, ty, name, value)?)
}

/// One more statement, which returns a value.
pub fn push_return(value: Expr, body: &mut Items<Statement>) -> Result<(), AllocError>
    ensures { OnOk result (body.new ≡ body.old ++ stated (what.Return value) ∷ []) }
{
    body.push(stated(What::Return(value)))
}

/// `name = name + 1`
pub fn grown(alloc: Global, name: &[u8]) -> Result<Statement, AllocError>
    ensures { IfOk result (λ made. made ≡ grown name.now) }
{
    let sum = binary(alloc, Op::Add, named(alloc, name)?, int(1))?;
    let name = Name::from_slice(alloc, name)?;
    Ok(stated(What::Assign(name, sum)))
}

/// Adds `for (int i = 0; i < a; i++) { s = s + 1; }`.
pub fn push_loop(alloc: Global, body: &mut Items<Statement>) -> Result<(), AllocError>
    ensures { OnOk result (body.new ≡ body.old ++ counting_loop ∷ []) }
{
    let first = Boxed::new(alloc, declaration(alloc, Ty::Int, b"i", int(0))?)?;
    let test = binary(alloc, Op::Lt, named(alloc, b"i")?, named(alloc, b"a")?)?;
    let step = Boxed::new(alloc, grown(alloc, b"i")?)?;
    let mut inner = Items::new(alloc);
    inner.push(grown(alloc, b"s")?)?;
    body.push(stated(What::For(first, test, step, inner)))
}

/// Adds `auto name = Skeleton<1>(functions);`.
pub fn push_instance(
    alloc: Global,
    name: &[u8],
    skeleton: Skeleton,
    functions: Items<Name>,
    body: &mut Items<Statement>,
) -> Result<(), AllocError>
    ensures { OnOk result (body.new ≡ body.old ++ instance name.now skeleton functions ∷ []) }
{
    let name = Name::from_slice(alloc, name)?;
    let numbers = Items::from_vec(vec![in alloc; 1]?);
    body.push(stated(What::Instance(Instance {
        name,
        skeleton,
        numbers,
        functions,
    })))
}

/// Adds a function with this name.
pub fn push_function(
    alloc: Global,
    ret: Ty,
    name: &[u8],
    params: Items<Param>,
    body: Items<Statement>,
    functions: &mut Items<Function>,
) -> Result<(), AllocError>
    ensures { OnOk result (functions.new ≡ functions.old ++ function ret name.now params body ∷ []) }
{
    let name = Name::from_slice(alloc, name)?;
    functions.push(Function {
        line: 1,
        ret,
        name,
        params,
        body,
    })
}
