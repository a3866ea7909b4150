ghost use Rattle.std.specs.Prelude.{◌≡◌};
ghost use Rattle.std.specs.List.{list_all};
ghost use Rattle.sk_tree.specs.Functions.{kinds_of};
ghost use Rattle.sk_tree.specs.Parameters.{scalars_only};
ghost use Rattle.sk_vector_form.specs.VectorForm as form;

use sk_tree::{Function, ParamKind, Program, Skeleton, Statement, What};

/// Whether each container of a program is a vector that no input gives, each of its instances a Map, and each parameter of
/// its functions a scalar. Takes time in proportion to the program.
pub fn has_vector_form(program: &Program) -> bool
    ensures { result ≡ form.has_vector_form program.now }
{
    for function in program.functions.as_slice() {
        if !is_function_of_vectors(function) {
            return false;
        }
    }
    true
}

fn is_function_of_vectors(function: &Function) -> bool
    ensures { result ≡ form.function_of_vectors function.now }
{
    takes_scalars(function) && are_of_vectors(function.body.as_slice())
}

fn takes_scalars(function: &Function) -> bool
    ensures { result ≡ scalars_only (kinds_of function.now) }
{
    for param in function.params.as_slice() {
        if !matches!(param.kind, ParamKind::Scalar(_)) {
            return false;
        }
    }
    true
}

#[cycle(vectors)]
fn are_of_vectors(statements: &[Statement]) -> bool
    ensures { result ≡ list_all form.is_of_vectors statements.now }
{
    for next in statements {
        if !is_of_vectors(next) {
            return false;
        }
    }
    true
}

#[cycle(vectors)]
fn is_of_vectors(statement: &Statement) -> bool
    ensures { result ≡ form.is_of_vectors statement.now }
{
    match &statement.what {
        What::Make(dimension, ..) => *dimension == 1,
        What::Take(..) => false,
        What::Instance(instance) => matches!(instance.skeleton, Skeleton::Map),
        What::If(_, one, other) => {
            are_of_vectors(one.as_slice()) && are_of_vectors(other.as_slice())
        }
        What::For(first, _, step, body) => {
            is_of_vectors(first.get())
                && is_of_vectors(step.get())
                && are_of_vectors(body.as_slice())
        }
        _ => true,
    }
}
