//! Trees as text.
//!
//! - Expressions: `5`, `5L` (a long), `a`, `p.i`, `v.size()`, `f(a b)` (a call or an element), and in parentheses an
//!   operator, a prefix or the type of a conversion with its operands: `(+ a b)`, `(- a)`, `(int a)`, `(? a b c)`.
//! - Statements: `(let int x 5)`, `(= x 5)`, `(poke v(i j) 5)`, `(make 1 int v(3 7))` with the number of sizes of its
//!   kind, `(take 1 int v "x")`, `(inst m Map <2> f g)`, `(set s pad 5)`, `(call f(a))`, `(print a "t" endl)`,
//!   `(if a {..} {..})` with the block for where the test does not hold, `(for s a s {..})`, `(ret a)`.
//! - Functions: `(int f [int a, index1 p, view1 int v, region1 int r] {..})`.
//!
//! One blank stands between statements, and between functions. Lines are not told.
use sk_base::{EdgeMode, Op, Ty};
use sk_names::{Name, Text};
use sk_tree::{
    Expr, Function, Instance, Item, Param, ParamKind, Program, Setting, Skeleton, Statement, Un,
    What,
};
use std::alloc::{AllocError, Global};
use std::fmt::Write;

/// The word for a type.
fn type_name(ty: Ty) -> &'static str {
    match ty {
        Ty::Int => "int",
        Ty::Long => "long",
    }
}

/// The sign of a prefix operator.
fn prefix(op: Un) -> &'static str {
    match op {
        Un::Neg => "-",
        Un::Inv => "~",
        Un::Not => "!",
    }
}

/// The sign of an operator.
fn sign(op: Op) -> &'static str {
    match op {
        Op::Add => "+",
        Op::Sub => "-",
        Op::Mul => "*",
        Op::Div => "/",
        Op::Rem => "%",
        Op::Shl => "<<",
        Op::Shr => ">>",
        Op::And => "&",
        Op::Or => "|",
        Op::Xor => "^",
        Op::Lt => "<",
        Op::Le => "<=",
        Op::Gt => ">",
        Op::Ge => ">=",
        Op::Eq => "==",
        Op::Ne => "!=",
    }
}

/// The name of a skeleton.
fn skeleton(skeleton: Skeleton) -> &'static str {
    match skeleton {
        Skeleton::Map => "Map",
        Skeleton::Reduce => "Reduce",
        Skeleton::Scan => "Scan",
        Skeleton::MapReduce => "MapReduce",
        Skeleton::MapOverlap => "MapOverlap",
        Skeleton::MapPairs => "MapPairs",
        Skeleton::MapPairsReduce => "MapPairsReduce",
        Skeleton::Call => "Call",
    }
}

/// Appends bytes as characters.
fn put_bytes(out: &mut String, bytes: &[u8]) -> Result<(), AllocError> {
    for byte in bytes {
        out.push(char::from(*byte))?;
    }
    Ok(())
}

/// Appends a name.
fn put_name(out: &mut String, name: &Name) -> Result<(), AllocError> {
    put_bytes(out, name.as_bytes())
}

/// Appends a text between quotes, as it is.
fn put_text(out: &mut String, text: &Text) -> Result<(), AllocError> {
    out.push_str("\"")?;
    put_bytes(out, text.as_bytes())?;
    out.push_str("\"")
}

/// Appends a name and what it is asked for.
fn put_field(out: &mut String, name: &Name, field: &Name) -> Result<(), AllocError> {
    put_name(out, name)?;
    out.push_str(".")?;
    put_name(out, field)
}

/// Appends an expression.
#[cycle(expression)]
fn put(out: &mut String, expr: &Expr) -> Result<(), AllocError> {
    match expr {
        Expr::Number(Ty::Int, value) => write!(out, "{value}")?,
        Expr::Number(Ty::Long, value) => write!(out, "{value}L")?,
        Expr::Name(name) => put_name(out, name)?,
        Expr::Field(name, field) => put_field(out, name, field)?,
        Expr::Method(name, method) => {
            put_field(out, name, method)?;
            out.push_str("()")?;
        }
        Expr::Unary(op, part) => put_one(out, prefix(*op), part.get())?,
        Expr::Cast(ty, part) => put_one(out, type_name(*ty), part.get())?,
        Expr::Binary(op, left, right) => {
            put_first(out, sign(*op), left.get())?;
            put_last(out, right.get())?;
        }
        Expr::Both(left, right) => {
            put_first(out, "&&", left.get())?;
            put_last(out, right.get())?;
        }
        Expr::Either(left, right) => {
            put_first(out, "||", left.get())?;
            put_last(out, right.get())?;
        }
        Expr::Choose(test, one, other) => {
            out.push_str("(? ")?;
            put(out, test.get())?;
            out.push_str(" ")?;
            put(out, one.get())?;
            out.push_str(" ")?;
            put(out, other.get())?;
            out.push_str(")")?;
        }
        Expr::Apply(name, arguments) => put_applied(out, name, arguments.as_slice())?,
    }
    Ok(())
}

/// Appends a sign and its one operand, in parentheses.
#[cycle(expression)]
fn put_one(out: &mut String, sign: &str, part: &Expr) -> Result<(), AllocError> {
    put_first(out, sign, part)?;
    out.push_str(")")
}

/// A sign and its first operand.
#[cycle(expression)]
fn put_first(out: &mut String, sign: &str, part: &Expr) -> Result<(), AllocError> {
    out.push_str("(")?;
    out.push_str(sign)?;
    out.push_str(" ")?;
    put(out, part)
}

/// The last operand.
#[cycle(expression)]
fn put_last(out: &mut String, part: &Expr) -> Result<(), AllocError> {
    out.push_str(" ")?;
    put(out, part)?;
    out.push_str(")")
}

/// Appends a name with arguments.
#[cycle(expression)]
fn put_applied(out: &mut String, name: &Name, arguments: &[Expr]) -> Result<(), AllocError> {
    put_name(out, name)?;
    out.push_str("(")?;
    put_all(out, arguments)?;
    out.push_str(")")
}

/// Appends values with blanks between.
#[cycle(expression)]
fn put_all(out: &mut String, values: &[Expr]) -> Result<(), AllocError> {
    let mut lead = "";
    for value in values {
        out.push_str(lead)?;
        put(out, value)?;
        lead = " ";
    }
    Ok(())
}

/// Appends a word with a value behind it.
fn put_value(out: &mut String, word: &str, value: &Expr) -> Result<(), AllocError> {
    out.push_str(word)?;
    out.push_str(" ")?;
    put(out, value)
}

/// Appends a setting with its value.
fn put_setting(out: &mut String, setting: &Setting) -> Result<(), AllocError> {
    match setting {
        Setting::Start(value) => put_value(out, "start", value),
        Setting::Scan(false) => out.push_str("scan Inclusive"),
        Setting::Scan(true) => out.push_str("scan Exclusive"),
        Setting::Lines(false) => out.push_str("lines RowWise"),
        Setting::Lines(true) => out.push_str("lines ColWise"),
        Setting::Overlap(values) => {
            out.push_str("overlap ")?;
            put_all(out, values.as_slice())
        }
        Setting::Edge(EdgeMode::Duplicate) => out.push_str("edge Duplicate"),
        Setting::Edge(EdgeMode::Cyclic) => out.push_str("edge Cyclic"),
        Setting::Edge(EdgeMode::Pad) => out.push_str("edge Pad"),
        Setting::Pad(value) => put_value(out, "pad", value),
    }
}

/// Appends the functions of an instance.
fn put_functions(out: &mut String, functions: &[Name]) -> Result<(), AllocError> {
    for function in functions {
        out.push_str(" ")?;
        put_name(out, function)?;
    }
    Ok(())
}

/// Appends the declaration of an instance.
fn put_instance(out: &mut String, instance: &Instance) -> Result<(), AllocError> {
    put_name(out, &instance.name)?;
    out.push_str(" ")?;
    out.push_str(skeleton(instance.skeleton))?;
    out.push_str(" <")?;
    let mut lead = "";
    for number in instance.numbers.as_slice() {
        write!(out, "{lead}{number}")?;
        lead = " ";
    }
    out.push_str(">")?;
    put_functions(out, instance.functions.as_slice())
}

/// Appends a printed item.
fn put_item(out: &mut String, item: &Item) -> Result<(), AllocError> {
    match item {
        Item::Value(value) => put(out, value),
        Item::Text(text) => put_text(out, text),
        Item::End => out.push_str("endl"),
    }
}

/// Appends printed items.
fn put_items(out: &mut String, items: &[Item]) -> Result<(), AllocError> {
    for item in items {
        out.push_str(" ")?;
        put_item(out, item)?;
    }
    Ok(())
}

/// Appends a word, the kind of a container, its type and a blank.
fn put_kind(out: &mut String, word: &str, sizes: u8, ty: Ty) -> Result<(), AllocError> {
    let ty = type_name(ty);
    write!(out, "{word} {sizes} {ty} ")
}

/// Appends a statement that holds no other, without its parentheses.
fn put_plain(out: &mut String, what: &What) -> Result<(), AllocError> {
    match what {
        What::Declare(ty, name, value) => {
            let ty = type_name(*ty);
            write!(out, "let {ty} ")?;
            put_name(out, name)?;
            put_value(out, "", value)
        }
        What::Assign(name, value) => {
            out.push_str("= ")?;
            put_name(out, name)?;
            put_value(out, "", value)
        }
        What::Poke(name, places, value) => {
            out.push_str("poke ")?;
            put_applied(out, name, places.as_slice())?;
            put_value(out, "", value)
        }
        What::Make(sizes, ty, name, arguments) => {
            put_kind(out, "make", *sizes, *ty)?;
            put_applied(out, name, arguments.as_slice())
        }
        What::Take(sizes, ty, name, input) => {
            put_kind(out, "take", *sizes, *ty)?;
            put_name(out, name)?;
            out.push_str(" ")?;
            put_text(out, input)
        }
        What::Instance(instance) => {
            out.push_str("inst ")?;
            put_instance(out, instance)
        }
        What::Set(name, setting) => {
            out.push_str("set ")?;
            put_name(out, name)?;
            out.push_str(" ")?;
            put_setting(out, setting)
        }
        What::Call(name, arguments) => {
            out.push_str("call ")?;
            put_applied(out, name, arguments.as_slice())
        }
        What::Print(items) => {
            out.push_str("print")?;
            put_items(out, items.as_slice())
        }
        What::Return(value) => put_value(out, "ret", value),
        What::If(_, _, _) | What::For(_, _, _, _) => Ok(()),
    }
}

/// Appends a statement.
#[cycle(statement)]
fn put_statement(out: &mut String, statement: &Statement) -> Result<(), AllocError> {
    out.push_str("(")?;
    match &statement.what {
        What::If(test, one, other) => {
            put_value(out, "if", test)?;
            put_block(out, one.as_slice())?;
            put_block(out, other.as_slice())?;
        }
        What::For(first, test, step, body) => {
            out.push_str("for ")?;
            put_statement(out, first.get())?;
            put_value(out, "", test)?;
            out.push_str(" ")?;
            put_statement(out, step.get())?;
            put_block(out, body.as_slice())?;
        }
        what => put_plain(out, what)?,
    }
    out.push_str(")")
}

/// Appends a blank and a block.
#[cycle(statement)]
fn put_block(out: &mut String, statements: &[Statement]) -> Result<(), AllocError> {
    out.push_str(" {")?;
    let mut lead = "";
    for statement in statements {
        out.push_str(lead)?;
        put_statement(out, statement)?;
        lead = " ";
    }
    out.push_str("}")
}

/// Appends a parameter with its kind.
fn put_param(out: &mut String, param: &Param) -> Result<(), AllocError> {
    match param.kind {
        ParamKind::Scalar(ty) => out.push_str(type_name(ty))?,
        ParamKind::Index(sizes) => write!(out, "index{sizes}")?,
        ParamKind::Proxy(sizes, ty) => {
            let ty = type_name(ty);
            write!(out, "view{sizes} {ty}")?;
        }
        ParamKind::Region(sizes, ty) => {
            let ty = type_name(ty);
            write!(out, "region{sizes} {ty}")?;
        }
    }
    out.push_str(" ")?;
    put_name(out, &param.name)
}

/// Appends parameters with commas between.
fn put_params(out: &mut String, params: &[Param]) -> Result<(), AllocError> {
    let mut lead = "";
    for param in params {
        out.push_str(lead)?;
        put_param(out, param)?;
        lead = ", ";
    }
    Ok(())
}

/// Appends a function.
fn put_function(out: &mut String, function: &Function) -> Result<(), AllocError> {
    out.push_str("(")?;
    out.push_str(type_name(function.ret))?;
    out.push_str(" ")?;
    put_name(out, &function.name)?;
    out.push_str(" [")?;
    put_params(out, function.params.as_slice())?;
    out.push_str("]")?;
    put_block(out, function.body.as_slice())?;
    out.push_str(")")
}

/// The tree of a program as text.
pub fn written(alloc: Global, program: &Program) -> Result<String, AllocError> {
    let mut out = String::new(alloc);
    let mut lead = "";
    for function in program.functions.as_slice() {
        out.push_str(lead)?;
        put_function(&mut out, function)?;
        lead = " ";
    }
    Ok(out)
}
