//! A compiled program of two functions of an index and an int.
ghost use Rattle.std.specs.Prelude.{◌≡◌, ◌<◌, IfOk, [], ◌∷◌};
ghost use Rattle.sk_index_rows.specs.IndexedObject.{IsIndexed, adding, index_and_int, indexed_object, parting, taking};

use sk_base::{Op, Ty};
use sk_isa::{Code, Instr, Object, Signature};
use sk_names::Name;
use sk_tree::ParamKind;
use sqlite_items::Items;
use std::alloc::{AllocError, Global};

/// A function of the program.
#[derive(Clone, Copy, PartialEq, Eq, Debug)]
pub enum Indexed {
    /// `i * 2 + a`
    Adding,
    /// `100 / (i - 5)`
    Parting,
}

impl Indexed {
    /// Its number in the program.
    pub fn number(self) -> u32
        ensures { result < 2 }
    {
        match self {
            Indexed::Adding => 0,
            Indexed::Parting => 1,
        }
    }
}

/// The program.
pub fn sound_object(alloc: Global) -> Result<Object, AllocError>
    ensures { IfOk result IsIndexed }
{
    let object = object(alloc)?;
    Ok(object)
}

fn object(alloc: Global) -> Result<Object, AllocError>
    ensures { IfOk result (λ object. object ≡ indexed_object) }
{
    let adding = adding(alloc)?;
    let parting = parting(alloc)?;
    let first = taking_index(alloc)?;
    let second = taking_index(alloc)?;
    let own = Signature {
        ret: Ty::Int,
        params: Items::new(alloc),
        slots: Items::new(alloc),
    };
    let main = Code {
        instrs: Items::new(alloc),
        slots: 0,
        depth: 0,
    };
    let names = [
        Name::from_slice(alloc, b"a")?,
        Name::from_slice(alloc, b"p")?,
    ];
    Ok(Object {
        functions: Items::from_vec(vec![in alloc; adding, parting]?),
        signatures: Items::from_vec(vec![in alloc; first, second, own]?),
        safe: Items::from_vec(vec![in alloc; false, false]?),
        operators: Items::from_vec(vec![in alloc; None, None]?),
        instances: Items::new(alloc),
        main,
        inputs: Items::new(alloc),
        containers: Items::new(alloc),
        names: Items::from_vec(Vec::from_array(alloc, names)?),
    })
}

/// What takes an index of one dimension and an int.
fn taking_index(alloc: Global) -> Result<Signature, AllocError>
    ensures { IfOk result (λ signature. signature ≡ taking index_and_int) }
{
    Ok(Signature {
        ret: Ty::Int,
        params: index_and_int(alloc)?,
        slots: index_and_int(alloc)?,
    })
}

fn index_and_int(alloc: Global) -> Result<Items<ParamKind>, AllocError>
    ensures { IfOk result (λ kinds. kinds ≡ index_and_int) }
{
    let kinds = vec![in alloc; ParamKind::Index(1), ParamKind::Scalar(Ty::Int)]?;
    Ok(Items::from_vec(kinds))
}

fn adding(alloc: Global) -> Result<Code, AllocError>
    ensures { IfOk result (λ code. code ≡ adding) }
{
    let name = Name::from_slice(alloc, b"i")?;
    let instrs = vec![in alloc;
        Instr::Field(0, name),
        Instr::Push(2),
        Instr::Binary(Op::Mul, Ty::Int),
        Instr::Load(1),
        Instr::Binary(Op::Add, Ty::Int),
        Instr::Ret,
    ]?;
    Ok(Code {
        instrs: Items::from_vec(instrs),
        slots: 2,
        depth: 2,
    })
}

fn parting(alloc: Global) -> Result<Code, AllocError>
    ensures { IfOk result (λ code. code ≡ parting) }
{
    let name = Name::from_slice(alloc, b"i")?;
    let instrs = vec![in alloc;
        Instr::Push(100),
        Instr::Field(0, name),
        Instr::Push(5),
        Instr::Binary(Op::Sub, Ty::Int),
        Instr::Binary(Op::Div, Ty::Int),
        Instr::Ret,
    ]?;
    Ok(Code {
        instrs: Items::from_vec(instrs),
        slots: 2,
        depth: 3,
    })
}
