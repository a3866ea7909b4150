//! Inputs and containers as words.
use sk_base::{Cell, Shape, Ty};
use sk_data::{Cells, Dumped};
use sk_names::{Name, Text};
use sk_tables::{bytes_of, word_of};
use sk_tree::Declared;
use std::alloc::{AllocError, Global};

/// The inputs of a list, with commas between them.
pub fn inputs_of(alloc: Global, text: &str) -> Result<Vec<Declared>, AllocError> {
    let mut inputs = Vec::new(alloc);
    for words in text.split(',') {
        inputs.push(input_of(alloc, words)?)?;
    }
    Ok(inputs)
}

/// The input of a name, a kind and a type.
fn input_of(alloc: Global, text: &str) -> Result<Declared, AllocError> {
    let (name, words) = word_of(text.trim());
    let (kind, ty) = word_of(words);
    let name = bytes_of(alloc, name)?;
    Ok(Declared {
        name: Text::from_vec(name),
        kind: kind_of(kind),
        ty: type_of(ty),
    })
}

/// How many sizes a kind has: one, unless the word is another kind's.
fn kind_of(word: &str) -> u8 {
    if word == "matrix" {
        2
    } else if word == "tensor3" {
        3
    } else if word == "tensor4" {
        4
    } else {
        1
    }
}

/// A type: `int`, unless the word is `long`.
fn type_of(word: &str) -> Ty {
    if word == "long" { Ty::Long } else { Ty::Int }
}

/// A container, and the input that it is declared as.
#[derive(Drop)]
pub struct Container {
    pub dumped: Dumped,
    pub declared: Declared,
}

/// The container of a name, a type, a shape and cells, if the shape is one.
pub fn container_of(alloc: Global, text: &str) -> Result<Option<Container>, AllocError> {
    let (name, words) = word_of(text);
    let (ty, words) = word_of(words);
    let (sizes, cells) = word_of(words);
    let sizes = numbers_of(alloc, sizes, 'x')?;
    let kind = sizes.len().min(4) as u8;
    let Some(shape) = Shape::new(alloc, sizes.as_slice()) else {
        return Ok(None);
    };
    let cells = Cells::from_vec(numbers_of(alloc, cells, ' ')?);
    let bytes = bytes_of(alloc, name)?;
    let name = Name::from_slice(alloc, bytes.as_slice())?;
    let dumped = Dumped { name, shape, cells };
    let declared = Declared {
        name: Text::from_vec(bytes),
        kind,
        ty: type_of(ty),
    };
    Ok(Some(Container { dumped, declared }))
}

/// The numbers of a text with this letter between them; what is none is left out.
fn numbers_of(alloc: Global, text: &str, between: char) -> Result<Vec<Cell>, AllocError> {
    let mut numbers = Vec::new(alloc);
    for word in text.split(between) {
        if let Ok(number) = word.parse::<i64>() {
            numbers.push(number)?;
        }
    }
    Ok(numbers)
}
