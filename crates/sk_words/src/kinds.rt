ghost use Rattle.std.specs.Prelude.{◌≡◌};
ghost use Rattle.sk_names.specs.Words.{type_word};
ghost use Rattle.sk_words.specs.Kinds.{kind_word};

use sk_base::Ty;

/// The word for a type.
pub fn type_name(ty: Ty) -> &'static [u8]
    ensures { result.now ≡ type_word ty }
{
    match ty {
        Ty::Int => b"int",
        Ty::Long => b"long",
    }
}

/// The word for a container's kind by its number of sizes, 1 to 4; no word for another number.
pub fn kind_name(sizes: u8) -> &'static [u8]
    ensures { result.now ≡ kind_word sizes }
{
    match sizes {
        1 => b"Vector",
        2 => b"Matrix",
        3 => b"Tensor3",
        4 => b"Tensor4",
        _ => b"",
    }
}
