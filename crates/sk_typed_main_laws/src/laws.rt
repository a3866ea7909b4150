ghost use Rattle.sk_typed_main_laws.specs.TypedMains.{TypedVectorsFit};

/// A law: a typed program of vectors that a text has within the limits fits.
pub fn typed_vectors_fit()
    ensures { TypedVectorsFit }
{}
