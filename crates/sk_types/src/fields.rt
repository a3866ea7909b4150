ghost use Rattle.std.specs.Prelude.{◌≡◌};
ghost use Rattle.sk_names.specs.Bytes.{same_bytes};
ghost use Rattle.sk_tree.specs.Parameters as parameters;

use sk_tree::ParamKind;

/// Whether a name is spelled so.
pub(crate) fn spells(name: &[u8], word: &str) -> bool
    ensures { result ≡ same_bytes name.now word.now }
{
    name == word.as_bytes()
}

/// Whether a name is the size of a container.
fn is_size(name: &[u8]) -> bool
    ensures { result ≡ parameters.is_size name.now }
{
    spells(name, "size")
}

/// Whether a name is one of the sizes of a tensor of that dimension.
fn is_tensor_size(dimension: u8, name: &[u8]) -> bool
    ensures { result ≡ parameters.is_tensor_size dimension name.now }
{
    spells(name, "size_i")
        || spells(name, "size_j")
        || spells(name, "size_k")
        || (dimension >= 4 && spells(name, "size_l"))
}

/// Whether a container parameter of that dimension has a field of that name.
fn is_proxy_field(dimension: u8, name: &[u8]) -> bool
    ensures { result ≡ parameters.is_proxy_field dimension name.now }
{
    match dimension {
        1 => is_size(name),
        2 => is_size(name) || spells(name, "rows") || spells(name, "cols"),
        _ => is_size(name) || is_tensor_size(dimension, name),
    }
}

/// Whether an index of that dimension has a field of that name.
fn is_index_field(dimension: u8, name: &[u8]) -> bool
    ensures { result ≡ parameters.is_index_field dimension name.now }
{
    match dimension {
        1 => spells(name, "i"),
        2 => spells(name, "row") || spells(name, "col"),
        _ => {
            spells(name, "i")
                || spells(name, "j")
                || spells(name, "k")
                || (dimension >= 4 && spells(name, "l"))
        }
    }
}

/// Whether a region of that dimension has a field of that name.
fn is_region_field(dimension: u8, name: &[u8]) -> bool
    ensures { result ≡ parameters.is_region_field dimension name.now }
{
    match dimension {
        1 => spells(name, "oi"),
        _ => spells(name, "oi") || spells(name, "oj"),
    }
}

/// Whether a container of that dimension has a method of that name in main.
fn is_container_method(dimension: u8, name: &[u8]) -> bool
    ensures { result ≡ parameters.is_container_method dimension name.now }
{
    match dimension {
        1 => is_size(name),
        2 => is_size(name) || spells(name, "total_rows") || spells(name, "total_cols"),
        _ => is_size(name) || is_tensor_size(dimension, name),
    }
}

/// Whether a parameter has a field of that name.
pub(crate) fn is_field(kind: ParamKind, name: &[u8]) -> bool
    ensures { result ≡ parameters.is_field kind name.now }
{
    match kind {
        ParamKind::Scalar(_) => false,
        ParamKind::Index(dimension) => is_index_field(dimension, name),
        ParamKind::Proxy(dimension, _) => is_proxy_field(dimension, name),
        ParamKind::Region(dimension, _) => is_region_field(dimension, name),
    }
}

/// Whether a container of main has a method of that name.
pub(crate) fn is_method(kind: ParamKind, name: &[u8]) -> bool
    ensures { result ≡ parameters.is_method kind name.now }
{
    match kind {
        ParamKind::Proxy(dimension, _) => is_container_method(dimension, name),
        _ => false,
    }
}
