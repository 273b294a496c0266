//! The attributes of primitives.
ghost use Rattle.std.specs.Prelude.{◌≡◌, bytes_eq};
ghost use Rattle.ipg_names_scope.specs.Primitives as spec;

use ipg_core::grammar::Primitive;

fn is_word(name: &[u8], word: &str) -> bool
    ensures { result ≡ bytes_eq name.now word.now }
{
    name == word.as_bytes()
}

/// Whether the primitive has an attribute of that name.
pub fn primitive_has(primitive: Primitive, field: &[u8]) -> bool
    ensures { result ≡ spec.primitive_has primitive field.now }
{
    match primitive {
        Primitive::U8 => is_word(field, "val"),
        Primitive::U16LE => is_word(field, "val"),
        Primitive::U16BE => is_word(field, "val"),
        Primitive::U32LE => is_word(field, "val"),
        Primitive::U32BE => is_word(field, "val"),
        Primitive::U64LE => is_half(field),
        Primitive::U64BE => is_half(field),
        Primitive::Bytes => false,
    }
}

fn is_half(field: &[u8]) -> bool
    ensures { result ≡ spec.is_half field.now }
{
    is_word(field, "hi") || is_word(field, "lo")
}
