// Fields compared and copied.
ghost use Rattle.std.specs.Prelude.{◌≡◌, [], IfOk};
ghost use Rattle.goal_form.specs.Fields.{field_tag, field_name, is_always as always, same_field as same};

use std::alloc::Global;
use text_base::{Field, OutOfMemory, Text};

/// A number for each kind of field.
pub(crate) fn tag_of(field: &Field) -> u8
    ensures { result ≡ field_tag field.now }
{
    match field {
        Field::Authority => 0,
        Field::Target => 1,
        Field::Method => 2,
        Field::Proto => 3,
        Field::Random => 4,
        Field::Runtime => 5,
        Field::Internal => 6,
        Field::Header(_) => 7,
    }
}

/// The name of a header, and nothing for another field.
pub(crate) fn name_of(field: &Field) -> &[u8]
    ensures { result.now ≡ field_name field.now }
{
    match field {
        Field::Header(name) => name.as_bytes(),
        _ => b"",
    }
}

/// Whether both are one field. Takes no memory.
pub fn same_field(field: &Field, other: &Field) -> bool
    ensures { result ≡ same field.now other.now }
{
    tag_of(field) == tag_of(other) && name_of(field) == name_of(other)
}

/// Whether each request has the field. Takes no memory.
pub fn is_always(field: &Field) -> bool
    ensures { result ≡ always field.now }
{
    match field {
        Field::Authority => true,
        Field::Target => true,
        Field::Method => true,
        Field::Proto => true,
        Field::Random => true,
        Field::Runtime => false,
        Field::Internal => false,
        Field::Header(_) => false,
    }
}

/// A field that equals this one.
pub fn copy_field(alloc: Global, field: &Field) -> Result<Field, OutOfMemory>
    ensures { IfOk result (λ f. f ≡ field.now) }
{
    match field {
        Field::Authority => Ok(Field::Authority),
        Field::Target => Ok(Field::Target),
        Field::Method => Ok(Field::Method),
        Field::Proto => Ok(Field::Proto),
        Field::Random => Ok(Field::Random),
        Field::Runtime => Ok(Field::Runtime),
        Field::Internal => Ok(Field::Internal),
        Field::Header(name) => Ok(Field::Header(Text::copy(name, alloc)?)),
    }
}
