// Names and values of headers, as a map takes them.
ghost use Rattle.std.specs.Prelude.{◌≡◌, true, IfOk};
ghost use Rattle.std.specs.List.{list_all};
ghost use Rattle.text_base.specs.Alphabets.{is_printed};
ghost use Rattle.cfg_types.specs.HeaderEdits.{undoubled as undoubled_of};
ghost use Rattle.head_edit.specs.Maps.{is_map_name};

use http_header::{HeaderName, HeaderNameError, HeaderValue, HeaderValueError};
use std::alloc::Global;
use text_base::OutOfMemory;

/// The name of these bytes.
pub fn name_of(alloc: Global, name: &[u8]) -> Result<HeaderName, OutOfMemory>
    requires { is_map_name name.now ≡ true }
    ensures { IfOk result (λ n. n ≡ name.now) }
{
    match HeaderName::from_lowercase(alloc, name) {
        Ok(name) => Ok(name),
        Err(HeaderNameError::OutOfMemory) => Err(OutOfMemory),
        Err(HeaderNameError::Invalid) => unreachable!(),
    }
}

fn value_from(value: Vec<u8>) -> Result<HeaderValue, OutOfMemory>
    requires { list_all is_printed value.items ≡ true }
    ensures { IfOk result (λ v. v.bytes ≡ value.items) }
{
    match HeaderValue::from_vec(value) {
        Ok(value) => Ok(value),
        Err(HeaderValueError::OutOfMemory) => Err(OutOfMemory),
        Err(HeaderValueError::Invalid) => unreachable!(),
    }
}

/// The value of these bytes.
pub fn value_of(alloc: Global, value: &[u8]) -> Result<HeaderValue, OutOfMemory>
    requires { list_all is_printed value.now ≡ true }
    ensures { IfOk result (λ v. v.bytes ≡ value.now) }
{
    value_from(Vec::from_slice(alloc, value)?)
}

/// The value of these bytes with each `%%` made `%`, from the left.
pub fn undoubled_value(alloc: Global, value: &[u8]) -> Result<HeaderValue, OutOfMemory>
    requires { list_all is_printed value.now ≡ true }
    ensures { IfOk result (λ v. v.bytes ≡ undoubled_of value.now) }
{
    value_from(undoubled(alloc, value)?)
}

/// The bytes with each `%%` made `%`, from the left.
fn undoubled(alloc: Global, value: &[u8]) -> Result<Vec<u8>, OutOfMemory>
    ensures { IfOk result (λ v. v.items ≡ undoubled_of value.now) }
{
    let mut single = Vec::new(alloc);
    let mut at = 0;
    while at < value.len() {
        single.push(value[at])?;
        at += if value[at..].starts_with(b"%%") { 2 } else { 1 };
    }
    Ok(single)
}
