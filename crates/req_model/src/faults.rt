// The first part of a request that breaks its rules.
ghost use Rattle.std.specs.Prelude.{◌≡◌, ◌⊎◌, ◌<◌, not, ◌&&◌, Some, None, IfErr, OnOk, position, bytes_eq};
ghost use Rattle.std.specs.List.{list_all, list_any};
ghost use Rattle.text_base.specs.Alphabets as alphabet;
ghost use Rattle.text_base.specs.Requests as rule;
ghost use Rattle.text_base.specs.declared.request.BadRequest.TheVariants as bad;

use crate::bytes::{is_authority_byte, is_capital, is_printed, is_target_byte, is_token_byte};
use sqlite_items::Items;
use text_base::{BadRequest, Parts};

fn are_authority_bytes(text: &[u8]) -> bool
    ensures { result ≡ list_all alphabet.is_authority_byte text.now }
{
    text.iter().all(|byte| is_authority_byte(*byte))
}

fn is_authority(text: &[u8]) -> bool
    ensures { result ≡ rule.is_authority text.now }
{
    match text {
        [] => false,
        _ => are_authority_bytes(text),
    }
}

fn are_target_bytes(text: &[u8]) -> bool
    ensures { result ≡ list_all alphabet.is_target_byte text.now }
{
    text.iter().all(|byte| is_target_byte(*byte))
}

fn is_target(text: &[u8]) -> bool
    ensures { result ≡ rule.is_target text.now }
{
    match text {
        [] => false,
        [first, rest @ ..] => *first == b'/' && are_target_bytes(rest),
    }
}

fn are_token_bytes(text: &[u8]) -> bool
    ensures { result ≡ list_all alphabet.is_token_byte text.now }
{
    text.iter().all(|byte| is_token_byte(*byte))
}

fn is_method(text: &[u8]) -> bool
    ensures { result ≡ rule.is_method text.now }
{
    match text {
        [] => false,
        _ => are_token_bytes(text),
    }
}

fn are_printed(text: &[u8]) -> bool
    ensures { result ≡ list_all alphabet.is_printed text.now }
{
    text.iter().all(|byte| is_printed(*byte))
}

fn are_name_bytes(text: &[u8]) -> bool
    ensures { result ≡ list_all (λ b. alphabet.is_token_byte b && not (alphabet.is_capital b)) text.now }
{
    text.iter()
        .all(|byte| is_token_byte(*byte) && !is_capital(*byte))
}

/// Whether the name stands for a part of the request.
fn is_reserved(name: &[u8]) -> bool
    ensures { result ≡ list_any (bytes_eq name.now) rule.reserved_names }
{
    name == b"host".as_slice()
        || name == b"x-forwarded-proto".as_slice()
        || name == b"x-envoy-internal".as_slice()
}

/// Whether a header of a request may have the name: a token in lower case that stands for no part of the request. Takes no
/// memory.
pub fn is_header_name(name: &[u8]) -> bool
    ensures { result ≡ rule.is_header_name name.now }
{
    match name {
        [] => false,
        _ => are_name_bytes(name) && !is_reserved(name),
    }
}

fn is_header_value(value: &[u8]) -> bool
    ensures { result ≡ rule.is_header_value value.now }
{
    are_printed(value) && !value.starts_with(b" ".as_slice()) && !value.ends_with(b" ".as_slice())
}

fn is_header(head: &(Items<u8>, Items<u8>)) -> bool
    ensures { result ≡ rule.is_header head.now }
{
    is_header_name(head.0.as_slice()) && is_header_value(head.1.as_slice())
}

/// The index of the first header that breaks its rules.
fn first_bad_header(heads: &[(Items<u8>, Items<u8>)]) -> Option<usize>
    ensures { result ≡ position (λ h. not (rule.is_header h)) heads.now }
{
    heads.iter().position(|head| !is_header(head))
}

/// Whether the parts are a request. A bad header past the first 2^32 is answered as want of memory.
pub fn check(parts: &Parts) -> Result<(), BadRequest>
    ensures ok { OnOk result (rule.first_bad_part parts.now ≡ None) }
    ensures bad { IfErr result (λ e. (e ≡ bad.OutOfMemory) ⊎ (rule.first_bad_part parts.now ≡ Some e)) }
{
    if !is_authority(parts.authority.as_slice()) {
        return Err(BadRequest::Authority);
    }
    if !is_target(parts.target.as_slice()) {
        return Err(BadRequest::Target);
    }
    if !is_method(parts.method.as_slice()) {
        return Err(BadRequest::Method);
    }
    if !are_printed(parts.runtime.as_slice()) {
        return Err(BadRequest::Runtime);
    }
    match first_bad_header(parts.headers.as_slice()) {
        None => Ok(()),
        Some(at) => match u32::try_from(at) {
            Ok(index) => Err(BadRequest::Header { index }),
            Err(_) => Err(BadRequest::OutOfMemory),
        },
    }
}
