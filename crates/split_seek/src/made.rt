// The request that is made of texts.
ghost use Rattle.std.specs.Prelude.{◌≡◌, ◌-◌, ◌<◌, true, IfOk};
ghost use Rattle.std.specs.Option.{option_copied};
ghost use Rattle.text_base.specs.Requests.{is_valid};
ghost use Rattle.split_seek.specs.Texts.{text_of, or_empty, heads_of, random_of as number_of, made};

use crate::texts::has_text;
use goal_form::same_field;
use req_model::Request;
use sqlite_items::Items;
use std::alloc::{AllocError, Global};
use text_base::{Field, OutOfMemory, Parts};

/// The text of a field, and the empty one where it has none.
pub fn text_for<'a>(texts: &'a [(Field, Items<u8>)], field: &Field) -> &'a [u8]
    ensures { result.now ≡ or_empty (text_of texts.now field.now) }
{
    for entry in texts {
        if same_field(&entry.0, field) {
            return entry.1.as_slice();
        }
    }
    b""
}

fn copied(
    alloc: Global,
    texts: &[(Field, Items<u8>)],
    field: &Field,
) -> Result<Items<u8>, OutOfMemory>
    ensures { IfOk result (λ t. t ≡ or_empty (text_of texts.now field.now)) }
{
    Items::from_slice(alloc, text_for(texts, field))
}

/// The headers, in the order of the texts.
fn headers(
    alloc: Global,
    texts: &[(Field, Items<u8>)],
) -> Result<Items<(Items<u8>, Items<u8>)>, OutOfMemory>
    ensures { IfOk result (λ hs. hs ≡ heads_of texts.now) }
{
    let mut heads = Items::new(alloc);
    for entry in texts {
        if let Field::Header(name) = &entry.0 {
            let name = Items::from_slice(alloc, name.as_bytes())?;
            let value = Items::from_slice(alloc, entry.1.as_slice())?;
            heads.push((name, value))?;
        }
    }
    Ok(heads)
}

fn digit(byte: u8) -> u64
    ensures value { result ≡ byte - 48 }
    ensures small { result < 256 }
{
    u64::from(byte.saturating_sub(b'0'))
}

/// The number of six digits, and 0 for another text.
fn random_of(text: &[u8]) -> u64
    ensures { result ≡ number_of text.now }
{
    match text {
        [a, b, c, d, e, f] => {
            digit(*a) * 100_000
                + digit(*b) * 10_000
                + digit(*c) * 1000
                + digit(*d) * 100
                + digit(*e) * 10
                + digit(*f)
        }
        _ => 0,
    }
}

/// The request of these texts.
pub fn request_of(alloc: Global, texts: &[(Field, Items<u8>)]) -> Result<Request, OutOfMemory>
    ensures same { IfOk result (λ q. q ≡ made texts.now) }
    ensures valid { IfOk result (λ q. is_valid q ≡ true) }
{
    let parts = Parts {
        authority: copied(alloc, texts, &Field::Authority)?,
        target: copied(alloc, texts, &Field::Target)?,
        method: copied(alloc, texts, &Field::Method)?,
        https: text_for(texts, &Field::Proto) == b"https".as_slice(),
        internal: has_text(texts, &Field::Internal),
        headers: headers(alloc, texts)?,
        runtime: copied(alloc, texts, &Field::Runtime)?,
        random: random_of(text_for(texts, &Field::Random)),
    };
    // Valid texts make valid parts, so want of memory alone is left.
    match Request::new(alloc, parts) {
        Ok(request) => Ok(request),
        Err(_) => Err(AllocError),
    }
}
