// The alphabet of authorities, of which the domains of a configuration are made too.
ghost use Rattle.std.specs.Prelude.{◌≡◌};
ghost use Rattle.std.specs.List.{list_all};
ghost use Rattle.text_base.specs.Alphabets.{is_authority_byte as is_byte};
ghost use Rattle.text_base.specs.Requests.{is_authority as is_text};

fn is_authority_byte(byte: u8) -> bool
    ensures { result ≡ is_byte byte }
{
    byte.is_ascii_alphanumeric() || matches!(byte, b'-' | b'.' | b'_' | b':' | b'[' | b']')
}

fn are_authority_bytes(text: &[u8]) -> bool
    ensures { result ≡ list_all is_byte text.now }
{
    text.iter().all(|byte| is_authority_byte(*byte))
}

/// Whether the text is one or more bytes of the alphabet: letters, digits and `-._:[]`.
pub fn is_authority(text: &[u8]) -> bool
    ensures { result ≡ is_text text.now }
{
    match text {
        [] => false,
        _ => are_authority_bytes(text),
    }
}
