// Comparisons of texts, with or without the case of letters.
ghost use Rattle.std.specs.Prelude.{◌≡◌, bytes_eq};
ghost use Rattle.text_base.specs.Forms as form;

/// Whether the texts are equal; with `fold`, but for letter case. Takes no memory.
pub fn equals(text: &[u8], value: &[u8], fold: bool) -> bool
    ensures { result ≡ bytes_eq (form.folded fold text.now) (form.folded fold value.now) }
{
    if fold {
        text.eq_ignore_ascii_case(value)
    } else {
        text == value
    }
}

/// Whether the value stands in front of the text; with `fold`, but for letter case. Takes no memory.
pub fn begins(text: &[u8], value: &[u8], fold: bool) -> bool
    ensures { result ≡ form.begins (form.folded fold text.now) (form.folded fold value.now) }
{
    if value.len() > text.len() {
        return false;
    }
    let (front, _) = text.split_at(value.len());
    equals(front, value, fold)
}

/// Whether the value stands at the end of the text; with `fold`, but for letter case. Takes no memory.
pub fn ends(text: &[u8], value: &[u8], fold: bool) -> bool
    ensures { result ≡ form.ends (form.folded fold text.now) (form.folded fold value.now) }
{
    if value.len() > text.len() {
        return false;
    }
    let (_, end) = text.split_at(text.len() - value.len());
    equals(end, value, fold)
}

/// Whether the value stands somewhere in the text; with `fold`, but for letter case. Takes no memory.
pub fn occurs(text: &[u8], value: &[u8], fold: bool) -> bool
    ensures { result ≡ form.occurs (form.folded fold text.now) (form.folded fold value.now) }
{
    let mut left = text;
    loop {
        if begins(left, value, fold) {
            return true;
        }
        match left {
            [] => return false,
            [_, rest @ ..] => left = rest,
        }
    }
}
