// Texts that were found for fields.
ghost use Rattle.std.specs.Prelude.{◌≡◌, is_some};
ghost use Rattle.split_seek.specs.Texts.{text_of};

use goal_form::{Node, same_field};
use sqlite_items::Items;
use text_base::Field;

/// The texts of fields so far, and the last field that has more states than were allowed.
#[derive(Drop)]
pub struct Draft {
    pub texts: Items<(Field, Items<u8>)>,
    pub full: Option<Node>,
}

/// A text for each required field, or a field with too many states, or why there is no text for one.
#[derive(Drop)]
pub enum Service {
    All(Items<(Field, Items<u8>)>),
    Full(Node),
    Shut(Node),
}

/// Whether the field has a text.
pub fn has_text(texts: &[(Field, Items<u8>)], field: &Field) -> bool
    ensures { result ≡ is_some (text_of texts.now field.now) }
{
    for entry in texts {
        if same_field(&entry.0, field) {
            return true;
        }
    }
    false
}
