// The texts of domains.
ghost use Rattle.std.specs.Prelude.{◌≡◌, IfOk};
ghost use Rattle.cfg_types.specs.Hosts.{written as written_of};

use crate::Domain;
use std::alloc::Global;
use text_base::{OutOfMemory, Text};

impl Domain {
    /// The domain as it is written, in lower case, with its `*`.
    pub fn written(&self, alloc: Global) -> Result<Text, OutOfMemory>
        ensures { IfOk result (λ t. t ≡ written_of self.now) }
    {
        match self {
            Domain::Exact(name) => name.copy(alloc),
            Domain::Suffix(name) => {
                let text = format!(in alloc; "*{}", name.as_str())?;
                Text::of(alloc, text.as_str())
            }
            Domain::Prefix(name) => {
                let text = format!(in alloc; "{}*", name.as_str())?;
                Text::of(alloc, text.as_str())
            }
            Domain::Any => Text::of(alloc, "*"),
        }
    }
}
